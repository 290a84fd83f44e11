// Why a file is not read.
use rdf_terms::Refusal;
use thiserror::Error;

/// Why a file was not read.
#[derive(Clone, Copy, Debug, PartialEq, Eq, Error)]
pub enum ArchiveFault {
    /// A call on the shelf failed.
    #[error("a call on the shelf failed")]
    Failed,
    /// The file is refused.
    #[error("the file is refused at {}", .0.at)]
    Refused(Refusal),
    /// Memory was wanting.
    #[error("memory was wanting")]
    Memory,
}
