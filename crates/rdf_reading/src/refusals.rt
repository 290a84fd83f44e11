// Why a text was not read.
use rdf_terms::Refusal;

/// Why a text was not read.
#[derive(Clone, Copy, Debug, PartialEq, Eq)]
pub enum ReadRefusal {
    /// The text is refused, at a place.
    Refused(Refusal),
    /// Memory was wanting.
    Memory,
}
