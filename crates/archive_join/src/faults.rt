// Why a file is not joined.
ghost use Rattle.std.specs.Prelude.{◌≡◌};
ghost use Rattle.archive_join.specs.declared.faults.JoinFault.TheVariants.{Memory};

use rdf_terms::Refusal;
use std::alloc::AllocError;
use thiserror::Error;

/// Why a file was not joined to those before it.
#[derive(Clone, Copy, Debug, PartialEq, Eq, Error)]
pub enum JoinFault {
    /// With this file there are too many names or triples.
    #[error("the joined triples are refused at {}", .0.at)]
    Refused(Refusal),
    /// Memory was wanting, or a number was too large for its type, which no files that were read come near.
    #[error("memory was wanting")]
    Memory,
}

impl From<AllocError> for JoinFault {
    ghost from_gives = { λ _ e. e ≡ Memory };

    fn from(_: AllocError) -> JoinFault {
        JoinFault::Memory
    }
}
