// Why a certificate is refused.
ghost use Rattle.std.specs.Prelude.{◌≡◌};
ghost use Rattle.certificate_trees.specs.declared.refusals.CertRefusal.TheVariants.{Memory};

use std::alloc::{AllocError, AllocFailed};

/// Why a certificate is refused, with the offset of a byte in its text.
#[derive(Clone, Copy, PartialEq, Eq, Debug)]
pub enum CertRefusal {
    /// The text is no certificate: the length of its longest prefix that begins one.
    K1(u64),
    /// The 65th parenthesis of a tree stands open here.
    K2(u64),
    /// This order, `let` line, extent, placing, cover, triple or class doesn't exist.
    K3(u64),
    /// The rule of this node doesn't fit, or this tree concludes another fact than its line says.
    K4(u64),
    /// This line's placing is none of the extents or breaks an order, or its claim isn't shown by the placing.
    K5(u64),
    /// This line isn't due.
    K6(u64),
    /// There is no memory.
    Memory,
}

impl From<AllocError> for CertRefusal {
    ghost from_gives = { λ _ e. e ≡ Memory };

    fn from(_error: AllocError) -> CertRefusal {
        CertRefusal::Memory
    }
}

impl<T: Drop> From<AllocFailed<T>> for CertRefusal {
    ghost from_gives = { λ _ e. e ≡ Memory };

    fn from(_error: AllocFailed<T>) -> CertRefusal {
        CertRefusal::Memory
    }
}
