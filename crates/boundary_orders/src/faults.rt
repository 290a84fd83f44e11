// Why there are no orders.
ghost use Rattle.std.specs.Prelude.{◌≡◌};
ghost use Rattle.boundary_orders.specs.declared.faults.BuildFault.TheVariants.{Memory};

use std::alloc::AllocError;

/// Why there are no orders.
#[derive(Clone, Copy, PartialEq, Eq, Debug)]
pub enum BuildFault {
    /// More than 2,048 extents; so many are there.
    Extents(u32),
    /// More than 2,048 dates; so many are there.
    Dates(u32),
    /// More than 65,536 orders; so many are there.
    Orders(u32),
    /// Memory was wanting.
    Memory,
}

impl From<AllocError> for BuildFault {
    ghost from_gives = { λ _ e. e ≡ Memory };

    fn from(_: AllocError) -> BuildFault {
        BuildFault::Memory
    }
}
