// The boundaries of extents.
ghost use Rattle.std.specs.Prelude.{◌≡◌, IfOk};
ghost use Rattle.order_laws.specs.Tables.{boundaries};

use crm_outside::Items;
use order_core::Point;
use std::alloc::{AllocError, Global};

/// The boundaries in their order: s0, e0, s1, e1 and so on.
pub fn boundaries(alloc: Global, extents: u32) -> Result<Items<Point>, AllocError>
    ensures { IfOk result (λ points. points ≡ boundaries extents) }
{
    let mut points = Items::new(alloc);
    for k in 0..extents {
        points.push(Point::Start(k))?;
        points.push(Point::End(k))?;
    }
    Ok(points)
}
