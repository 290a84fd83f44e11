// All points of a set.
ghost use Rattle.std.specs.Prelude.{◌≡◌, IfOk};
ghost use Rattle.std.specs.List.{All};
ghost use Rattle.order_laws.specs.Tables.{IsPoint, all_points};

use order_laws::Point;
use std::alloc::{AllocError, Global};

/// All points: s0, e0, s1, e1 and so on, then d0, d1 and so on.
pub fn list_points(alloc: Global, extents: u32, dates: u32) -> Result<Vec<Point>, AllocError>
    ensures points { IfOk result (λ points. points.items ≡ all_points extents dates) }
    ensures within { IfOk result (λ points. All (IsPoint extents dates) points.items) }
{
    let mut points = Vec::new(alloc);
    for k in 0..extents {
        points.push(Point::Start(k))?;
        points.push(Point::End(k))?;
    }
    for date in 0..dates {
        points.push(Point::Date(date))?;
    }
    Ok(points)
}
