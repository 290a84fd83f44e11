// The points in their order, and rows and columns of a closure.
ghost use Rattle.std.specs.Prelude.{◌≡◌, ◌≤◌, ◌^◌, IfOk, map};
ghost use Rattle.order_laws.specs.Tables.{IsPoint, all_points};
ghost use Rattle.order_closure.specs.Closures.{between};

use order_closure::Closure;
use order_laws::{Point, Reach};
use std::alloc::{AllocError, Global};

/// All points: s0, e0, s1, e1 and so on, then d0, d1 and so on.
pub fn points(alloc: Global, extents: u32, dates: u32) -> Result<Vec<Point>, AllocError>
    ensures { IfOk result (λ points. points.items ≡ all_points extents dates) }
{
    let mut points = Vec::new(alloc);
    for k in 0..extents {
        points.push(Point::Start(k))?;
        points.push(Point::End(k))?;
    }
    for date in 0..dates {
        points.push(Point::Date(date))?;
    }
    Ok(points)
}

/// What is known from x to each point.
pub fn row_from(
    alloc: Global,
    closure: &Closure,
    points: &[Point],
    x: Point,
) -> Result<Vec<Reach>, AllocError>
    requires points { points.now ≡ all_points closure.now.extents closure.now.dates }
    requires in_range { IsPoint closure.now.extents closure.now.dates x }
    ensures { IfOk result (λ row. row.items ≡ map (λ q. between closure.now x q) points.now) }
{
    let mut row = Vec::new(alloc);
    for n in 0..points.len() {
        row.push(closure.between(x, points[n]))?;
    }
    Ok(row)
}

/// What is known from each point to x.
pub fn column_to(
    alloc: Global,
    closure: &Closure,
    points: &[Point],
    x: Point,
) -> Result<Vec<Reach>, AllocError>
    requires points { points.now ≡ all_points closure.now.extents closure.now.dates }
    requires in_range { IsPoint closure.now.extents closure.now.dates x }
    ensures { IfOk result (λ column. column.items ≡ map (λ q. between closure.now q x) points.now) }
{
    let mut column = Vec::new(alloc);
    for n in 0..points.len() {
        column.push(closure.between(points[n], x))?;
    }
    Ok(column)
}
