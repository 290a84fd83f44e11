// What the plain placing and the delaying placings of a set share.
ghost use Rattle.std.specs.Prelude.{◌≡◌, ℕ, ◌≤◌, ◌<◌, ◌+◌, ◌*◌, ◌^◌, IfOk, map, take, length, slice_index_or};
ghost use Rattle.order_laws.specs.Chains.{HasCycle};
ghost use Rattle.order_laws.specs.Tables.{IsPoint, all_points, floor_of, built_at};
ghost use Rattle.order_laws.specs.Wider.{delaying_placing};
ghost use Rattle.order_core.specs.Sets.{AreInstants};
ghost use Rattle.order_closure.specs.Closures.{IsClosureOf, between};
ghost use Rattle.placing_witness.specs.Prepared.{IsBaseOf, IsBehind};

use crate::delays::{delays, positions};
use crate::floors::{floors, instant};
use crate::ranks::count_below;
use crate::rows::points;
use order_closure::Closure;
use order_core::{OrderSet, Placing};
use order_laws::{Point, Position, Reach};
use std::alloc::{AllocError, Global};

/// The points of a set in their order, their floors, and the plain positions of the boundaries.
#[derive(Drop)]
pub struct Base {
    /// The points.
    pub points: Vec<Point>,
    /// Their floors.
    pub floors: Vec<u32>,
    /// Where the plain placing puts the boundaries.
    pub positions: Vec<Position>,
}

fn plain_positions(
    alloc: Global,
    dates: &[i128],
    closure: &Closure,
    points: &[Point],
    boundaries: usize,
    floors: &[u32],
) -> Result<Vec<Position>, AllocError>
    requires instants { AreInstants dates.now }
    requires dates { length dates.now ≡ closure.now.dates }
    requires points { points.now ≡ all_points closure.now.extents closure.now.dates }
    requires few { length points.now ≤ 2 ^ 22 }
    requires boundaries { boundaries ≤ length points.now }
    requires floors { floors.now ≡ map (floor_of (between closure.now) (length dates.now)) points.now }
    ensures { IfOk result (λ p. p.items ≡ map (built_at closure.now.extents dates.now (between closure.now)) (take boundaries points.now)) }
{
    let kept = count_below(alloc, closure, points, boundaries, floors)?;
    let below = kept.as_slice();
    let mut positions = Vec::with_capacity(alloc, boundaries)?;
    for n in 0..boundaries {
        positions.push(Position {
            instant: instant(dates, floors[n]),
            rank: below[n],
        })?;
    }
    Ok(positions)
}

/// Prepares the placings of a set of orders, which have no cycle, from their closure.
pub fn prepare(alloc: Global, set: &OrderSet, closure: &Closure) -> Result<Base, AllocError>
    requires closure { IsClosureOf set.now closure.now }
    requires consistent { ¬ HasCycle set.now.list }
    ensures { IfOk result (λ b. IsBaseOf set.now closure.now b.points.items b.floors.items b.positions.items) }
{
    set.conditions();
    let dates = set.dates().as_slice();
    let points = points(alloc, set.extents(), dates.len() as u32)?;
    let floors = floors(alloc, set, closure, &points)?;
    let boundaries = 2 * set.extents() as usize;
    let positions = plain_positions(alloc, dates, closure, &points, boundaries, &floors)?;
    Ok(Base {
        points,
        floors,
        positions,
    })
}

/// The delaying placing of x, from the row of what is known from x, and of the boundaries behind x the
/// counts of points between x and each.
pub fn delay_from(
    alloc: Global,
    set: &OrderSet,
    closure: &Closure,
    base: &Base,
    row: &[Reach],
    counts: &[u32],
    x: Point,
) -> Result<Placing, AllocError>
    requires base { IsBaseOf set.now closure.now base.now.points.items base.now.floors.items base.now.positions.items }
    requires in_range { IsPoint set.now.extents (length set.now.dates) x }
    requires row { row.now ≡ map (λ q. between closure.now x q) base.now.points.items }
    requires size { length counts.now ≡ length base.now.positions.items }
    requires behind { IsBehind (between closure.now) base.now.points.items row.now counts.now }
    requires few { (n : ℕ) → n < length counts.now → slice_index_or counts.now n 0 ≤ 2 ^ 26 }
    ensures { IfOk result (λ p. p ≡ delaying_placing set.now.list set.now.extents set.now.dates x) }
{
    set.conditions();
    let dates = set.dates().as_slice();
    let delay = delays(dates, closure, &base.points, &base.floors, row, x);
    let placed = positions(alloc, &delay, row, &base.floors, counts, &base.positions)?;
    Ok(Placing::from_vec(placed))
}
