// What a boundary delays, and where it puts the points.
ghost use Rattle.std.specs.Prelude.{◌≡◌, ℕ, ◌≤◌, ◌<◌, ◌+◌, ◌*◌, ◌^◌, IfOk, map, length, slice_index_or};
ghost use Rattle.order_laws.specs.Tables.{IsPoint, all_points, floor_of};
ghost use Rattle.order_closure.specs.Closures.{between};
ghost use Rattle.order_core.specs.Sets.{AreInstants};
ghost use Rattle.placing_witness.specs.Prepared.{IsDelay, delayed_position, delayed_positions};

use crate::floors::{delay, instant, is_known, is_strict};
use crate::ranks::{count_apart, count_level};
use order_closure::Closure;
use order_laws::{Point, Position, Reach};
use std::alloc::{AllocError, Global};

/// What a boundary x delays: the points that x reaches, up to a floor.
#[derive(Drop)]
pub struct Delay {
    /// The floor up to which they are delayed.
    pub floor: u32,
    /// Where the points stand that are level with x.
    pub level: Position,
    /// How many points are level with x.
    pub above: u32,
}

/// What x delays, from the row of what is known from x.
pub fn delays(
    dates: &[i128],
    closure: &Closure,
    points: &[Point],
    floors: &[u32],
    row: &[Reach],
    x: Point,
) -> Delay
    requires instants { AreInstants dates.now }
    requires dates { length dates.now ≡ closure.now.dates }
    requires few_dates { length dates.now ≤ 2 ^ 20 }
    requires few { length points.now ≤ 2 ^ 22 }
    requires in_range { IsPoint closure.now.extents closure.now.dates x }
    requires floors { floors.now ≡ map (floor_of (between closure.now) (length dates.now)) points.now }
    requires row { row.now ≡ map (λ q. between closure.now x q) points.now }
    ensures delay { IsDelay dates.now (between closure.now) points.now x result }
    ensures low { result.level.rank ≤ length points.now }
    ensures few { result.above ≤ length points.now }
{
    let _points = points;
    let floor = delay(closure, dates.len() as u32, x);
    let level = Position {
        instant: instant(dates, floor),
        rank: count_apart(row, floors, floor),
    };
    Delay {
        floor,
        level,
        above: count_level(row),
    }
}

// Where a point stands, from what is known of x to it, its floor, the count of points between x and it
// and its plain position.
fn position(delay: &Delay, reach: Reach, floor: u32, count: u32, plain: Position) -> Position
    requires little { count ≤ 2 ^ 26 }
    requires low { delay.now.level.rank ≤ 2 ^ 22 }
    requires few { delay.now.above ≤ 2 ^ 22 }
    ensures { result ≡ delayed_position delay.now reach floor count plain }
{
    if !is_known(reach) || floor > delay.floor {
        return plain;
    }
    if !is_strict(reach) {
        return delay.level;
    }
    Position {
        instant: delay.level.instant,
        rank: delay.level.rank + (delay.above + count),
    }
}

/// Where the boundaries stand.
pub fn positions(
    alloc: Global,
    delay: &Delay,
    row: &[Reach],
    floors: &[u32],
    counts: &[u32],
    plain: &[Position],
) -> Result<Vec<Position>, AllocError>
    requires row { length plain.now ≤ length row.now }
    requires floors { length plain.now ≤ length floors.now }
    requires counts { length plain.now ≤ length counts.now }
    requires little { (n : ℕ) → n < length counts.now → slice_index_or counts.now n 0 ≤ 2 ^ 26 }
    requires low { delay.now.level.rank ≤ 2 ^ 22 }
    requires few { delay.now.above ≤ 2 ^ 22 }
    ensures { IfOk result (λ p. p.items ≡ delayed_positions delay.now row.now floors.now counts.now plain.now (length plain.now)) }
{
    let mut positions = Vec::with_capacity(alloc, plain.len())?;
    for n in 0..plain.len() {
        positions.push(position(delay, row[n], floors[n], counts[n], plain[n]))?;
    }
    Ok(positions)
}
