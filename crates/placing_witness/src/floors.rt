// Floors of points: the last date that is known to be at or before each.
ghost use Rattle.std.specs.Prelude.{◌≡◌, ◌≤◌, ◌^◌, IfOk, map, length};
ghost use Rattle.order_laws.specs.Tables.{IsPoint, all_points, floor_of, floor_instant, is_known, is_strict};
ghost use Rattle.order_closure.specs.Closures.{IsClosureOf, between};
ghost use Rattle.order_core.specs.Sets.{AreInstants};
ghost use Rattle.placing_witness.specs.Delays.{delay_of};

use crate::tallies::raise;
use order_closure::Closure;
use order_core::OrderSet;
use order_laws::{Point, Reach};
use std::alloc::{AllocError, Global};

/// Whether something is known.
pub fn is_known(reach: Reach) -> bool
    ensures { result ≡ is_known reach }
{
    match reach {
        Reach::None => false,
        Reach::Le | Reach::Lt => true,
    }
}

/// Whether it is known strictly.
pub fn is_strict(reach: Reach) -> bool
    ensures { result ≡ is_strict reach }
{
    match reach {
        Reach::Lt => true,
        Reach::Le | Reach::None => false,
    }
}

/// The floors of all points: one more than the number of the last date that is known to be at or before
/// each; 0 where none is.
pub fn floors(
    alloc: Global,
    set: &OrderSet,
    closure: &Closure,
    points: &[Point],
) -> Result<Vec<u32>, AllocError>
    requires closure { IsClosureOf set.now closure.now }
    requires points { points.now ≡ all_points closure.now.extents closure.now.dates }
    ensures { IfOk result (λ floors. floors.items ≡ map (floor_of (between closure.now) (length set.now.dates)) points.now) }
{
    set.conditions();
    let dates = set.dates().len() as u32;
    let mut kept = vec![in alloc; 0; points.len()]?;
    let floors = kept.as_mut_slice();
    for k in 0..dates {
        raise(floors, closure.le_row(Point::Date(k)), k + 1);
    }
    Ok(kept)
}

/// The floor up to which x delays what it reaches: one more than the number of the last date that x is
/// not known to be before; 0 where there is none.
pub fn delay(closure: &Closure, dates: u32, x: Point) -> u32
    requires dates { dates ≡ closure.now.dates }
    requires in_range { IsPoint closure.now.extents closure.now.dates x }
    ensures value { result ≡ delay_of (between closure.now) dates x }
    ensures bound { result ≤ dates }
{
    let mut delay = 0;
    for k in 0..dates {
        if !is_strict(closure.between(x, Point::Date(k))) {
            delay = k + 1;
        }
    }
    delay
}

/// The instant of a floor: that of its date, and below all dates one nanosecond before the first, or 0
/// where there are none.
pub fn instant(dates: &[i128], floor: u32) -> i128
    requires floor { floor ≤ length dates.now }
    requires instants { AreInstants dates.now }
    ensures { result ≡ floor_instant dates.now floor }
{
    if floor > 0 {
        dates[floor as usize - 1]
    } else if dates.is_empty() {
        0
    } else {
        dates[0] - 1
    }
}
