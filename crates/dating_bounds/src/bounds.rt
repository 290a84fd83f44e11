// The dates that bound a boundary.
ghost use Rattle.std.specs.Prelude.{◌≡◌, ◌≤◌, ◌<◌, length};
ghost use Rattle.order_laws.specs.Chains.{HasCycle};
ghost use Rattle.order_laws.specs.Tables.{IsPoint, floor_of, is_strict};
ghost use Rattle.order_closure.specs.Closures.{IsClosureOf, between};
ghost use Rattle.dating_bounds.specs.Around.{IsBoundary, IsBoundOf, ceiling_of, low_at, high_at, bound_in, bound_of};

use crate::extremes::{Bound, DateBound};
use crate::following::follows;
use order_closure::Closure;
use order_core::OrderSet;
use order_laws::Point;

// How many dates are known to be at or before p. They are the first dates, so they are searched by halves.
fn floor(set: &OrderSet, closure: &Closure, p: Point) -> u32
    requires closure { IsClosureOf set.now closure.now }
    requires consistent { ¬ HasCycle set.now.list }
    requires in_range { IsPoint set.now.extents (length set.now.dates) p }
    ensures value { result ≡ floor_of (between closure.now) (length set.now.dates) p }
    ensures within { result ≤ length set.now.dates }
{
    set.conditions();
    let mut low = 0;
    let mut high = set.dates().len() as u32;
    while low < high {
        let middle = low + (high - low) / 2;
        if follows(closure, Point::Date(middle), p, false) {
            low = middle + 1;
        } else {
            high = middle;
        }
    }
    low
}

// How many dates p is not known to be at or before. They are the first dates.
fn ceiling(set: &OrderSet, closure: &Closure, p: Point) -> u32
    requires closure { IsClosureOf set.now closure.now }
    requires consistent { ¬ HasCycle set.now.list }
    requires in_range { IsPoint set.now.extents (length set.now.dates) p }
    ensures value { result ≡ ceiling_of (between closure.now) (length set.now.dates) p }
    ensures within { result ≤ length set.now.dates }
{
    set.conditions();
    let mut low = 0;
    let mut high = set.dates().len() as u32;
    while low < high {
        let middle = low + (high - low) / 2;
        if follows(closure, p, Point::Date(middle), false) {
            high = middle;
        } else {
            low = middle + 1;
        }
    }
    low
}

// The last of the dates below a floor.
fn low_bound(closure: &Closure, p: Point, floor: u32) -> Option<DateBound>
    requires floor { floor ≤ closure.now.dates }
    requires in_range { IsPoint closure.now.extents closure.now.dates p }
    ensures { result ≡ low_at (between closure.now) p floor }
{
    if floor == 0 {
        return None;
    }
    let date = floor - 1;
    let strict = follows(closure, Point::Date(date), p, true);
    Some(DateBound { date, strict })
}

// The first of the dates from a ceiling on.
fn high_bound(closure: &Closure, dates: u32, p: Point, ceiling: u32) -> Option<DateBound>
    requires dates { dates ≡ closure.now.dates }
    requires in_range { IsPoint closure.now.extents closure.now.dates p }
    ensures { result ≡ high_at (between closure.now) dates p ceiling }
{
    if ceiling >= dates {
        return None;
    }
    let strict = follows(closure, p, Point::Date(ceiling), true);
    Some(DateBound {
        date: ceiling,
        strict,
    })
}

/// The bounds of a boundary of consistent orders, from their closure: the last date that is at or before it in every
/// placing that satisfies the orders, and the first date that is at or after it in every one. None where no date is so.
///
/// It takes some twenty look-ups in the closure, and no memory.
pub fn bound(set: &OrderSet, closure: &Closure, p: Point) -> Bound
    requires closure { IsClosureOf set.now closure.now }
    requires consistent { ¬ HasCycle set.now.list }
    requires boundary { IsBoundary set.now.extents p }
    ensures bound { IsBoundOf set.now p result }
    ensures computed { result ≡ bound_of set.now p }
{
    let dates = set.dates().len() as u32;
    Bound {
        low: low_bound(closure, p, floor(set, closure, p)),
        high: high_bound(closure, dates, p, ceiling(set, closure, p)),
    }
}
