// The relations that a closure leaves open.
ghost use Rattle.std.specs.Prelude.{◌≡◌, ◌<◌, ◌&&◌};
ghost use Rattle.order_laws.specs.Tables.{IsPoint};
ghost use Rattle.order_core.specs.Sets.{Orders};
ghost use Rattle.order_closure.specs.Closures.{IsClosureOf};
ghost use Rattle.crm_allen.specs.Possible.{may_be_at, may_be_before, possible_relations};

use crate::AllenSet;
use order_closure::{Closure, Reach};
use order_laws::Point;

/// Which comparisons of two boundaries are left open.
#[derive(Clone, Copy)]
struct Comparison {
    before: bool,
    at: bool,
    after: bool,
}

// What is left open between two points: to be before the other, unless the other is at or before it; to be at it,
// unless either is before the other.
fn compare(closure: &Closure, x: Point, y: Point) -> Comparison
    requires x_in_range { IsPoint closure.now.extents closure.now.dates x }
    requires y_in_range { IsPoint closure.now.extents closure.now.dates y }
    ensures before { (set : Orders) → IsClosureOf set closure.now → result.before ≡ may_be_before set.list x y }
    ensures at { (set : Orders) → IsClosureOf set closure.now → result.at ≡ may_be_at set.list x y }
    ensures after { (set : Orders) → IsClosureOf set closure.now → result.after ≡ may_be_before set.list y x }
{
    let there = closure.between(x, y);
    let back = closure.between(y, x);
    Comparison {
        before: back == Reach::None,
        at: there != Reach::Lt && back != Reach::Lt,
        after: there == Reach::None,
    }
}

fn both(first: bool, second: bool) -> bool
    ensures { result ≡ (first && second) }
{
    first && second
}

fn all_three(first: bool, second: bool, third: bool) -> bool
    ensures { result ≡ ((first && second) && third) }
{
    first && second && third
}

/// The relations of extent a to extent b that some placing has, for orders without a cycle.
///
/// A relation is possible as soon as each of its comparisons is: so what follows between the four boundaries decides.
pub fn possible(closure: &Closure, a: u32, b: u32) -> AllenSet
    requires a_in_range { a < closure.now.extents }
    requires b_in_range { b < closure.now.extents }
    ensures { (set : Orders) → IsClosureOf set closure.now → result ≡ possible_relations set.list a b }
{
    let start_end = compare(closure, Point::Start(a), Point::End(b));
    let start_start = compare(closure, Point::Start(a), Point::Start(b));
    let end_start = compare(closure, Point::End(a), Point::Start(b));
    let end_end = compare(closure, Point::End(a), Point::End(b));
    let overlaps = all_three(start_start.before, end_start.after, end_end.before);
    let finished = both(start_start.before, end_end.at);
    let contains = both(start_start.before, end_end.after);
    let starts = both(start_start.at, end_end.before);
    let equal = both(start_start.at, end_end.at);
    let started = both(start_start.at, end_end.after);
    let during = both(start_start.after, end_end.before);
    let finishes = both(start_start.after, end_end.at);
    let overlapped = all_three(start_start.after, start_end.before, end_end.after);
    AllenSet {
        before: end_start.before,
        meets: end_start.at,
        overlaps,
        finished,
        contains,
        starts,
        equal,
        started,
        during,
        finishes,
        overlapped,
        met: start_end.at,
        after: start_end.after,
    }
}
