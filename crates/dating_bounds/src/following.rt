// What a closure says of two points.
ghost use Rattle.std.specs.Prelude.{◌≡◌};
ghost use Rattle.order_laws.specs.Tables.{IsPoint};
ghost use Rattle.order_closure.specs.Closures.{between};
ghost use Rattle.dating_bounds.specs.Moment.{is_enough};

use order_closure::{Closure, Reach};
use order_laws::Point;

/// Whether `x <= y` follows, or `x < y` where that is asked.
pub fn follows(closure: &Closure, x: Point, y: Point, strict: bool) -> bool
    requires x { IsPoint closure.now.extents closure.now.dates x }
    requires y { IsPoint closure.now.extents closure.now.dates y }
    ensures { result ≡ is_enough strict (between closure.now x y) }
{
    match closure.between(x, y) {
        Reach::None => false,
        Reach::Le => !strict,
        Reach::Lt => true,
    }
}
