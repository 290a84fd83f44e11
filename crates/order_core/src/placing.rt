// Placings of boundaries, and the orders that they satisfy.
ghost use Rattle.std.specs.Prelude.{◌≡◌, ℕ, ◌+◌, ◌*◌, ◌<◌, ◌↔◌, length, true};
ghost use Rattle.order_laws.specs.Chains.{order_at};
ghost use Rattle.order_laws.specs.Placings.{position_at};
ghost use Rattle.order_laws.specs.Positions.{Stand};
ghost use Rattle.order_laws.specs.Tables.{IsPoint};

use crate::{OrderSet, Placing};
use order_laws::{Point, Position};

// Whether `p` is at or before `q`, or before it where `strict` is set.
fn stands(strict: bool, p: Position, q: Position) -> bool
    ensures { (result ≡ true) ↔ Stand strict p q }
{
    p.instant < q.instant
        || (p.instant == q.instant && (p.rank < q.rank || (!strict && p.rank == q.rank)))
}

// Where the point stands: a boundary by the placing, a date at its instant with rank 0.
fn position(dates: &[i128], placing: &[Position], point: Point) -> Position
    requires in_range { (extents : ℕ) × ((length placing.now ≡ 2 * extents) × IsPoint extents (length dates.now) point) }
    ensures { result ≡ position_at dates.now placing.now point }
{
    match point {
        Point::Start(k) => placing[2 * k as usize],
        Point::End(k) => placing[2 * k as usize + 1],
        Point::Date(k) => Position {
            instant: dates[k as usize],
            rank: 0,
        },
    }
}

/// Whether the placing satisfies order `n` of the set.
pub fn holds_at(set: &OrderSet, n: u32, placing: &Placing) -> bool
    requires number { n < length set.now.list }
    requires size { length placing.now ≡ 2 * set.now.extents }
    ensures { (result ≡ true) ↔ Stand (order_at set.now.list n).strict
        (position_at set.now.dates placing.now (order_at set.now.list n).low)
        (position_at set.now.dates placing.now (order_at set.now.list n).high) }
{
    set.conditions();
    let order = set.orders().as_slice()[n as usize];
    let dates = set.dates().as_slice();
    let low = position(dates, placing.as_slice(), order.low);
    let high = position(dates, placing.as_slice(), order.high);
    stands(order.strict, low, high)
}
