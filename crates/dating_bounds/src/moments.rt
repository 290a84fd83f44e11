// Whether an extent is under way at a date.
ghost use Rattle.std.specs.Prelude.{◌≡◌, ◌+◌, ◌<◌, ◌^◌, ◌++◌, pos, false, length, slice_index_or, IfOk};
ghost use Rattle.order_laws.specs.Chains.{HasCycle};
ghost use Rattle.order_laws.specs.Closure.{reach_between};
ghost use Rattle.order_closure.specs.Closures.{IsClosureOf};
ghost use Rattle.dating_bounds.specs.Moment as spec;
ghost use Rattle.dating_bounds.specs.Pushed.{inside_order};

use crate::pushes::Shares;
use order_closure::Closure;
use order_core::{By, Order, OrderSet, Placing, Point};
use std::alloc::{AllocError, Global};

/// Whether an extent is under way at an instant: in every placing that satisfies the orders, in none, or in one and not in
/// another.
#[derive(Drop)]
pub enum During {
    Surely,
    Never,
    Maybe { inside: Placing, outside: Placing },
}

fn is_surely(shares: &Shares, date: u32, k: u32) -> bool
    requires date { date < length shares.now.dates }
    requires extent { k < shares.now.extents }
    ensures { result ≡ spec.is_surely (reach_between shares.now.list) date k }
{
    shares.follows(Point::Start(k), Point::Date(date), false)
        && shares.follows(Point::Date(date), Point::End(k), true)
}

fn is_never(shares: &Shares, date: u32, k: u32) -> bool
    requires date { date < length shares.now.dates }
    requires extent { k < shares.now.extents }
    ensures { result ≡ spec.is_never (reach_between shares.now.list) date k }
{
    shares.follows(Point::Date(date), Point::Start(k), true)
        || shares.follows(Point::End(k), Point::Date(date), false)
}

fn order_to(k: u32, low: Point, high: Point, strict: bool) -> Order
    ensures { result ≡ spec.order_to k low high strict }
{
    Order {
        low,
        high,
        strict,
        by: By::Extent(k),
    }
}

// The order that puts an extent under way. An extent that starts at the date at the earliest ends after it in any case, and of
// one that may start earlier the plain placing has the start before the date.
fn inside_order(shares: &Shares, date: u32, k: u32) -> Order
    requires date { date < length shares.now.dates }
    requires extent { k < shares.now.extents }
    ensures { result ≡ inside_order (reach_between shares.now.list) date k }
{
    if shares.follows(Point::Date(date), Point::Start(k), false) {
        order_to(k, Point::Start(k), Point::Date(date), false)
    } else {
        order_to(k, Point::Date(date), Point::End(k), true)
    }
}

fn outside_order(shares: &Shares, date: u32, k: u32) -> Order
    requires date { date < length shares.now.dates }
    requires extent { k < shares.now.extents }
    ensures { result ≡ spec.outside_order (reach_between shares.now.list) date k }
{
    if shares.follows(Point::Start(k), Point::Date(date), false) {
        order_to(k, Point::End(k), Point::Date(date), false)
    } else {
        order_to(k, Point::Date(date), Point::Start(k), true)
    }
}

// The two placings of an extent that may be under way.
fn maybe(alloc: Global, shares: &Shares, date: u32, k: u32) -> Result<During, AllocError>
    requires date { date < length shares.now.dates }
    requires extent { k < shares.now.extents }
    requires unsure { spec.is_surely (reach_between shares.now.list) date k ≡ false }
    requires possible { spec.is_never (reach_between shares.now.list) date k ≡ false }
    ensures { IfOk result (λ d. d ≡ spec.maybe_of shares.now date k) }
{
    shares.conditions();
    let inside = shares.with_order(alloc, date, &inside_order(shares, date, k))?;
    let outside = shares.with_order(alloc, date, &outside_order(shares, date, k))?;
    Ok(During::Maybe { inside, outside })
}

/// Whether an extent is under way at a date of consistent orders, with the plain placing of the orders that has it so, and one
/// that has not, where both are there.
pub fn at_date(alloc: Global, shares: &Shares, date: u32, k: u32) -> Result<During, AllocError>
    requires date { date < length shares.now.dates }
    requires extent { k < shares.now.extents }
    ensures during { IfOk result (spec.IsDuring shares.now (slice_index_or shares.now.dates date (pos 0)) k) }
    ensures computed { IfOk result (λ d. d ≡ spec.during_of shares.now date k) }
{
    shares.conditions();
    if is_surely(shares, date, k) {
        return Ok(During::Surely);
    }
    if is_never(shares, date, k) {
        return Ok(During::Never);
    }
    maybe(alloc, shares, date, k)
}

/// The same from the orders and their closure, for a caller that asks of one extent.
pub fn at_instant(
    alloc: Global,
    set: &OrderSet,
    closure: &Closure,
    date: u32,
    k: u32,
) -> Result<During, AllocError>
    requires closure { IsClosureOf set.now closure.now }
    requires consistent { ¬ HasCycle set.now.list }
    requires date { date < length set.now.dates }
    requires extent { k < set.now.extents }
    ensures during { IfOk result (spec.IsDuring set.now (slice_index_or set.now.dates date (pos 0)) k) }
    ensures computed { IfOk result (λ d. d ≡ spec.during_of set.now date k) }
{
    let shares = Shares::build(alloc, set, closure)?;
    at_date(alloc, &shares, date, k)
}
