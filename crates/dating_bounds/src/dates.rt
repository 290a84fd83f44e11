// Sets of orders with a further date.
ghost use Rattle.std.specs.Prelude.{◌≡◌, ℕ, pos, false, ◌+◌, ◌-◌, ◌<◌, ◌≤◌, ◌^◌, ◌<ℤ◌, ◌-ℤ◌, ◌∷◌, ◌++◌, length, map, take, drop, IfOk, OnOk};
ghost use Rattle.order_laws.specs.Chains.{order_at};
ghost use Rattle.order_laws.specs.Tables.{IsPoint};
ghost use Rattle.dating_bounds.specs.Dated.{place_of, is_dated, moved, renamed, date_order, neighbour_orders, inserted, dated};

use order_core::{By, Dates, Order, OrderList, OrderSet, Point};
use order_extension::with_orders;
use std::alloc::{AllocError, Global};

/// The number of the first date that is not before the instant, or the count of dates: the number of the instant in the
/// set that [`with_date`] gives.
pub fn date_place(dates: &[i128], t: i128) -> usize
    ensures value { result ≡ place_of dates.now t }
    ensures within { result ≤ length dates.now }
{
    for k in 0..dates.len() {
        if t <= dates[k] {
            return k;
        }
    }
    dates.len()
}

// Whether the instant is the date at its place.
fn is_date(dates: &[i128], place: usize, t: i128) -> bool
    requires { place ≡ place_of dates.now t }
    ensures { result ≡ is_dated dates.now t }
{
    place < dates.len() && dates[place] <= t
}

fn with_place(alloc: Global, dates: &[i128], place: usize, t: i128) -> Result<Vec<i128>, AllocError>
    requires { place ≤ length dates.now }
    ensures { IfOk result (λ v. v.items ≡ take place dates.now ++ t ∷ drop place dates.now) }
{
    let mut list = Vec::from_slice(alloc, &dates[..place])?;
    list.push(t)?;
    list.extend_from_slice(&dates[place..])?;
    Ok(list)
}

fn moved(set: &OrderSet, place: u32, point: Point) -> Point
    requires { IsPoint set.now.extents (length set.now.dates) point }
    ensures { result ≡ moved place point }
{
    set.conditions();
    match point {
        Point::Date(k) => Point::Date(if k < place { k } else { k + 1 }),
        Point::Start(_) | Point::End(_) => point,
    }
}

// The order of a number, with the dates by their new numbers.
fn renamed(set: &OrderSet, place: u32, n: usize) -> Order
    requires { n < length set.now.list }
    ensures { result ≡ renamed place (order_at set.now.list n) }
{
    set.conditions();
    let order = set.orders().as_slice()[n];
    Order {
        low: moved(set, place, order.low),
        high: moved(set, place, order.high),
        strict: order.strict,
        by: order.by,
    }
}

fn renamed_orders(alloc: Global, set: &OrderSet, place: u32) -> Result<Vec<Order>, AllocError>
    ensures { IfOk result (λ v. v.items ≡ map (renamed place) set.now.list) }
{
    let count = set.orders().len();
    let mut list = Vec::with_capacity(alloc, count)?;
    for n in 0..count {
        list.push(renamed(set, place, n))?;
    }
    Ok(list)
}

// Appends that the new date is behind the date before it, and before the one behind it.
fn push_neighbours(place: u32, count: u32, list: &mut Vec<Order>) -> Result<(), AllocError>
    requires place { place ≤ count }
    requires few { count < 2 ^ 20 }
    ensures { OnOk result (list.new.items ≡ list.old.items ++ neighbour_orders place count) }
{
    if place > 0 {
        list.push(date_order(place - 1, place))?;
    }
    if place < count {
        list.push(date_order(place, place + 1))?;
    }
    Ok(())
}

fn date_order(j: u32, k: u32) -> Order
    ensures { result ≡ date_order j k }
{
    Order {
        low: Point::Date(j),
        high: Point::Date(k),
        strict: true,
        by: By::Dates,
    }
}

// The set with a new date at its place.
fn with_new_date(
    alloc: Global,
    set: &OrderSet,
    place: usize,
    t: i128,
) -> Result<OrderSet, AllocError>
    requires place { place ≡ place_of set.now.dates t }
    requires new { is_dated set.now.dates t ≡ false }
    requires few_dates { length set.now.dates < 2 ^ 20 }
    requires few_orders { length set.now.list + 2 < 2 ^ 32 }
    requires after { (pos 0 -ℤ pos (2 ^ 100)) <ℤ t }
    requires before { t <ℤ pos (2 ^ 100) }
    ensures { IfOk result (λ s. s ≡ inserted set.now (place_of set.now.dates t) t) }
{
    set.conditions();
    let count = set.dates().len() as u32;
    let dates = with_place(alloc, set.dates().as_slice(), place, t)?;
    let mut list = renamed_orders(alloc, set, place as u32)?;
    push_neighbours(place as u32, count, &mut list)?;
    Ok(OrderSet::new(
        set.extents(),
        Dates::from_vec(dates),
        OrderList::from_vec(list),
    ))
}

/// The set with an instant among its dates. Each order keeps its number, and names its dates by their new numbers. Behind
/// them the orders of the new date and its two neighbours are appended. A set that has the instant already is copied.
pub fn with_date(alloc: Global, set: &OrderSet, t: i128) -> Result<OrderSet, AllocError>
    requires few_dates { length set.now.dates < 2 ^ 20 }
    requires few_orders { length set.now.list + 2 < 2 ^ 32 }
    requires after { (pos 0 -ℤ pos (2 ^ 100)) <ℤ t }
    requires before { t <ℤ pos (2 ^ 100) }
    ensures { IfOk result (λ s. s ≡ dated set.now t) }
{
    let dates = set.dates().as_slice();
    let place = date_place(dates, t);
    if is_date(dates, place, t) {
        with_orders(alloc, set, OrderList::new(alloc))
    } else {
        with_new_date(alloc, set, place, t)
    }
}
