// Sets of orders from the orders of statements, and tests of what they ask for.
ghost use Rattle.std.specs.Prelude.{◌≡◌, ℕ, ◌+◌, ◌-◌, ◌<◌, ◌≤◌, ◌^◌, ◌↔◌, ◌++◌, length, true, IfOk, OnOk};
ghost use Rattle.order_laws.specs.Tables.{IsPoint};
ghost use Rattle.order_core.specs.Sets.{AreInRange, AreAscending, AreInstants, completed, extent_orders, date_orders};

use crate::{Dates, OrderList, OrderSet};
use order_laws::{By, Order, Point};
use std::alloc::AllocError;

fn push_extent_orders(extents: u32, list: &mut OrderList) -> Result<(), AllocError>
    ensures { OnOk result (list.new ≡ list.old ++ extent_orders extents) }
{
    for k in 0..extents {
        list.push(Order {
            low: Point::Start(k),
            high: Point::End(k),
            strict: true,
            by: By::Extent(k),
        })?;
    }
    Ok(())
}

fn push_date_orders(pairs: u32, list: &mut OrderList) -> Result<(), AllocError>
    requires { pairs < 2 ^ 20 }
    ensures { OnOk result (list.new ≡ list.old ++ date_orders pairs) }
{
    for k in 0..pairs {
        list.push(Order {
            low: Point::Date(k),
            high: Point::Date(k + 1),
            strict: true,
            by: By::Dates,
        })?;
    }
    Ok(())
}

/// The set of the orders of statements: each extent's start before its end, and each date before the
/// next one, are put behind them.
pub fn completed_set(
    extents: u32,
    dates: Dates,
    statements: OrderList,
) -> Result<OrderSet, AllocError>
    requires few_extents { extents ≤ 2 ^ 20 }
    requires few_dates { length dates ≤ 2 ^ 20 }
    requires few_orders { length statements + extents + length dates < 2 ^ 32 }
    requires instants { AreInstants dates }
    requires ascending { AreAscending dates }
    requires in_range { AreInRange extents (length dates) statements }
    ensures { IfOk result (λ s. s ≡ record { extents = extents; dates = dates; list = completed extents (length dates) statements }) }
{
    let mut list = statements;
    push_extent_orders(extents, &mut list)?;
    push_date_orders((dates.len() as u32).saturating_sub(1), &mut list)?;
    Ok(OrderSet::new(extents, dates, list))
}

/// Whether the point is one of so many extents or dates.
pub fn is_in_range(extents: u32, dates: u32, point: Point) -> bool
    ensures { (result ≡ true) ↔ IsPoint extents dates point }
{
    match point {
        Point::Start(k) => k < extents,
        Point::End(k) => k < extents,
        Point::Date(k) => k < dates,
    }
}

/// Whether both points of each order are in range.
pub fn are_in_range(extents: u32, dates: u32, list: &[Order]) -> bool
    ensures { (result ≡ true) ↔ AreInRange extents dates list.now }
{
    for n in 0..list.len() {
        let order = list[n];
        if !is_in_range(extents, dates, order.low) || !is_in_range(extents, dates, order.high) {
            return false;
        }
    }
    true
}

/// Whether each date is before the next one.
pub fn are_ascending(dates: &[i128]) -> bool
    ensures { (result ≡ true) ↔ AreAscending dates.now }
{
    for k in 1..dates.len() {
        if dates[k - 1] >= dates[k] {
            return false;
        }
    }
    true
}

/// Whether each date lies strictly between -2^100 and 2^100.
pub fn are_instants(dates: &[i128]) -> bool
    ensures { (result ≡ true) ↔ AreInstants dates.now }
{
    for k in 0..dates.len() {
        if dates[k] <= -(1 << 100) || dates[k] >= 1 << 100 {
            return false;
        }
    }
    true
}
