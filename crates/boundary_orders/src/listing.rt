// The orders of statements, by the numbers of extents and dates.
ghost use Rattle.std.specs.Prelude.{◌≡◌, ◌≤◌, ◌++◌, true, length, IfOk, OnOk};
ghost use Rattle.std.specs.List.{All};
ghost use Rattle.std.specs.List.Sorted.{IsStrictlySortedBy};
ghost use Rattle.std.specs.Ordering.{int_cmp};
ghost use Rattle.boundary_orders.specs.Orders as spec;
ghost use Rattle.boundary_orders.specs.Orders.{AreNumbered, instant_of, dates_of, is_numbered, is_held, orders_by, statement_orders};

use crate::dates::{date_in, date_number};
use crate::extents::ExtentTable;
use crate::orders::push_orders;
use crate::statements::{Statement, StatementList, is_date};
use order_core::OrderList;
use rdf_terms::{Names, Term};
use std::alloc::{AllocError, Global};

fn extent_number(extents: &ExtentTable, node: Term) -> u32
    requires few { length extents.now.entries ≤ 2048 }
    requires numbered { is_numbered extents.now.entries node ≡ true }
    ensures { result ≡ spec.extent_number extents.now.entries node }
{
    match extents.get_index_of(&node) {
        Some(k) => k as u32,
        None => unreachable!(),
    }
}

// The number of the extent at the range, or of the date, where it can be read.
fn range_number(
    names: &Names,
    extents: &ExtentTable,
    dates: &[i128],
    statement: &Statement,
) -> Option<u32>
    requires few { length extents.now.entries ≤ 2048 }
    requires ascending { IsStrictlySortedBy int_cmp dates.now }
    requires few_dates { length dates.now ≤ 2048 }
    requires numbered { AreNumbered extents.now.entries statement.now }
    requires held { is_held dates.now (instant_of names.now statement.now) ≡ true }
    ensures { result ≡ spec.range_number names.now extents.now.entries dates.now statement.now }
{
    if !is_date(statement.code) {
        return Some(extent_number(extents, statement.range));
    }
    match date_in(names, statement) {
        Some(date) => Some(date_number(dates, &date)),
        None => None,
    }
}

/// Appends the orders of a statement, by the tables of extents and of dates.
pub fn list_statement(
    list: &mut OrderList,
    names: &Names,
    extents: &ExtentTable,
    dates: &[i128],
    statement: &(u32, Statement),
) -> Result<(), AllocError>
    requires few { length extents.now.entries ≤ 2048 }
    requires ascending { IsStrictlySortedBy int_cmp dates.now }
    requires few_dates { length dates.now ≤ 2048 }
    requires numbered { AreNumbered extents.now.entries statement.now.1 }
    requires held { is_held dates.now (instant_of names.now statement.now.1) ≡ true }
    ensures { OnOk result (list.new ≡ list.old ++ orders_by names.now extents.now.entries dates.now statement.now) }
{
    let domain = extent_number(extents, statement.1.domain);
    match range_number(names, extents, dates, &statement.1) {
        Some(range) => push_orders(list, statement.0, statement.1.code, domain, range),
        None => Ok(()),
    }
}

/// The orders of the statements, whose ends are extents and whose dates are these.
pub fn list_orders(
    alloc: Global,
    names: &Names,
    extents: &ExtentTable,
    dates: &[i128],
    statements: &StatementList,
) -> Result<OrderList, AllocError>
    requires few { length extents.now.entries ≤ 2048 }
    requires ascending { IsStrictlySortedBy int_cmp dates.now }
    requires few_dates { length dates.now ≤ 2048 }
    requires numbered { All (λ s. AreNumbered extents.now.entries s.1) statements.now }
    requires dates { dates.now ≡ dates_of names.now statements.now }
    ensures { IfOk result (λ list. list ≡ statement_orders names.now extents.now.entries dates.now statements.now) }
{
    let mut list = OrderList::new(alloc);
    for statement in statements.as_slice() {
        list_statement(&mut list, names, extents, dates, statement)?;
    }
    Ok(list)
}
