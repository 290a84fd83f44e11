// The orders of statements.
ghost use Rattle.std.specs.Prelude.{◌≡◌, ◌++◌, ◌∷◌, [], false, map, OnOk};
ghost use Rattle.order_laws.specs.declared.Order.{Order};
ghost use Rattle.boundary_orders.specs.Orders.{order_by, rules_of};

use crm_properties::PropCode;
use order_core::{By, Order, OrderList, Point};
use std::alloc::AllocError;

fn push_order(
    list: &mut OrderList,
    triple: u32,
    low: Point,
    high: Point,
    strict: bool,
) -> Result<(), AllocError>
    ensures { OnOk result (list.new ≡ list.old ++ (record { low = low; high = high; strict = strict; by = By.Triple triple }) ∷ []) }
{
    list.push(Order {
        low,
        high,
        strict,
        by: By::Triple(triple),
    })
}

// Both start and end of the two extents are the same.
fn push_same(list: &mut OrderList, triple: u32, a: u32, b: u32) -> Result<(), AllocError>
    ensures { OnOk result (list.new ≡ list.old
        ++ (record { low = Point.Start a; high = Point.Start b; strict = false; by = By.Triple triple })
        ∷ (record { low = Point.Start b; high = Point.Start a; strict = false; by = By.Triple triple })
        ∷ (record { low = Point.End a; high = Point.End b; strict = false; by = By.Triple triple })
        ∷ (record { low = Point.End b; high = Point.End a; strict = false; by = By.Triple triple }) ∷ []) }
{
    push_order(list, triple, Point::Start(a), Point::Start(b), false)?;
    push_order(list, triple, Point::Start(b), Point::Start(a), false)?;
    push_order(list, triple, Point::End(a), Point::End(b), false)?;
    push_order(list, triple, Point::End(b), Point::End(a), false)
}

// The outer extent starts at or before the inner one and ends at or after it.
fn push_within(list: &mut OrderList, triple: u32, outer: u32, inner: u32) -> Result<(), AllocError>
    ensures { OnOk result (list.new ≡ list.old
        ++ (record { low = Point.Start outer; high = Point.Start inner; strict = false; by = By.Triple triple })
        ∷ (record { low = Point.End inner; high = Point.End outer; strict = false; by = By.Triple triple }) ∷ []) }
{
    push_order(
        list,
        triple,
        Point::Start(outer),
        Point::Start(inner),
        false,
    )?;
    push_order(list, triple, Point::End(inner), Point::End(outer), false)
}

/// Appends the orders of a statement with this property: `domain` is the number of the extent at its domain, and `range`
/// that of the extent at its range, or of the date.
#[tactic(auto, unfolding(crate::specs::Orders::rules))]
pub fn push_orders(
    list: &mut OrderList,
    triple: u32,
    code: PropCode,
    domain: u32,
    range: u32,
) -> Result<(), AllocError>
    ensures { OnOk result (list.new ≡ list.old ++ map (order_by triple domain range) (rules_of code)) }
{
    let start = Point::Start(domain);
    let end = Point::End(domain);
    match code.number() {
        0 => push_order(list, triple, start, Point::End(range), false),
        1 => push_order(list, triple, start, Point::End(range), true),
        2 => push_order(list, triple, start, Point::Start(range), false),
        3 => push_order(list, triple, start, Point::Start(range), true),
        4 | 17 => push_order(list, triple, end, Point::Start(range), false),
        5 => push_order(list, triple, end, Point::Start(range), true),
        6 => push_order(list, triple, end, Point::End(range), false),
        7 => push_order(list, triple, end, Point::End(range), true),
        8 | 9 | 19 => push_same(list, triple, domain, range),
        10 => push_within(list, triple, domain, range),
        11 | 12 => push_within(list, triple, range, domain),
        13 => push_order(list, triple, Point::Date(range), start, false),
        14 => push_order(list, triple, start, Point::Date(range), false),
        15 => push_order(list, triple, Point::Date(range), end, false),
        16 => push_order(list, triple, end, Point::Date(range), false),
        18 => push_order(list, triple, Point::End(range), start, false),
        _ => Ok(()),
    }
}
