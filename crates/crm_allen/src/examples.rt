// A placing that has a relation.
ghost use Rattle.std.specs.Prelude.{◌≡◌, ◌≢◌, ◌+◌, ◌<◌, ◌^◌, false, true, length, IfOk};
ghost use Rattle.order_laws.specs.Chains.{HasCycle};
ghost use Rattle.crm_allen.specs.Relations.{IsPossible, example_placing};
ghost use Rattle.crm_allen.specs.Relations as spec;

use crate::Allen;
use order_closure::Closure;
use order_core::{OrderList, OrderSet, Placing};
use order_extension::with_orders;
use order_laws::{By, Order, Point};
use placing_witness::plain;
use std::alloc::{AllocError, Global};

// An order that is assumed; what stands for its source is never read.
fn assumed(low: Point, high: Point, strict: bool) -> Order
    ensures { result ≡ spec.assumed low high strict }
{
    Order {
        low,
        high,
        strict,
        by: By::Dates,
    }
}

fn before(x: Point, y: Point) -> Order
    ensures { result ≡ spec.before x y }
{
    assumed(x, y, true)
}

fn not_after(x: Point, y: Point) -> Order
    ensures { result ≡ spec.assumed x y false }
{
    assumed(x, y, false)
}

fn before_orders(alloc: Global, a: u32, b: u32) -> Result<Vec<Order>, AllocError>
    ensures { IfOk result (λ orders. orders.items ≡ spec.before_orders a b) }
{
    Ok(vec![in alloc; before(Point::End(a), Point::Start(b))]?)
}

fn meets_orders(alloc: Global, a: u32, b: u32) -> Result<Vec<Order>, AllocError>
    ensures { IfOk result (λ orders. orders.items ≡ spec.meets_orders a b) }
{
    Ok(vec![in alloc;
        not_after(Point::End(a), Point::Start(b)),
        not_after(Point::Start(b), Point::End(a)),
    ]?)
}

fn overlaps_orders(alloc: Global, a: u32, b: u32) -> Result<Vec<Order>, AllocError>
    ensures { IfOk result (λ orders. orders.items ≡ spec.overlaps_orders a b) }
{
    Ok(vec![in alloc;
        before(Point::Start(a), Point::Start(b)),
        before(Point::Start(b), Point::End(a)),
        before(Point::End(a), Point::End(b)),
    ]?)
}

fn finished_orders(alloc: Global, a: u32, b: u32) -> Result<Vec<Order>, AllocError>
    ensures { IfOk result (λ orders. orders.items ≡ spec.finished_orders a b) }
{
    Ok(vec![in alloc;
        before(Point::Start(a), Point::Start(b)),
        not_after(Point::End(a), Point::End(b)),
        not_after(Point::End(b), Point::End(a)),
    ]?)
}

fn contains_orders(alloc: Global, a: u32, b: u32) -> Result<Vec<Order>, AllocError>
    ensures { IfOk result (λ orders. orders.items ≡ spec.contains_orders a b) }
{
    Ok(vec![in alloc;
        before(Point::Start(a), Point::Start(b)),
        before(Point::End(b), Point::End(a)),
    ]?)
}

fn starts_orders(alloc: Global, a: u32, b: u32) -> Result<Vec<Order>, AllocError>
    ensures { IfOk result (λ orders. orders.items ≡ spec.starts_orders a b) }
{
    Ok(vec![in alloc;
        not_after(Point::Start(a), Point::Start(b)),
        not_after(Point::Start(b), Point::Start(a)),
        before(Point::End(a), Point::End(b)),
    ]?)
}

fn equal_orders(alloc: Global, a: u32, b: u32) -> Result<Vec<Order>, AllocError>
    ensures { IfOk result (λ orders. orders.items ≡ spec.equal_orders a b) }
{
    Ok(vec![in alloc;
        not_after(Point::Start(a), Point::Start(b)),
        not_after(Point::Start(b), Point::Start(a)),
        not_after(Point::End(a), Point::End(b)),
        not_after(Point::End(b), Point::End(a)),
    ]?)
}

fn started_orders(alloc: Global, a: u32, b: u32) -> Result<Vec<Order>, AllocError>
    ensures { IfOk result (λ orders. orders.items ≡ spec.started_orders a b) }
{
    Ok(vec![in alloc;
        not_after(Point::Start(a), Point::Start(b)),
        not_after(Point::Start(b), Point::Start(a)),
        before(Point::End(b), Point::End(a)),
    ]?)
}

/// The orders that give the relation of extent a to extent b; a converse has those of its relation, with a and b
/// exchanged.
pub fn relation_orders(alloc: Global, r: Allen, a: u32, b: u32) -> Result<OrderList, AllocError>
    ensures { IfOk result (λ orders. orders ≡ spec.relation_orders r a b) }
{
    let orders = match r {
        Allen::Before => before_orders(alloc, a, b)?,
        Allen::Meets => meets_orders(alloc, a, b)?,
        Allen::Overlaps => overlaps_orders(alloc, a, b)?,
        Allen::Finished => finished_orders(alloc, a, b)?,
        Allen::Contains => contains_orders(alloc, a, b)?,
        Allen::Starts => starts_orders(alloc, a, b)?,
        Allen::Equal => equal_orders(alloc, a, b)?,
        Allen::Started => started_orders(alloc, a, b)?,
        Allen::During => contains_orders(alloc, b, a)?,
        Allen::Finishes => finished_orders(alloc, b, a)?,
        Allen::Overlapped => overlaps_orders(alloc, b, a)?,
        Allen::Met => meets_orders(alloc, b, a)?,
        Allen::After => before_orders(alloc, b, a)?,
    };
    Ok(OrderList::from_vec(orders))
}

/// For a relation that is possible: the plain placing of the set with the orders of the relation behind its own, so a
/// placing that satisfies all orders and has the relation.
pub fn example(
    alloc: Global,
    set: &OrderSet,
    a: u32,
    b: u32,
    r: Allen,
) -> Result<Placing, AllocError>
    requires few { length set.now.list + 4 < 2 ^ 32 }
    requires a_in_range { a < set.now.extents }
    requires b_in_range { b < set.now.extents }
    requires possible { IsPossible set.now a b r }
    ensures { IfOk result (λ p. p ≡ example_placing set.now a b r) }
{
    let more = relation_orders(alloc, r, a, b)?;
    let related = with_orders(alloc, set, more)?;
    let closure = Closure::build(alloc, &related)?;
    plain(alloc, &related, &closure)
}
