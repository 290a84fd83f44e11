// Layers of points such that no order leads to a greater one.
ghost use Rattle.std.specs.Prelude.{◌≡◌, ◌<◌, ◌≤◌, ◌+◌, ◌^◌, ℕ, true, false, length, slice_index_or, IfOk, OnOk};
ghost use Rattle.order_laws.specs.Tables.{IsPoint};
ghost use Rattle.order_laws.specs.Points.{number_of};
ghost use Rattle.order_closure.specs.Edges.{IsEdgesOf};
ghost use Rattle.chain_certificate.specs.Routes.{points_of};
ghost use Rattle.order_conflicts.specs.Paths.{AreLayers, low_of, high_of};
ghost use Rattle.order_conflicts.specs.Suspects.{is_made_by};
ghost use Rattle.order_conflicts.specs.Walks.{IsWalk, work_left};

use crate::leading::ends_of;
use crate::walking::{Mark, Walk, begin, join, leave, meet};
use order_closure::{Edges, Steps, number};
use order_core::OrderSet;
use order_laws::{By, Order};
use std::alloc::{AllocError, Global};
use std::sync::ledger::Ledger;

/// Whether the order comes from the triple.
pub fn is_made_by(order: Order, triple: u32) -> bool
    ensures { result ≡ is_made_by triple order }
{
    match order.by {
        By::Triple(t) => t == triple,
        By::Extent(_) => false,
        By::Dates => false,
    }
}

// Goes where an order of the last component of the path leads.
fn take_order(points: u32, orders: u32, walk: &mut Walk, high: u32) -> Result<(), AllocError>
    requires walk { IsWalk points orders walk.old }
    requires high { high < points }
    ensures walk { OnOk result (IsWalk points orders walk.new) }
    ensures left { OnOk result (walk.new.left.items ≡ walk.old.left.items) }
    ensures trail { OnOk result (length walk.new.trail.items ≤ length walk.old.trail.items + 1) }
{
    match walk.marks[high as usize] {
        Mark::Unmet => meet(points, orders, walk, high),
        Mark::Open(place) => {
            join(&mut walk.starts, place);
            Ok(())
        }
        Mark::Closed => Ok(()),
    }
}

// Takes the next order of the last point of the trail, or leaves the point.
fn go_on<L: Ledger>(
    set: &OrderSet,
    edges: &Edges,
    triple: u32,
    walk: &mut Walk,
    point: u32,
    steps: &mut Steps<L>,
) -> Result<(), AllocError>
    requires edges { IsEdgesOf set.now edges.now }
    requires walk { IsWalk (points_of set.now) (length set.now.list) walk.old }
    requires point { point < points_of set.now }
    requires trail { 0 < length walk.old.trail.items }
    ensures walk { OnOk result (IsWalk (points_of set.now) (length set.now.list) walk.new) }
    ensures less { OnOk result (work_left (length set.now.list) walk.new < work_left (length set.now.list) walk.old) }
{
    set.conditions();
    let extents = set.extents();
    let dates = set.dates().len() as u32;
    let points = 2 * extents + dates;
    let Some(n) = walk.left[point as usize].next(edges, steps) else {
        leave(points, set.len(), walk, point);
        return Ok(());
    };
    let order = set.orders().as_slice()[n as usize];
    if is_made_by(order, triple) {
        return Ok(());
    }
    take_order(points, set.len(), walk, number(extents, dates, order.high))
}

// Goes on until the trail is empty.
fn follow<L: Ledger>(
    set: &OrderSet,
    edges: &Edges,
    triple: u32,
    walk: &mut Walk,
    steps: &mut Steps<L>,
) -> Result<(), AllocError>
    requires edges { IsEdgesOf set.now edges.now }
    requires walk { IsWalk (points_of set.now) (length set.now.list) walk.old }
    ensures { OnOk result (IsWalk (points_of set.now) (length set.now.list) walk.new) }
{
    while let Some(point) = walk.trail.as_slice().last().copied() {
        go_on(set, edges, triple, walk, point, steps)?;
    }
    Ok(())
}

// The components of the points, numbered as the walk closes them.
fn components<L: Ledger>(
    alloc: Global,
    set: &OrderSet,
    edges: &Edges,
    triple: u32,
    steps: &mut Steps<L>,
) -> Result<Vec<u32>, AllocError>
    requires { IsEdgesOf set.now edges.now }
    ensures { IfOk result (λ v. length v.items ≡ points_of set.now) }
{
    set.conditions();
    let points = 2 * set.extents() + set.dates().len() as u32;
    let mut walk = begin(alloc, set, edges)?;
    for point in 0..points {
        if walk.marks[point as usize] == Mark::Unmet {
            meet(points, set.len(), &mut walk, point)?;
            follow(set, edges, triple, &mut walk, steps)?;
        }
    }
    Ok(walk.layers)
}

// Whether no order that the triple does not make leads to a greater layer.
fn are_layers(set: &OrderSet, layers: &[u32], triple: u32) -> bool
    requires { length layers.now ≡ points_of set.now }
    ensures { result ≡ true → AreLayers set.now triple (points_of set.now) layers.now }
{
    let orders = set.orders().as_slice();
    for n in 0..orders.len() {
        let ends = ends_of(set, n);
        if layers[ends.low as usize] < layers[ends.high as usize]
            && !is_made_by(orders[n], triple)
        {
            return false;
        }
    }
    true
}

/// Layers of the points, by number, such that no order that the triple does not make leads to a greater one. The points
/// of a layer are those that lead to each other, as far as the walk found them; where its layers would not do, all
/// points have one layer.
pub fn layers<L: Ledger>(
    alloc: Global,
    set: &OrderSet,
    edges: &Edges,
    triple: u32,
    steps: &mut Steps<L>,
) -> Result<Vec<u32>, AllocError>
    requires { IsEdgesOf set.now edges.now }
    ensures { IfOk result (λ v. AreLayers set.now triple (points_of set.now) v.items) }
{
    let found = components(alloc, set, edges, triple, steps)?;
    if are_layers(set, found.as_slice(), triple) {
        return Ok(found);
    }
    vec![in alloc; 0; found.len()]
}
