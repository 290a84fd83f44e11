// A walk in depth along orders, which keeps the components on its path.
//
// The points of the path between two starts lead to each other, and each leads to all behind it. Nothing rests on this:
// whoever takes the layers checks them.
ghost use Rattle.std.specs.Prelude.{◌≡◌, ◌<◌, ◌≤◌, ◌+◌, ◌-◌, length, IfOk, OnOk};
ghost use Rattle.std.specs.List.{All};
ghost use Rattle.order_closure.specs.Edges.{IsEdgesOf};
ghost use Rattle.chain_certificate.specs.Routes.{points_of};
ghost use Rattle.order_conflicts.specs.Walks.{IsWalk};

use order_closure::{EdgeWalk, Edges, point_at};
use order_core::OrderSet;
use std::alloc::{AllocError, Global};

/// How far the walk has come with a point.
#[derive(Clone, Copy, PartialEq, Eq)]
pub enum Mark {
    /// The walk has not met it.
    Unmet,
    /// It stands on the path, at this place.
    Open(usize),
    /// Its layer is known.
    Closed,
}

/// The state of a walk.
#[derive(Drop)]
pub struct Walk {
    /// How far the walk has come with each point.
    pub marks: Vec<Mark>,
    /// The orders that each point has yet to take.
    pub left: Vec<EdgeWalk>,
    /// The layer of each closed point.
    pub layers: Vec<u32>,
    /// How many layers are known.
    pub count: u32,
    /// The open points, as they were met.
    pub path: Vec<u32>,
    /// The open points that may have orders to take, as they were met.
    pub trail: Vec<u32>,
    /// The places of the path at which its components start, ascending.
    pub starts: Vec<usize>,
}

// Stands each point before its first order.
fn stand(alloc: Global, set: &OrderSet, edges: &Edges) -> Result<Vec<EdgeWalk>, AllocError>
    requires { IsEdgesOf set.now edges.now }
    ensures size { IfOk result (λ v. length v.items ≡ points_of set.now) }
    ensures within { IfOk result (λ v. All (λ at. at ≤ length set.now.list) v.items) }
{
    set.conditions();
    let extents = set.extents();
    let dates = set.dates().len() as u32;
    let mut left = Vec::new(alloc);
    for k in 0..2 * extents + dates {
        left.push(edges.at(point_at(extents, dates, k)))?;
    }
    Ok(left)
}

/// A walk that has met no point.
pub fn begin(alloc: Global, set: &OrderSet, edges: &Edges) -> Result<Walk, AllocError>
    requires { IsEdgesOf set.now edges.now }
    ensures { IfOk result (IsWalk (points_of set.now) (length set.now.list)) }
{
    let left = stand(alloc, set, edges)?;
    let points = left.len();
    let marks = vec![in alloc; Mark::Unmet; points]?;
    let layers = vec![in alloc; 0; points]?;
    Ok(Walk {
        marks,
        left,
        layers,
        count: 0,
        path: Vec::new(alloc),
        trail: Vec::new(alloc),
        starts: Vec::new(alloc),
    })
}

/// Goes on to a point, which is a component of its own as far as is known.
pub fn meet(points: u32, orders: u32, walk: &mut Walk, point: u32) -> Result<(), AllocError>
    requires walk { IsWalk points orders walk.old }
    requires point { point < points }
    ensures walk { OnOk result (IsWalk points orders walk.new) }
    ensures left { OnOk result (walk.new.left.items ≡ walk.old.left.items) }
    ensures trail { OnOk result (length walk.new.trail.items ≡ length walk.old.trail.items + 1) }
{
    let place = walk.path.len();
    walk.marks[point as usize] = Mark::Open(place);
    walk.path.push(point)?;
    walk.trail.push(point)?;
    walk.starts.push(place)?;
    Ok(())
}

/// Makes one component of those of the path from a place on.
pub fn join(starts: &mut Vec<usize>, place: usize) {
    while let Some(start) = starts.as_slice().last().copied() {
        if start <= place {
            break;
        }
        starts.pop();
    }
}

// Closes the last point of the path.
fn close_last(points: u32, orders: u32, walk: &mut Walk)
    requires { IsWalk points orders walk.old }
    ensures walk { IsWalk points orders walk.new }
    ensures left { walk.new.left.items ≡ walk.old.left.items }
    ensures trail { walk.new.trail.items ≡ walk.old.trail.items }
    ensures path { length walk.new.path.items ≡ length walk.old.path.items - 1 }
{
    if let Some(point) = walk.path.pop() {
        walk.marks[point as usize] = Mark::Closed;
        walk.layers[point as usize] = walk.count;
    }
}

// Closes the points of the path from a place on, as a layer.
fn close(points: u32, orders: u32, walk: &mut Walk, place: usize)
    requires { IsWalk points orders walk.old }
    ensures walk { IsWalk points orders walk.new }
    ensures left { walk.new.left.items ≡ walk.old.left.items }
    ensures trail { walk.new.trail.items ≡ walk.old.trail.items }
{
    while walk.path.len() > place {
        close_last(points, orders, walk);
    }
    walk.starts.pop();
    walk.count = walk.count.saturating_add(1);
}

// Whether the last component of the path starts at the point.
fn is_start(walk: &Walk, point: u32) -> Option<usize> {
    let start = walk.starts.as_slice().last().copied()?;
    let first = walk.path.as_slice().get(start).copied()?;
    if first == point { Some(start) } else { None }
}

/// Leaves the last point of the trail, which has no order to take.
pub fn leave(points: u32, orders: u32, walk: &mut Walk, point: u32)
    requires walk { IsWalk points orders walk.old }
    ensures walk { IsWalk points orders walk.new }
    ensures left { walk.new.left.items ≡ walk.old.left.items }
    ensures trail { length walk.new.trail.items ≡ length walk.old.trail.items - 1 }
{
    walk.trail.pop();
    if let Some(start) = is_start(walk, point) {
        close(points, orders, walk, start);
    }
}
