// The tree of a search: for each pair of a point and a flag, the node that reached it first.
ghost use Rattle.std.specs.Prelude.{◌≡◌, ℕ, ◌+◌, ◌*◌, ◌^◌, ◌<◌, ◌≤◌, ◌||◌, ◌↔◌, true, false, length, OnOk, IfOk};
ghost use Rattle.order_closure.specs.Search.{place};
ghost use Rattle.order_closure.specs.Edges.{IsEdgesOf};
ghost use Rattle.chain_certificate.specs.Counts.{leaves, steps_left};
ghost use Rattle.chain_certificate.specs.Routes.{points_of, links_of, IsReadable};
ghost use Rattle.chain_certificate.specs.Tree.{pair_of, pair_at, nodes_after, node_of_after, IsSearching, IsWhole, HasParents, chain_of};

use order_closure::{Edges, Steps, number, point_at};
use order_core::OrderSet;
use std::alloc::{AllocError, Global};
use std::sync::ledger::Ledger;

/// A pair that the search reached, by the node that it came from and the order that it took; the first
/// node is the source, with no order taken.
#[derive(Clone, Copy)]
pub struct Node {
    pub point: u32,
    pub strict: bool,
    pub parent: u32,
    pub order: u32,
}

// Keeps the node where its pair has none.
fn meet(nodes: &mut Vec<Node>, node_of: &mut [u32], node: Node) -> Result<(), AllocError>
    requires in_range { place (pair_of node) < length node_of.old }
    requires few { length nodes.old.items < 2 ^ 32 }
    ensures nodes { OnOk result (nodes.new.items ≡ nodes_after node_of.old nodes.old.items node) }
    ensures node_of { OnOk result (node_of.new ≡ node_of_after node_of.old nodes.old.items node) }
{
    let place = 2 * node.point as usize + node.strict as usize;
    if node_of[place] == 0 {
        let number = nodes.len() as u32;
        nodes.push(node)?;
        node_of[place] = number;
    }
    Ok(())
}

fn either(first: bool, second: bool) -> bool
    ensures { result ≡ (first || second) }
{
    first || second
}

// Takes each order that begins at the node's point.
fn take_orders<L: Ledger>(
    set: &OrderSet,
    edges: &Edges,
    source: u32,
    head: usize,
    nodes: &mut Vec<Node>,
    node_of: &mut [u32],
    steps: &mut Steps<L>,
) -> Result<(), AllocError>
    requires edges { IsEdgesOf set.now edges.now }
    requires head { head < length nodes.old.items }
    requires searching { IsSearching (points_of set.now) (links_of set.now) source nodes.old.items node_of.old head 0 }
    ensures searching { OnOk result (IsSearching (points_of set.now) (links_of set.now) source nodes.new.items node_of.new (head + 1) 0) }
    ensures left { OnOk result (steps_left edges.now.lows source nodes.new.items node_of.new (head + 1)
        ≡ steps_left edges.now.lows source nodes.old.items node_of.old (head + 1)) }
    ensures steps { OnOk result (steps.new ≡ steps.old + (leaves edges.now.lows (place (pair_at nodes.old.items head)) + 1)) }
    ensures cost { steps.new ≤ steps.old + (leaves edges.now.lows (place (pair_at nodes.old.items head)) + 1) }
{
    set.conditions();
    let extents = set.extents();
    let dates = set.dates().len() as u32;
    let from = nodes[head];
    let mut walk = edges.at(point_at(extents, dates, from.point));
    while let Some(n) = walk.next(edges, steps) {
        let order = set.orders().as_slice()[n as usize];
        let point = number(extents, dates, order.high);
        let strict = either(from.strict, order.strict);
        meet(
            nodes,
            node_of,
            Node {
                point,
                strict,
                parent: head as u32,
                order: n,
            },
        )?;
    }
    Ok(())
}

// Whether the pair of a later node is the source's own, which the first node has expanded.
fn is_again(node: Node, source: u32) -> bool
    ensures { (result ≡ true) ↔ (pair_of node ≡ record { point = source; strict = false }) }
{
    node.point == source && !node.strict
}

// Takes the orders of a later node, but not those of the source once more.
fn expand<L: Ledger>(
    set: &OrderSet,
    edges: &Edges,
    source: u32,
    head: usize,
    nodes: &mut Vec<Node>,
    node_of: &mut [u32],
    steps: &mut Steps<L>,
) -> Result<(), AllocError>
    requires edges { IsEdgesOf set.now edges.now }
    requires later { 0 < head }
    requires head { head < length nodes.old.items }
    requires searching { IsSearching (points_of set.now) (links_of set.now) source nodes.old.items node_of.old head 0 }
    ensures searching { OnOk result (IsSearching (points_of set.now) (links_of set.now) source nodes.new.items node_of.new (head + 1) 0) }
    ensures steps { OnOk result (steps.new + steps_left edges.now.lows source nodes.new.items node_of.new (head + 1)
        ≡ steps.old + steps_left edges.now.lows source nodes.old.items node_of.old head) }
    ensures cost { steps.new ≤ steps.old + steps_left edges.now.lows source nodes.old.items node_of.old head }
{
    if is_again(nodes[head], source) {
        return Ok(());
    }
    take_orders(set, edges, source, head, nodes, node_of, steps)
}

/// Searches from the source: the nodes, and for each pair the number of its first node, or 0.
pub fn search<L: Ledger>(
    alloc: Global,
    set: &OrderSet,
    edges: &Edges,
    source: u32,
    steps: &mut Steps<L>,
) -> Result<(Vec<Node>, Vec<u32>), AllocError>
    requires edges { IsEdgesOf set.now edges.now }
    requires in_range { source < points_of set.now }
    ensures whole { IfOk result (λ r. IsWhole (points_of set.now) (links_of set.now) source r.0.items r.1.items) }
    ensures readable { IfOk result (λ r. IsReadable (points_of set.now) r.0.items r.1.items) }
    ensures cost { steps.new ≤ steps.old + (2 * length set.now.list + 2 * points_of set.now) }
{
    set.conditions();
    let points = 2 * set.extents() as usize + set.dates().len();
    let mut kept = vec![in alloc; 0; 2 * points]?;
    let node_of = kept.as_mut_slice();
    let mut nodes = Vec::new(alloc);
    nodes.push(Node {
        point: source,
        strict: false,
        parent: 0,
        order: 0,
    })?;
    take_orders(set, edges, source, 0, &mut nodes, node_of, steps)?;
    let mut head = 1;
    while head < nodes.len() {
        expand(set, edges, source, head, &mut nodes, node_of, steps)?;
        head += 1;
    }
    Ok((nodes, kept))
}

/// The orders from the source to a node.
pub fn read_chain(alloc: Global, nodes: &[Node], node: u32) -> Result<Vec<u32>, AllocError>
    requires parents { HasParents nodes.now }
    requires in_range { node < length nodes.now }
    ensures { IfOk result (λ v. v.items ≡ chain_of nodes.now node) }
{
    let mut chain = Vec::new(alloc);
    let mut at = node;
    while at > 0 {
        let from = nodes[at as usize];
        chain.push(from.order)?;
        at = from.parent;
    }
    chain.reverse();
    Ok(chain)
}
