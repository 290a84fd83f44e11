// The chains from one boundary, with what `let` lines keep of them: each is proved once, by the node at which it ends.
ghost use Rattle.std.specs.Prelude.{◌≡◌, ◌++◌, ◌<◌, OnOk, IfOk, IfSome, IfNone, length, replicate};
ghost use Rattle.order_laws.specs.Tables.{IsPoint};
ghost use Rattle.chain_certificate.specs.Tree.{node_at, chain_of};
ghost use Rattle.order_certificates.specs.Sharing.{LetSteps, chain_part, chain_lets, chain_lines};
ghost use Rattle.order_certificates.specs.Keeping.{IsKept, AreKept, IsSharing, IsClimbed};

use crate::sharing::{Lets, Part, Step};
use chain_certificate::Routes;
use order_analysis::Analysis;
use order_core::Point;
use std::alloc::{AllocError, Global};

/// The chains from one boundary, and by the node at which each ends, what `let` lines keep of it.
///
/// Without the table each chain would be read and looked up from its first order on, also where its front has all its
/// lines already.
#[derive(Drop)]
pub(crate) struct SharedRoutes {
    pub routes: Routes,
    pub parts: Vec<Option<Part>>,
}

// A table in which nothing is kept.
fn no_parts(alloc: Global, count: usize) -> Result<Vec<Option<Part>>, AllocError>
    ensures { IfOk result (λ v. v.items ≡ replicate count None) }
{
    vec![in alloc; None; count]
}

/// The chains from a boundary, of which nothing is kept.
pub(crate) fn build_shared(analysis: &Analysis, source: Point) -> Result<SharedRoutes, AllocError>
    requires { IsPoint analysis.now.set.extents (length analysis.now.set.dates) source }
    ensures { IfOk result (λ r. (lets : LetSteps) → IsSharing analysis.now.set source lets r) }
{
    let routes = analysis.routes(source)?;
    let parts = no_parts(analysis.alloc(), routes.node_count())?;
    Ok(SharedRoutes { routes, parts })
}

// What proves the chain of a node with no line more: its part, where it is kept, or its only order.
fn part_at(routes: &Routes, parts: &[Option<Part>], at: u32) -> Option<Part>
    requires some { 0 < at }
    requires within { at < length routes.now.nodes }
    requires size { length parts.now ≡ length routes.now.nodes }
    ensures some { IfSome result (λ p. (lets : LetSteps) → AreKept lets routes.now.nodes parts.now → IsKept lets (chain_of routes.now.nodes at) p) }
    ensures none { IfNone result (0 < (node_at routes.now.nodes at).parent) }
{
    if let Some(part) = parts[at as usize] {
        return Some(part);
    }
    let last = routes.last_step(at);
    if last.before == 0 {
        return Some(Part::Order(last.order));
    }
    None
}

// The nearest part on the way up from a node, and the nodes below it, from the node on.
fn climb(
    alloc: Global,
    routes: &Routes,
    parts: &[Option<Part>],
    node: u32,
) -> Result<(Part, Vec<u32>), AllocError>
    requires some { 0 < node }
    requires within { node < length routes.now.nodes }
    requires size { length parts.now ≡ length routes.now.nodes }
    ensures { IfOk result (λ r. IsClimbed routes.now.nodes parts.now node r.0 r.1.items) }
{
    let mut passed = Vec::new(alloc);
    let mut at = node;
    'up: loop {
        match part_at(routes, parts, at) {
            Some(front) => return Ok((front, passed)),
            None => {
                passed.push(at)?;
                let last = routes.last_step(at);
                at = last.before;
            }
        }
    }
}

/// Appends the `let` lines that the chain of a node still lacks, in as many steps as there are of these and one more,
/// and answers the proof of the chain.
pub(crate) fn share_node(
    alloc: Global,
    routes: &Routes,
    parts: &mut Vec<Option<Part>>,
    node: u32,
    lets: &mut Lets,
    line: &mut Vec<u8>,
) -> Result<Part, AllocError>
    requires within { node < length routes.now.nodes }
    requires kept { AreKept lets.old routes.now.nodes parts.old.items }
    ensures kept { OnOk result (AreKept lets.new routes.now.nodes parts.new.items) }
    ensures part { IfOk result (λ p. p ≡ chain_part lets.old (chain_of routes.now.nodes node)) }
    ensures lets { OnOk result (lets.new ≡ chain_lets lets.old (chain_of routes.now.nodes node)) }
    ensures line { OnOk result (line.new.items ≡ line.old.items ++ chain_lines lets.old (chain_of routes.now.nodes node)) }
{
    if node == 0 {
        return Ok(Part::Order(0));
    }
    let (front, mut passed) = climb(alloc, routes, parts, node)?;
    let mut part = front;
    'down: while let Some(next) = passed.pop() {
        let last = routes.last_step(next);
        let step = Step {
            front: part,
            order: last.order,
        };
        part = lets.keep(step, line)?;
        parts[next as usize] = Some(part);
    }
    Ok(part)
}
