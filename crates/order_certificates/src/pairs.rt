// The `pair` lines of a certificate of orders.
ghost use Rattle.std.specs.Prelude.{◌≡◌, ◌++◌, ◌<◌, ◌≤◌, ◌^◌, OnOk, IfOk, length};
ghost use Rattle.order_laws.specs.Tables.{is_strict};
ghost use Rattle.chain_certificate.specs.Routes.{IsRoutesOf};
ghost use Rattle.chain_certificate.specs.Tree.{chain_of};
ghost use Rattle.order_core.specs.Sides.{left_point};
ghost use Rattle.order_analysis.specs.Reasons.{reach_at};
ghost use Rattle.order_certificates.specs.OrderCertificates as spec;
ghost use Rattle.order_certificates.specs.Sharing.{chain_part, chain_lets, chain_lines};
ghost use Rattle.order_certificates.specs.Keeping.{IsSharing};
ghost use Rattle.order_certificates.specs.Stages.{IsRowOf};

use crate::names::append_name;
use crate::shared_routes::{SharedRoutes, share_node};
use crate::sharing::{Lets, Part, append_part};
use chain_certificate::Routes;
use order_analysis::Analysis;
use order_closure::Reach;
use order_core::Side;
use std::alloc::AllocError;

/// The pairs of one period that are still to come: the period with its place among all, the place of the next right
/// one, and the chains from its boundaries.
#[derive(Drop)]
pub(crate) struct Row {
    pub period: u32,
    pub place: usize,
    pub next: usize,
    pub from_start: SharedRoutes,
    pub from_end: SharedRoutes,
}

// The number of the placing that delays the left boundary of a side of the period at a place.
fn delay_number(place: usize, side: Side) -> u64
    requires { place < 2 ^ 20 }
    ensures { result ≡ spec.delay_number place side }
{
    let place = place as u64;
    match side {
        Side::StartEnd => 2 * place + 1,
        Side::StartStart => 2 * place + 1,
        Side::EndStart => 2 * place + 2,
        Side::EndEnd => 2 * place + 2,
    }
}

#[tactic(auto, unfolding(crate::specs::OrderCertificates::question))]
fn append_question(a: u32, b: u32, side: Side, line: &mut Vec<u8>) -> Result<(), AllocError>
    ensures { OnOk result (line.new.items ≡ line.old.items ++ spec.question a b side) }
{
    line.extend_from_slice(b"pair ")?;
    append_name(b'x', a as u64, line)?;
    line.push(b' ')?;
    append_name(b'x', b as u64, line)?;
    line.push(b' ')?;
    line.extend_from_slice(side.name().as_bytes())
}

#[tactic(auto, unfolding(crate::specs::OrderCertificates::open_line))]
fn append_open(a: u32, b: u32, side: Side, p: u64, line: &mut Vec<u8>) -> Result<(), AllocError>
    ensures { OnOk result (line.new.items ≡ line.old.items ++ spec.open_line a b side p) }
{
    append_question(a, b, side, line)?;
    line.extend_from_slice(b" no ")?;
    append_name(b'p', p, line)?;
    line.push(b'\n')?;
    Ok(())
}

#[tactic(auto, unfolding(crate::specs::OrderCertificates::before_line))]
fn append_before(
    a: u32,
    b: u32,
    side: Side,
    proof: Part,
    line: &mut Vec<u8>,
) -> Result<(), AllocError>
    ensures { OnOk result (line.new.items ≡ line.old.items ++ spec.before_line a b side proof) }
{
    append_question(a, b, side, line)?;
    line.extend_from_slice(b" lt ")?;
    append_part(proof, line)?;
    line.push(b'\n')?;
    Ok(())
}

#[tactic(auto, unfolding(crate::specs::OrderCertificates::at_or_before_line))]
fn append_at_or_before(
    a: u32,
    b: u32,
    side: Side,
    proof: Part,
    p: u64,
    line: &mut Vec<u8>,
) -> Result<(), AllocError>
    ensures { OnOk result (line.new.items ≡ line.old.items ++ spec.at_or_before_line a b side proof p) }
{
    append_question(a, b, side, line)?;
    line.extend_from_slice(b" le ")?;
    append_part(proof, line)?;
    line.push(b' ')?;
    append_name(b'p', p, line)?;
    line.push(b'\n')?;
    Ok(())
}

// Whether the left boundary of a side is before the right one, as far as follows.
fn is_before(analysis: &Analysis, a: u32, b: u32, side: Side) -> bool
    requires left { a < analysis.now.set.extents }
    requires right { b < analysis.now.set.extents }
    ensures { result ≡ is_strict (reach_at analysis.now.set.list a b side) }
{
    match analysis.between(side.left(a), side.right(b)) {
        Reach::None => false,
        Reach::Le => false,
        Reach::Lt => true,
    }
}

// The node at which the chain of what follows on a side ends.
fn side_end(analysis: &Analysis, routes: &Routes, a: u32, b: u32, side: Side) -> u32
    requires routes { IsRoutesOf analysis.now.set (left_point side a) routes.now }
    requires left { a < analysis.now.set.extents }
    requires right { b < analysis.now.set.extents }
    ensures within { result < length routes.now.nodes }
    ensures chain { spec.side_chain analysis.now.set a b side ≡ chain_of routes.now.nodes result }
{
    let target = side.right(b);
    let strict = is_before(analysis, a, b, side);
    routes.end(target, strict)
}

// The proof of what follows on a side; the lines that its chain lacks are appended.
fn share_side(
    analysis: &Analysis,
    from: &mut SharedRoutes,
    a: u32,
    b: u32,
    side: Side,
    lets: &mut Lets,
    line: &mut Vec<u8>,
) -> Result<Part, AllocError>
    requires sharing { IsSharing analysis.now.set (left_point side a) lets.old from.old }
    requires left { a < analysis.now.set.extents }
    requires right { b < analysis.now.set.extents }
    ensures sharing { OnOk result (IsSharing analysis.now.set (left_point side a) lets.new from.new) }
    ensures part { IfOk result (λ p. p ≡ chain_part lets.old (spec.side_chain analysis.now.set a b side)) }
    ensures lets { OnOk result (lets.new ≡ chain_lets lets.old (spec.side_chain analysis.now.set a b side)) }
    ensures line { OnOk result (line.new.items ≡ line.old.items ++ chain_lines lets.old (spec.side_chain analysis.now.set a b side)) }
{
    let node = side_end(analysis, &from.routes, a, b, side);
    let proof = share_node(
        analysis.alloc(),
        &from.routes,
        &mut from.parts,
        node,
        lets,
        line,
    )?;
    Ok(proof)
}

fn append_side(
    analysis: &Analysis,
    from: &mut SharedRoutes,
    a: u32,
    place: usize,
    b: u32,
    side: Side,
    lets: &mut Lets,
    line: &mut Vec<u8>,
) -> Result<(), AllocError>
    requires sharing { IsSharing analysis.now.set (left_point side a) lets.old from.old }
    requires left { a < analysis.now.set.extents }
    requires place { place < 2 ^ 20 }
    requires right { b < analysis.now.set.extents }
    ensures sharing { OnOk result (IsSharing analysis.now.set (left_point side a) lets.new from.new) }
    ensures lets { OnOk result (lets.new ≡ spec.side_lets analysis.now.set lets.old a b side) }
    ensures line { OnOk result (line.new.items ≡ line.old.items ++ spec.side_lines analysis.now.set place lets.old a b side) }
{
    let delay = delay_number(place, side);
    match analysis.between(side.left(a), side.right(b)) {
        Reach::None => {
            append_open(a, b, side, delay, line)?;
            Ok(())
        }
        Reach::Le => {
            let proof = share_side(analysis, from, a, b, side, lets, line)?;
            append_at_or_before(a, b, side, proof, delay, line)?;
            Ok(())
        }
        Reach::Lt => {
            let proof = share_side(analysis, from, a, b, side, lets, line)?;
            append_before(a, b, side, proof, line)?;
            Ok(())
        }
    }
}

/// Appends the `pair` lines of the row's period and another, side by side, each with the `let` lines that it needs.
pub(crate) fn append_pair(
    analysis: &Analysis,
    row: &mut Row,
    b: u32,
    lets: &mut Lets,
    line: &mut Vec<u8>,
) -> Result<(), AllocError>
    requires row { IsRowOf analysis.now.set lets.old row.old }
    requires right { b < analysis.now.set.extents }
    ensures row { OnOk result (IsRowOf analysis.now.set lets.new row.new) }
    ensures period { OnOk result (row.new.period ≡ row.old.period) }
    ensures place { OnOk result (row.new.place ≡ row.old.place) }
    ensures next { OnOk result (row.new.next ≡ row.old.next) }
    ensures lets { OnOk result (lets.new ≡ spec.pair_lets analysis.now.set lets.old row.old.period b) }
    ensures line { OnOk result (line.new.items ≡ line.old.items ++ spec.pair_lines analysis.now.set row.old.place lets.old row.old.period b) }
{
    let (a, place) = (row.period, row.place);
    if a == b {
        return Ok(());
    }
    let from = &mut row.from_start;
    append_side(analysis, from, a, place, b, Side::StartEnd, lets, line)?;
    append_side(analysis, from, a, place, b, Side::StartStart, lets, line)?;
    let from = &mut row.from_end;
    append_side(analysis, from, a, place, b, Side::EndStart, lets, line)?;
    append_side(analysis, from, a, place, b, Side::EndEnd, lets, line)?;
    Ok(())
}
