// The answer to whether one primitive holds between two periods.
ghost use Rattle.std.specs.Prelude.{◌≡◌, ◌++◌, ◌<◌, length, OnOk, IfOk};
ghost use Rattle.std.specs.List.{flat_map};
ghost use Rattle.order_laws.specs.Chains.{HasCycle};
ghost use Rattle.order_laws.specs.Closure.{reach_between};
ghost use Rattle.order_laws.specs.Tables.{IsPoint, is_strict};
ghost use Rattle.order_laws.specs.Wider as wider;
ghost use Rattle.order_core.specs.Primitives.{points_of};
ghost use Rattle.crm_outside.specs.Printing.{Prints};
ghost use Rattle.order_analysis.specs.Reasons.{reason_of};
ghost use Rattle.reason_report.specs.Answers as spec;

use crate::delays::append_delaying;
use crate::report::print_inconsistent;
use chain_certificate::Chain;
use crm_outside::{PrintFault, Sink, print_text};
use order_analysis::Analysis;
use order_closure::Reach;
use order_core::{OrderSet, Placing, Point, Primitive, points};
use order_texts::{append_chain, append_order};
use placing_witness::delaying;
use std::alloc::AllocError;

/// What is known of a primitive between two periods.
#[derive(Clone, Copy, Debug, PartialEq, Eq)]
pub enum Answer {
    /// It holds in every placing that satisfies the orders.
    Holds,
    /// Some placing that satisfies the orders breaks it.
    Fails,
    /// No placing satisfies the orders.
    Inconsistent,
}

fn is_enough(strict: bool, reach: Reach) -> bool
    ensures { result ≡ spec.is_enough strict reach }
{
    match reach {
        Reach::None => false,
        Reach::Le => !strict,
        Reach::Lt => true,
    }
}

// The chain that is given as the reason from a point to another; `strict` tells whether `<` follows.
fn chain_between(analysis: &Analysis, x: Point, y: Point, strict: bool) -> Result<Chain, AllocError>
    requires x { IsPoint analysis.now.set.extents (length analysis.now.set.dates) x }
    requires y { IsPoint analysis.now.set.extents (length analysis.now.set.dates) y }
    requires strict { strict ≡ is_strict (reach_between analysis.now.set.list x y) }
    ensures { IfOk result (λ c. c ≡ reason_of analysis.now.set.list x y) }
{
    let routes = analysis.routes(x)?;
    match routes.chain(analysis.alloc(), y, strict)? {
        Some(chain) => Ok(chain),
        None => Ok(Chain::new(analysis.alloc())),
    }
}

fn append_step(set: &OrderSet, n: u32, line: &mut Vec<u8>) -> Result<(), AllocError>
    ensures { OnOk result (line.new.items ≡ line.old.items ++ spec.step_line set.now.list n) }
{
    match set.order(n) {
        Some(order) => append_order(n as usize, &order, line),
        None => Ok(()),
    }
}

fn append_steps(set: &OrderSet, chain: &[u32], line: &mut Vec<u8>) -> Result<(), AllocError>
    ensures { OnOk result (line.new.items ≡ line.old.items ++ flat_map (spec.step_line set.now.list) chain.now) }
{
    for n in chain {
        append_step(set, *n, line)?;
    }
    Ok(())
}

#[tactic(auto, unfolding(crate::specs::Answers::holds_text))]
fn append_holds(
    set: &OrderSet,
    primitive: Primitive,
    chain: &[u32],
    line: &mut Vec<u8>,
) -> Result<(), AllocError>
    ensures { OnOk result (line.new.items ≡ line.old.items ++ spec.holds_text set.now.list primitive chain.now) }
{
    line.extend_from_slice(b"holds ")?;
    line.extend_from_slice(primitive.code().as_bytes())?;
    line.extend_from_slice(b" by")?;
    append_chain(chain, line)?;
    line.push(b'\n')?;
    append_steps(set, chain, line)
}

// The placing that delays the boundary, made alone: what all of them share takes many times its time.
fn delaying_placing(analysis: &Analysis, x: Point) -> Result<Placing, AllocError>
    requires consistent { ¬ HasCycle analysis.now.set.list }
    requires x { IsPoint analysis.now.set.extents (length analysis.now.set.dates) x }
    ensures { IfOk result (λ p. p ≡ wider.delaying_placing analysis.now.set.list analysis.now.set.extents analysis.now.set.dates x) }
{
    delaying(analysis.alloc(), analysis.set(), analysis.closure(), x)
}

#[tactic(auto, unfolding(crate::specs::Answers::fails_text))]
fn append_fails(
    analysis: &Analysis,
    primitive: Primitive,
    x: Point,
    line: &mut Vec<u8>,
) -> Result<(), AllocError>
    requires consistent { ¬ HasCycle analysis.now.set.list }
    requires x { IsPoint analysis.now.set.extents (length analysis.now.set.dates) x }
    ensures { OnOk result (line.new.items ≡ line.old.items ++ spec.fails_text analysis.now.set primitive x) }
{
    line.extend_from_slice(b"fails ")?;
    line.extend_from_slice(primitive.code().as_bytes())?;
    line.push(b'\n')?;
    let placing = delaying_placing(analysis, x)?;
    append_delaying(analysis.alloc(), x, &placing, line)
}

fn points_within(analysis: &Analysis, primitive: Primitive, a: u32, b: u32) -> (Point, Point, bool)
    requires a { a < analysis.now.set.extents }
    requires b { b < analysis.now.set.extents }
    ensures points { result ≡ points_of primitive a b }
    ensures x { IsPoint analysis.now.set.extents (length analysis.now.set.dates) result.0 }
    ensures y { IsPoint analysis.now.set.extents (length analysis.now.set.dates) result.1 }
{
    let _analysis = analysis;
    points(primitive, a, b)
}

// Appends the answer over orders that have no cycle.
fn append_verdict(
    analysis: &Analysis,
    a: u32,
    primitive: Primitive,
    b: u32,
    line: &mut Vec<u8>,
) -> Result<Answer, AllocError>
    requires consistent { ¬ HasCycle analysis.now.set.list }
    requires a { a < analysis.now.set.extents }
    requires b { b < analysis.now.set.extents }
    ensures text { OnOk result (line.new.items ≡ line.old.items ++ spec.verdict_text analysis.now.set a primitive b) }
    ensures answer { IfOk result (λ v. v ≡ spec.verdict_of analysis.now.set.list a primitive b) }
{
    let (x, y, strict) = points_within(analysis, primitive, a, b);
    let reach = analysis.between(x, y);
    if is_enough(strict, reach) {
        let chain = chain_between(analysis, x, y, is_enough(true, reach))?;
        append_holds(analysis.set(), primitive, chain.as_slice(), line)?;
        return Ok(Answer::Holds);
    }
    append_fails(analysis, primitive, x, line)?;
    Ok(Answer::Fails)
}

fn print_verdict<W: Sink>(
    analysis: &Analysis,
    a: u32,
    primitive: Primitive,
    b: u32,
    out: &mut W,
) -> Result<Answer, PrintFault>
    requires consistent { ¬ HasCycle analysis.now.set.list }
    requires a { a < analysis.now.set.extents }
    requires b { b < analysis.now.set.extents }
    ensures prints { Prints W.written W.faults W.sure out.old out.new (spec.verdict_text analysis.now.set a primitive b) result }
    ensures answer { IfOk result (λ v. v ≡ spec.verdict_of analysis.now.set.list a primitive b) }
{
    let mut line = Vec::new(analysis.alloc());
    let Ok(answer) = append_verdict(analysis, a, primitive, b, &mut line) else {
        return Err(PrintFault::Memory);
    };
    print_text(out, line.as_slice())?;
    Ok(answer)
}

/// Prints whether a primitive holds from period `a` to period `b` in every placing that satisfies the
/// orders, and answers it.
///
/// Where it holds, the line of the chain that shows it is printed, and the line of each order of the chain;
/// where it fails, the code and the placing that delays the primitive's left boundary; for inconsistent
/// orders `inconsistent` and the line of their first cycle.
pub fn print_answer<W: Sink>(
    analysis: &Analysis,
    a: u32,
    primitive: Primitive,
    b: u32,
    out: &mut W,
) -> Result<Answer, PrintFault>
    requires a { a < analysis.now.set.extents }
    requires b { b < analysis.now.set.extents }
    ensures prints { Prints W.written W.faults W.sure out.old out.new (spec.answer_text analysis.now.set a primitive b) result }
    ensures answer { IfOk result (λ v. v ≡ spec.answer_of analysis.now.set a primitive b) }
{
    let Some(chain) = analysis.cycle() else {
        return print_verdict(analysis, a, primitive, b, out);
    };
    let mut line = Vec::new(analysis.alloc());
    print_inconsistent(chain, &mut line, out)?;
    Ok(Answer::Inconsistent)
}
