// The lines of the dates around the boundaries.
ghost use Rattle.std.specs.Prelude.{◌≡◌, ◌++◌, length, OnOk, IfSome, Some};
ghost use Rattle.order_laws.specs.declared.Point.TheVariants.{Date};
ghost use Rattle.order_laws.specs.Chains.{HasCycle};
ghost use Rattle.order_laws.specs.Closure.{reach_between};
ghost use Rattle.order_laws.specs.Tables.{IsPoint, boundaries, is_strict};
ghost use Rattle.crm_outside.specs.Printing.{Prints, lines_from};
ghost use Rattle.reason_report.specs.Reason.{reason_text, delay_line};
ghost use Rattle.dating_bounds.specs.Around.{IsBoundary};
ghost use Rattle.dating_reports.specs.Bounds.{IsKnown};
ghost use Rattle.dating_reports.specs.Bounds as spec;

use crm_outside::{Items, PrintFault, Sink, print_text};
use dating_bounds::{DateBound, bound};
use order_analysis::Analysis;
use order_core::Point;
use order_texts::{append_chain, append_placing, append_point};
use placing_witness::Placings;
use std::alloc::{AllocError, Global};

// Appends the chain that is given as the reason from a point to another; `strict` tells whether `<` follows.
fn append_reason(
    analysis: &Analysis,
    x: Point,
    y: Point,
    strict: bool,
    line: &mut Vec<u8>,
) -> Result<(), AllocError>
    requires x { IsPoint analysis.now.set.extents (length analysis.now.set.dates) x }
    requires y { IsPoint analysis.now.set.extents (length analysis.now.set.dates) y }
    requires strict { strict ≡ is_strict (reach_between analysis.now.set.list x y) }
    ensures { OnOk result (line.new.items ≡ line.old.items ++ reason_text analysis.now.set.list x y) }
{
    let routes = analysis.routes(x)?;
    match routes.chain(analysis.alloc(), y, strict)? {
        Some(chain) => append_chain(chain.as_slice(), line),
        None => Ok(()),
    }
}

fn append_above(strict: bool, line: &mut Vec<u8>) -> Result<(), AllocError>
    ensures { OnOk result (line.new.items ≡ line.old.items ++ spec.above_text strict) }
{
    if strict {
        line.extend_from_slice(b" > ")
    } else {
        line.extend_from_slice(b" >= ")
    }
}

fn append_below(strict: bool, line: &mut Vec<u8>) -> Result<(), AllocError>
    ensures { OnOk result (line.new.items ≡ line.old.items ++ spec.below_text strict) }
{
    if strict {
        line.extend_from_slice(b" < ")
    } else {
        line.extend_from_slice(b" <= ")
    }
}

// Appends a date, and the chain that leads from one point to another.
fn append_dated(
    analysis: &Analysis,
    date: u32,
    x: Point,
    y: Point,
    strict: bool,
    line: &mut Vec<u8>,
) -> Result<(), AllocError>
    requires x { IsPoint analysis.now.set.extents (length analysis.now.set.dates) x }
    requires y { IsPoint analysis.now.set.extents (length analysis.now.set.dates) y }
    requires strict { strict ≡ is_strict (reach_between analysis.now.set.list x y) }
    ensures { OnOk result (line.new.items ≡ line.old.items ++ spec.dated_text analysis.now.set date x y) }
{
    append_point(Point::Date(date), line)?;
    line.extend_from_slice(b" by")?;
    append_reason(analysis, x, y, strict, line)?;
    line.push(b'\n')?;
    Ok(())
}

fn append_low_date(
    analysis: &Analysis,
    p: Point,
    bound: DateBound,
    line: &mut Vec<u8>,
) -> Result<(), AllocError>
    requires p { IsPoint analysis.now.set.extents (length analysis.now.set.dates) p }
    requires low { IsKnown analysis.now.set (Date bound.date) p bound.strict }
    ensures { OnOk result (line.new.items ≡ line.old.items ++ spec.low_text analysis.now.set p (Some bound)) }
{
    append_above(bound.strict, line)?;
    let date = Point::Date(bound.date);
    append_dated(analysis, bound.date, date, p, bound.strict, line)
}

fn append_high_date(
    analysis: &Analysis,
    p: Point,
    bound: DateBound,
    line: &mut Vec<u8>,
) -> Result<(), AllocError>
    requires p { IsPoint analysis.now.set.extents (length analysis.now.set.dates) p }
    requires high { IsKnown analysis.now.set p (Date bound.date) bound.strict }
    ensures { OnOk result (line.new.items ≡ line.old.items ++ spec.high_text analysis.now.set p (Some bound)) }
{
    append_below(bound.strict, line)?;
    let date = Point::Date(bound.date);
    append_dated(analysis, bound.date, p, date, bound.strict, line)
}

#[tactic(auto, unfolding(crate::specs::Bounds::low_line))]
fn append_low(
    analysis: &Analysis,
    p: Point,
    bound: Option<DateBound>,
    line: &mut Vec<u8>,
) -> Result<(), AllocError>
    requires p { IsPoint analysis.now.set.extents (length analysis.now.set.dates) p }
    requires low { IfSome bound (λ b. IsKnown analysis.now.set (Date b.date) p b.strict) }
    ensures { OnOk result (line.new.items ≡ line.old.items ++ spec.low_line analysis.now.set p bound) }
{
    line.extend_from_slice(b"low ")?;
    append_point(p, line)?;
    match bound {
        Some(bound) => append_low_date(analysis, p, bound, line),
        None => line.extend_from_slice(b" none\n"),
    }
}

#[tactic(auto, unfolding(crate::specs::Bounds::high_line))]
fn append_high(
    analysis: &Analysis,
    p: Point,
    bound: Option<DateBound>,
    line: &mut Vec<u8>,
) -> Result<(), AllocError>
    requires p { IsPoint analysis.now.set.extents (length analysis.now.set.dates) p }
    requires high { IfSome bound (λ b. IsKnown analysis.now.set p (Date b.date) b.strict) }
    ensures { OnOk result (line.new.items ≡ line.old.items ++ spec.high_line analysis.now.set p bound) }
{
    line.extend_from_slice(b"high ")?;
    append_point(p, line)?;
    match bound {
        Some(bound) => append_high_date(analysis, p, bound, line),
        None => line.extend_from_slice(b" none\n"),
    }
}

fn append_bounds(analysis: &Analysis, p: Point, line: &mut Vec<u8>) -> Result<(), AllocError>
    requires consistent { ¬ HasCycle analysis.now.set.list }
    requires boundary { IsBoundary analysis.now.set.extents p }
    ensures { OnOk result (line.new.items ≡ line.old.items ++ spec.bound_lines analysis.now.set p) }
{
    let bound = bound(analysis.set(), analysis.closure(), p);
    append_low(analysis, p, bound.low, line)?;
    append_high(analysis, p, bound.high, line)
}

fn print_bounds<W: Sink>(
    analysis: &Analysis,
    p: Point,
    line: &mut Vec<u8>,
    out: &mut W,
) -> Result<(), PrintFault>
    requires consistent { ¬ HasCycle analysis.now.set.list }
    requires boundary { IsBoundary analysis.now.set.extents p }
    ensures { Prints W.written W.faults W.sure out.old out.new (spec.bound_lines analysis.now.set p) result }
{
    line.clear();
    let Ok(()) = append_bounds(analysis, p, line) else {
        return Err(PrintFault::Memory);
    };
    print_text(out, line.as_slice())
}

/// Prints the bounds of each of the boundaries. `line` is a buffer that is written over.
pub fn print_all_bounds<W: Sink>(
    analysis: &Analysis,
    points: &Items<Point>,
    line: &mut Vec<u8>,
    out: &mut W,
) -> Result<(), PrintFault>
    requires consistent { ¬ HasCycle analysis.now.set.list }
    requires points { points.now ≡ boundaries analysis.now.set.extents }
    ensures { Prints W.written W.faults W.sure out.old out.new (lines_from (λ _ p. spec.bound_lines analysis.now.set p) 0 points.now) result }
{
    for k in 0..points.len() {
        let Some(p) = points.get(k) else {
            unreachable!()
        };
        print_bounds(analysis, *p, line, out)?;
    }
    Ok(())
}

fn append_delay(
    alloc: Global,
    placings: &Placings,
    p: Point,
    line: &mut Vec<u8>,
) -> Result<(), AllocError>
    requires { IsPoint placings.now.extents (length placings.now.dates) p }
    ensures { OnOk result (line.new.items ≡ line.old.items ++ delay_line placings.now p) }
{
    let mut name = Vec::new(alloc);
    append_point(p, &mut name)?;
    let placing = placings.delaying(alloc, p)?;
    append_placing(&name, &placing, line)
}

fn print_delay<W: Sink>(
    alloc: Global,
    placings: &Placings,
    p: Point,
    line: &mut Vec<u8>,
    out: &mut W,
) -> Result<(), PrintFault>
    requires { IsPoint placings.now.extents (length placings.now.dates) p }
    ensures { Prints W.written W.faults W.sure out.old out.new (delay_line placings.now p) result }
{
    line.clear();
    let Ok(()) = append_delay(alloc, placings, p, line) else {
        return Err(PrintFault::Memory);
    };
    print_text(out, line.as_slice())
}

/// Prints the placing that delays each of the boundaries. `line` is a buffer that is written over.
pub fn print_all_delays<W: Sink>(
    alloc: Global,
    placings: &Placings,
    points: &Items<Point>,
    line: &mut Vec<u8>,
    out: &mut W,
) -> Result<(), PrintFault>
    requires { points.now ≡ boundaries placings.now.extents }
    ensures { Prints W.written W.faults W.sure out.old out.new (lines_from (λ _ p. delay_line placings.now p) 0 points.now) result }
{
    for k in 0..points.len() {
        let Some(p) = points.get(k) else {
            unreachable!()
        };
        print_delay(alloc, placings, *p, line, out)?;
    }
    Ok(())
}
