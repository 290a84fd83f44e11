// The line of a period with the dates around its boundaries.
ghost use Rattle.std.specs.Prelude.{◌≡◌, ◌<◌, ◌++◌, length, OnOk, Some, option_map};
ghost use Rattle.std.specs.Fmt.{decimal};
ghost use Rattle.order_laws.specs.Chains.{HasCycle};
ghost use Rattle.crm_outside.specs.Printing.{Prints, lines_from};
ghost use Rattle.dating_bounds.specs.Around.{IsBoundary, bound_of};
ghost use Rattle.calendar_reports.specs.Dates as spec;

use boundary_orders::{Dossier, ExtentRow};
use calendar_dates::append_instant;
use crm_outside::{PrintFault, Sink, print_text};
use dating_bounds::{DateBound, bound};
use itoa::Buffer;
use ntriples_writer::append_term;
use order_analysis::Analysis;
use order_core::{OrderSet, Point};
use rdf_terms::Names;
use std::alloc::AllocError;

fn append_date(set: &OrderSet, date: u32, line: &mut Vec<u8>) -> Result<(), AllocError>
    ensures { OnOk result (line.new.items ≡ line.old.items ++ spec.date_text set.now date) }
{
    match set.dates().get(date as usize) {
        Some(instant) => append_instant(*instant, line),
        None => Ok(()),
    }
}

fn append_low(
    set: &OrderSet,
    bound: Option<DateBound>,
    line: &mut Vec<u8>,
) -> Result<(), AllocError>
    ensures { OnOk result (line.new.items ≡ line.old.items ++ spec.low_text set.now bound) }
{
    let Some(bound) = bound else {
        return line.extend_from_slice(b"from ..");
    };
    if bound.strict {
        line.extend_from_slice(b"after ")?;
    } else {
        line.extend_from_slice(b"from ")?;
    }
    append_date(set, bound.date, line)
}

fn append_high(
    set: &OrderSet,
    bound: Option<DateBound>,
    line: &mut Vec<u8>,
) -> Result<(), AllocError>
    ensures { OnOk result (line.new.items ≡ line.old.items ++ spec.high_text set.now bound) }
{
    let Some(bound) = bound else {
        return line.extend_from_slice(b" to ..");
    };
    if bound.strict {
        line.extend_from_slice(b" before ")?;
    } else {
        line.extend_from_slice(b" to ")?;
    }
    append_date(set, bound.date, line)
}

fn append_around(analysis: &Analysis, p: Point, line: &mut Vec<u8>) -> Result<(), AllocError>
    requires consistent { ¬ HasCycle analysis.now.set.list }
    requires boundary { IsBoundary analysis.now.set.extents p }
    ensures { OnOk result (line.new.items ≡ line.old.items ++ spec.around_text analysis.now.set p) }
{
    let bound = bound(analysis.set(), analysis.closure(), p);
    append_low(analysis.set(), bound.low, line)?;
    append_high(analysis.set(), bound.high, line)
}

// The dates around both boundaries of an extent.
fn append_span(analysis: &Analysis, k: u32, line: &mut Vec<u8>) -> Result<(), AllocError>
    requires consistent { ¬ HasCycle analysis.now.set.list }
    requires within { k < analysis.now.set.extents }
    ensures { OnOk result (line.new.items ≡ line.old.items ++ spec.span_text analysis.now.set k) }
{
    line.extend_from_slice(b" start ")?;
    append_around(analysis, Point::Start(k), line)?;
    line.extend_from_slice(b" end ")?;
    append_around(analysis, Point::End(k), line)
}

// The number and the node of a period.
fn append_name(
    names: &Names,
    k: u32,
    row: Option<ExtentRow>,
    line: &mut Vec<u8>,
) -> Result<(), AllocError>
    ensures { OnOk result (line.new.items ≡ line.old.items ++ spec.name_text names.now k (option_map (λ r. (r.node, r.period)) row)) }
{
    line.push(b'x')?;
    line.extend_from_slice(Buffer::new().format(k).as_bytes())?;
    line.push(b' ')?;
    match row {
        Some(row) => append_term(names, row.node, line),
        None => Ok(()),
    }
}

#[tactic(auto, unfolding(crate::specs::Dates::period_line))]
fn append_period(
    names: &Names,
    dossier: &Dossier,
    analysis: &Analysis,
    k: u32,
    line: &mut Vec<u8>,
) -> Result<(), AllocError>
    requires consistent { ¬ HasCycle analysis.now.set.list }
    requires within { k < analysis.now.set.extents }
    ensures { OnOk result (line.new.items ≡ line.old.items ++ spec.period_line names.now dossier.now.extents analysis.now.set k) }
{
    append_name(names, k, dossier.extent(k), line)?;
    append_span(analysis, k, line)?;
    line.push(b'\n')?;
    Ok(())
}

fn print_period<W: Sink>(
    names: &Names,
    dossier: &Dossier,
    analysis: &Analysis,
    k: u32,
    line: &mut Vec<u8>,
    out: &mut W,
) -> Result<(), PrintFault>
    requires consistent { ¬ HasCycle analysis.now.set.list }
    requires within { k < analysis.now.set.extents }
    ensures { Prints W.written W.faults W.sure out.old out.new (spec.period_line names.now dossier.now.extents analysis.now.set k) result }
{
    line.clear();
    let Ok(()) = append_period(names, dossier, analysis, k, line) else {
        return Err(PrintFault::Memory);
    };
    print_text(out, line.as_slice())
}

/// Prints the line of each period. `line` is a buffer that is written over.
pub fn print_period_lines<W: Sink>(
    names: &Names,
    dossier: &Dossier,
    analysis: &Analysis,
    line: &mut Vec<u8>,
    out: &mut W,
) -> Result<(), PrintFault>
    requires { ¬ HasCycle analysis.now.set.list }
    ensures { Prints W.written W.faults W.sure out.old out.new (lines_from (λ _ k. spec.period_line names.now dossier.now.extents analysis.now.set k) 0 analysis.now.periods) result }
{
    for i in 0..analysis.len() {
        let Some(k) = analysis.period(i) else {
            unreachable!()
        };
        print_period(names, dossier, analysis, k, line, out)?;
    }
    Ok(())
}
