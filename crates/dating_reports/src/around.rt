// The report of the dates around the boundaries.
ghost use Rattle.std.specs.Prelude.{◌≡◌, length, IfOk, is_none, true};
ghost use Rattle.order_laws.specs.Chains.{HasCycle};
ghost use Rattle.order_laws.specs.Tables.{boundaries};
ghost use Rattle.crm_outside.specs.Printing.{Prints};
ghost use Rattle.order_analysis.specs.Subjects.{cycle_of};
ghost use Rattle.reason_report.specs.Reason.{plain_line};
ghost use Rattle.report_base.specs.Reports.{IsEnding, Writes};
ghost use Rattle.dating_reports.specs.Bounds.{bounds_report};
ghost use Rattle.dating_reports.specs.Bounds as spec;

use crate::boundaries::boundaries;
use crate::dating::{print_all_bounds, print_all_delays};
use boundary_orders::Dossier;
use crm_outside::{Items, PrintFault, Sink, print_text};
use dossier_analysis::analyse;
use order_analysis::Analysis;
use order_core::Point;
use order_texts::print_placing;
use placing_witness::Placings;
use rdf_terms::{Names, Records};
use reason_report::print_inconsistent;
use report_base::{ReportFault, Status, print_dossier, take_survey, tell_passed};
use std::alloc::Global;

fn print_plain<W: Sink>(
    alloc: Global,
    placings: &Placings,
    line: &mut Vec<u8>,
    out: &mut W,
) -> Result<(), PrintFault>
    ensures { Prints W.written W.faults W.sure out.old out.new (plain_line placings.now) result }
{
    let Ok(placing) = placings.plain(alloc) else {
        return Err(PrintFault::Memory);
    };
    print_placing(b"plain", &placing, line, out)
}

// The plain placing, the bounds of all boundaries, and the placings that delay them.
fn print_parts<W: Sink>(
    analysis: &Analysis,
    placings: &Placings,
    points: &Items<Point>,
    line: &mut Vec<u8>,
    out: &mut W,
) -> Result<(), PrintFault>
    requires consistent { ¬ HasCycle analysis.now.set.list }
    requires placings { placings.now ≡ analysis.now.set }
    requires points { points.now ≡ boundaries analysis.now.set.extents }
    ensures { Prints W.written W.faults W.sure out.old out.new (spec.around_text analysis.now.set) result }
{
    let alloc = analysis.alloc();
    print_text(out, b"consistent\n")?;
    print_plain(alloc, placings, line, out)?;
    print_all_bounds(analysis, points, line, out)?;
    print_all_delays(alloc, placings, points, line, out)
}

// Answers that the orders are consistent.
fn print_around<W: Sink>(
    analysis: &Analysis,
    line: &mut Vec<u8>,
    out: &mut W,
) -> Result<bool, PrintFault>
    requires { ¬ HasCycle analysis.now.set.list }
    ensures prints { Prints W.written W.faults W.sure out.old out.new (spec.around_text analysis.now.set) result }
    ensures answer { IfOk result (λ consistent. consistent ≡ true) }
{
    let Ok(placings) = analysis.placings() else {
        return Err(PrintFault::Memory);
    };
    let Ok(points) = boundaries(analysis.alloc(), analysis.set().extents()) else {
        return Err(PrintFault::Memory);
    };
    print_parts(analysis, &placings, &points, line, out)?;
    Ok(true)
}

// The cycle of inconsistent orders, else the dates around the boundaries.
fn print_dating<W: Sink>(analysis: &Analysis, out: &mut W) -> Result<bool, PrintFault>
    ensures prints { Prints W.written W.faults W.sure out.old out.new (spec.dating_text analysis.now.set) result }
    ensures answer { IfOk result (λ consistent. consistent ≡ is_none (cycle_of analysis.now.set)) }
{
    let mut line = Vec::new(analysis.alloc());
    let Some(chain) = analysis.cycle() else {
        return print_around(analysis, &mut line, out);
    };
    print_inconsistent(chain, &mut line, out)?;
    Ok(false)
}

fn print_report<W: Sink>(
    names: &Names,
    dossier: &Dossier,
    analysis: &Analysis,
    out: &mut W,
) -> Result<bool, PrintFault>
    requires subject { analysis.now ≡ record { set = dossier.now.orders; periods = dossier.now.periods } }
    requires counted { dossier.now.orders.extents ≡ length dossier.now.extents }
    ensures prints { Prints W.written W.faults W.sure out.old out.new (spec.report_text names.now dossier.now) result }
    ensures answer { IfOk result (λ consistent. consistent ≡ is_none (cycle_of dossier.now.orders)) }
{
    print_dossier(analysis.alloc(), names, dossier, out)?;
    print_dating(analysis, out)
}

/// `Done` where the orders are consistent, else `Findings`.
pub fn consistency_status(consistent: bool) -> Status
    ensures status { result ≡ spec.status_by consistent }
    ensures ending { IsEnding result }
{
    if consistent {
        Status::Done
    } else {
        Status::Findings
    }
}

fn tell_around<W: Sink>(
    alloc: Global,
    names: &Names,
    dossier: &Dossier,
    out: &mut W,
) -> Result<Status, ReportFault>
    requires { dossier.now.orders.extents ≡ length dossier.now.extents }
    ensures { Writes W.written W.faults W.sure out.old out.new (spec.around_report names.now dossier.now) result }
{
    let analysis = analyse(alloc, dossier)?;
    let consistent = print_report(names, dossier, &analysis, out)?;
    Ok(consistency_status(consistent))
}

/// Prints the extents, dates and orders of records, and then either the cycle that no placing satisfies, or the plain
/// placing, for each boundary the last date that it is never before and the first that it is never after, each with the
/// chain that shows it, and the placings that delay the boundaries.
///
/// `Findings` where the orders are inconsistent; `Refused` as with `report_orders`.
pub fn report_bounds<W: Sink>(
    alloc: Global,
    records: &Records,
    out: &mut W,
) -> Result<Status, ReportFault>
    ensures { Writes W.written W.faults W.sure out.old out.new (bounds_report records.now) result }
{
    match take_survey(alloc, records) {
        Ok(survey) => tell_around(alloc, &records.names, &survey.dossier, out),
        Err(fault) => tell_passed(alloc, fault, out),
    }
}
