// The report of the dates of the calendar around periods.
ghost use Rattle.std.specs.Prelude.{◌≡◌, IfOk, is_none, true};
ghost use Rattle.order_laws.specs.Chains.{HasCycle};
ghost use Rattle.crm_outside.specs.Printing.{Prints};
ghost use Rattle.order_analysis.specs.Subjects.{cycle_of};
ghost use Rattle.report_base.specs.Reports.{IsEnding, Writes};
ghost use Rattle.calendar_reports.specs.Dates.{dates_report};
ghost use Rattle.calendar_reports.specs.Dates as spec;

use crate::rows::print_period_lines;
use boundary_orders::Dossier;
use crm_outside::{PrintFault, Sink};
use dossier_analysis::analyse;
use order_analysis::Analysis;
use order_texts::print_count;
use rdf_terms::{Names, Records};
use reason_report::print_inconsistent;
use report_base::{ReportFault, Status, take_survey, tell_passed};
use std::alloc::Global;

// Answers that the orders are consistent.
fn print_periods<W: Sink>(
    names: &Names,
    dossier: &Dossier,
    analysis: &Analysis,
    line: &mut Vec<u8>,
    out: &mut W,
) -> Result<bool, PrintFault>
    requires { ¬ HasCycle analysis.now.set.list }
    ensures prints { Prints W.written W.faults W.sure out.old out.new (spec.periods_text names.now dossier.now.extents analysis.now.set analysis.now.periods) result }
    ensures answer { IfOk result (λ consistent. consistent ≡ true) }
{
    print_count("periods", analysis.len() as u64, line, out)?;
    print_period_lines(names, dossier, analysis, line, out)?;
    Ok(true)
}

// The cycle of inconsistent orders, else the dates around the periods.
fn print_report<W: Sink>(
    names: &Names,
    dossier: &Dossier,
    analysis: &Analysis,
    out: &mut W,
) -> Result<bool, PrintFault>
    ensures prints { Prints W.written W.faults W.sure out.old out.new (spec.report_text names.now dossier.now.extents analysis.now.set analysis.now.periods) result }
    ensures answer { IfOk result (λ consistent. consistent ≡ is_none (cycle_of analysis.now.set)) }
{
    let mut line = Vec::new(analysis.alloc());
    let Some(chain) = analysis.cycle() else {
        return print_periods(names, dossier, analysis, &mut line, out);
    };
    print_inconsistent(chain, &mut line, out)?;
    Ok(false)
}

fn status_of(consistent: bool) -> Status
    ensures status { result ≡ spec.status_by consistent }
    ensures ending { IsEnding result }
{
    if consistent {
        Status::Done
    } else {
        Status::Findings
    }
}

fn tell_dates<W: Sink>(
    alloc: Global,
    names: &Names,
    dossier: &Dossier,
    out: &mut W,
) -> Result<Status, ReportFault>
    ensures { Writes W.written W.faults W.sure out.old out.new (spec.calendar_report names.now dossier.now) result }
{
    let analysis = analyse(alloc, dossier)?;
    let consistent = print_report(names, dossier, &analysis, out)?;
    Ok(status_of(consistent))
}

/// Prints the count of periods and a line for each: its number, its node, and for its start and its end the last date
/// that it is never before and the first that it is never after, as dates of the proleptic Gregorian calendar in UTC
/// (ISO 8601). `after` and `before` say that the date itself is excluded, `..` that there is no such date.
///
/// Of inconsistent orders the first cycle stands alone, with `Findings`; `Refused` as with `report_orders`.
pub fn report_dates<W: Sink>(
    alloc: Global,
    records: &Records,
    out: &mut W,
) -> Result<Status, ReportFault>
    ensures { Writes W.written W.faults W.sure out.old out.new (dates_report records.now) result }
{
    match take_survey(alloc, records) {
        Ok(survey) => tell_dates(alloc, &records.names, &survey.dossier, out),
        Err(fault) => tell_passed(alloc, fault, out),
    }
}
