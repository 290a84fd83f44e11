// The report of the relations of each two periods.
ghost use Rattle.std.specs.Prelude.{◌≡◌, ◌++◌, ◌<◌, length, OnOk, IfOk, string_bytes, option_map};
ghost use Rattle.order_laws.specs.Chains.{HasCycle};
ghost use Rattle.crm_outside.specs.Printing.{Prints};
ghost use Rattle.order_core.specs.Sets.{AreExtents};
ghost use Rattle.order_analysis.specs.Subjects.{cycle_of};
ghost use Rattle.triple_pool.specs.Pool.{number_from};
ghost use Rattle.report_base.specs.Reports.{IsEnding, Writes, findings_from};
ghost use Rattle.allen_reports.specs.Relations.{row_text, rows_text};
ghost use Rattle.allen_reports.specs.Reports.{allen_report, relations_report, table_report};
ghost use Rattle.allen_reports.specs.Relations as lines;
ghost use Rattle.allen_reports.specs.Reports as spec;

use crate::lines::append_relations;
use crate::moving::tell_fault;
use boundary_orders::Dossier;
use chain_certificate::Chain;
use crm_allen::possible;
use crm_legacy::modern;
use crm_outside::{PrintFault, Sink, print_text};
use dossier_analysis::analyse;
use order_analysis::Analysis;
use rdf_terms::{Names, Records};
use reason_report::print_inconsistent;
use report_base::{ReportFault, Status, print_extents, take_survey, tell_passed};
use std::alloc::{AllocError, Global};

// The line of a period and a later one.
fn append_pair(analysis: &Analysis, a: u32, b: u32, line: &mut Vec<u8>) -> Result<(), AllocError>
    requires left { a < analysis.now.set.extents }
    requires right { b < analysis.now.set.extents }
    ensures { OnOk result (line.new.items ≡ line.old.items ++ lines.pair_text analysis.now.set.list a b) }
{
    if a >= b {
        return Ok(());
    }
    let relations = possible(analysis.closure(), a, b);
    append_relations(a, b, &relations, line)
}

// The lines of a period and each later one.
fn append_row(
    analysis: &Analysis,
    periods: &[u32],
    a: u32,
    line: &mut Vec<u8>,
) -> Result<(), AllocError>
    requires left { a < analysis.now.set.extents }
    requires within { AreExtents analysis.now.set.extents periods.now }
    ensures { OnOk result (line.new.items ≡ line.old.items ++ row_text analysis.now.set.list periods.now a) }
{
    for b in periods {
        append_pair(analysis, a, *b, line)?;
    }
    Ok(())
}

fn print_row<W: Sink>(
    analysis: &Analysis,
    periods: &[u32],
    a: u32,
    line: &mut Vec<u8>,
    out: &mut W,
) -> Result<(), PrintFault>
    requires left { a < analysis.now.set.extents }
    requires within { AreExtents analysis.now.set.extents periods.now }
    ensures { Prints W.written W.faults W.sure out.old out.new (row_text analysis.now.set.list periods.now a) result }
{
    line.clear();
    let Ok(()) = append_row(analysis, periods, a, line) else {
        return Err(PrintFault::Memory);
    };
    print_text(out, line.as_slice())
}

fn print_rows<W: Sink>(
    analysis: &Analysis,
    periods: &[u32],
    line: &mut Vec<u8>,
    out: &mut W,
) -> Result<(), PrintFault>
    requires { AreExtents analysis.now.set.extents periods.now }
    ensures { Prints W.written W.faults W.sure out.old out.new (rows_text analysis.now.set.list periods.now) result }
{
    for a in periods {
        print_row(analysis, periods, *a, line, out)?;
    }
    Ok(())
}

fn print_consistent<W: Sink>(
    analysis: &Analysis,
    line: &mut Vec<u8>,
    out: &mut W,
) -> Result<(), PrintFault>
    ensures { Prints W.written W.faults W.sure out.old out.new (spec.consistent_text analysis.now.set analysis.now.periods) result }
{
    print_text(out, b"consistent\n")?;
    print_rows(analysis, analysis.periods().as_slice(), line, out)
}

// The relations of each two periods, or the cycle that refutes the orders.
fn print_table<W: Sink>(analysis: &Analysis, out: &mut W) -> Result<(), PrintFault>
    ensures { Prints W.written W.faults W.sure out.old out.new (spec.text_by (cycle_of analysis.now.set) (spec.consistent_text analysis.now.set analysis.now.periods)) result }
{
    let mut line = Vec::new(analysis.alloc());
    match analysis.cycle() {
        Some(cycle) => print_inconsistent(cycle, &mut line, out),
        None => print_consistent(analysis, &mut line, out),
    }
}

fn print_relations<W: Sink>(
    names: &Names,
    dossier: &Dossier,
    analysis: &Analysis,
    out: &mut W,
) -> Result<(), PrintFault>
    requires numbers { dossier.now.orders.extents ≡ length dossier.now.extents }
    requires subject { analysis.now ≡ record { set = dossier.now.orders; periods = dossier.now.periods } }
    ensures { Prints W.written W.faults W.sure out.old out.new (spec.relations_text names.now dossier.now) result }
{
    print_extents(analysis.alloc(), names, dossier, out)?;
    print_table(analysis, out)
}

/// `Findings` where the orders have a cycle, else `Done`.
pub(crate) fn status_of(cycle: Option<&Chain>) -> Status
    ensures status { result ≡ spec.status_by (option_map (λ c. c.now) cycle.entry) }
    ensures ending { IsEnding result }
{
    match cycle {
        Some(_) => Status::Findings,
        None => Status::Done,
    }
}

fn tell_relations<W: Sink>(
    alloc: Global,
    names: &Names,
    dossier: &Dossier,
    out: &mut W,
) -> Result<Status, ReportFault>
    requires { dossier.now.orders.extents ≡ length dossier.now.extents }
    ensures { Writes W.written W.faults W.sure out.old out.new (relations_report names.now dossier.now) result }
{
    let analysis = analyse(alloc, dossier)?;
    print_relations(names, dossier, &analysis, out)?;
    Ok(status_of(analysis.cycle()))
}

fn tell_table<W: Sink>(alloc: Global, records: &Records, out: &mut W) -> Result<Status, ReportFault>
    ensures { Writes W.written W.faults W.sure out.old out.new (table_report records.now) result }
{
    match take_survey(alloc, records) {
        Ok(survey) => tell_relations(alloc, &records.names, &survey.dossier, out),
        Err(fault) => tell_passed(alloc, fault, out),
    }
}

/// Prints the extents and, for each two periods by their numbers, the relations of Allen that some placing has which
/// satisfies all orders; legacy properties are taken as `report_legacy` replaces them.
///
/// `Findings`, with the cycle, where the orders are inconsistent; `Refused` as with `report_legacy`, and where the records
/// are beyond the limits of extents, dates or orders.
pub fn report_allen<W: Sink>(
    alloc: Global,
    records: &Records,
    out: &mut W,
) -> Result<Status, ReportFault>
    ensures { Writes W.written W.faults W.sure out.old out.new (allen_report records.now) result }
{
    match modern(alloc, records) {
        Ok(current) => tell_table(alloc, &current, out),
        Err(fault) => tell_fault(alloc, fault, out),
    }
}
