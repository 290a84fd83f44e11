// The report of the relations of two periods that words name.
ghost use Rattle.std.specs.Prelude.{◌≡◌, ◌<◌, ◌≤◌, length};
ghost use Rattle.crm_outside.specs.Printing.{Prints};
ghost use Rattle.order_analysis.specs.Subjects.{cycle_of};
ghost use Rattle.report_base.specs.Reports.{Writes, findings_from};
ghost use Rattle.allen_reports.specs.Reports.{allen_pair_report, question_report};
ghost use Rattle.allen_reports.specs.Reports as spec;

use crate::moving::tell_fault;
use crate::pairs::{Pair, print_pair};
use crate::tables::status_of;
use boundary_orders::Dossier;
use crm_legacy::modern;
use crm_outside::{PrintFault, Sink};
use dossier_analysis::analyse;
use order_analysis::Analysis;
use period_names::{Period, find_period, print_periods, tell_no_period};
use rdf_terms::{Names, Records};
use report_base::{ReportFault, Status, take_survey, tell_passed};
use std::alloc::Global;

/// Two periods that words named.
#[derive(Clone, Copy)]
struct Question {
    left: Period,
    right: Period,
}

// The lines of both periods, and then their relations.
fn print_answer<W: Sink>(
    names: &Names,
    analysis: &Analysis,
    question: Question,
    out: &mut W,
) -> Result<(), PrintFault>
    requires few { length analysis.now.set.list ≤ 65536 }
    requires left { question.left.number < analysis.now.set.extents }
    requires right { question.right.number < analysis.now.set.extents }
    ensures { Prints W.written W.faults W.sure out.old out.new (spec.pair_text names.now analysis.now.set question.left question.right) result }
{
    print_periods(analysis.alloc(), names, question.left, question.right, out)?;
    let pair = Pair {
        left: question.left.number,
        right: question.right.number,
    };
    print_pair(analysis, pair, out)
}

fn tell_analysed<W: Sink>(
    names: &Names,
    analysis: &Analysis,
    question: Question,
    out: &mut W,
) -> Result<Status, ReportFault>
    requires few { length analysis.now.set.list ≤ 65536 }
    requires left { question.left.number < analysis.now.set.extents }
    requires right { question.right.number < analysis.now.set.extents }
    ensures { Writes W.written W.faults W.sure out.old out.new (spec.pair_report names.now analysis.now.set question.left question.right) result }
{
    print_answer(names, analysis, question, out)?;
    Ok(status_of(analysis.cycle()))
}

fn tell_answer<W: Sink>(
    alloc: Global,
    names: &Names,
    dossier: &Dossier,
    question: Question,
    out: &mut W,
) -> Result<Status, ReportFault>
    requires few { length dossier.now.orders.list ≤ 65536 }
    requires left { question.left.number < dossier.now.orders.extents }
    requires right { question.right.number < dossier.now.orders.extents }
    ensures { Writes W.written W.faults W.sure out.old out.new (spec.pair_report names.now dossier.now.orders question.left question.right) result }
{
    let analysis = analyse(alloc, dossier)?;
    tell_analysed(names, &analysis, question, out)
}

fn tell_words<W: Sink>(
    alloc: Global,
    names: &Names,
    dossier: &Dossier,
    a: &str,
    b: &str,
    out: &mut W,
) -> Result<Status, ReportFault>
    requires few { length dossier.now.orders.list ≤ 65536 }
    requires numbers { dossier.now.orders.extents ≡ length dossier.now.extents }
    ensures { Writes W.written W.faults W.sure out.old out.new (spec.periods_report names.now dossier.now a.now b.now) result }
{
    let Some(left) = find_period(names, dossier, a) else {
        return tell_no_period(alloc, a, out);
    };
    let Some(right) = find_period(names, dossier, b) else {
        return tell_no_period(alloc, b, out);
    };
    tell_answer(alloc, names, dossier, Question { left, right }, out)
}

fn tell_question<W: Sink>(
    alloc: Global,
    records: &Records,
    a: &str,
    b: &str,
    out: &mut W,
) -> Result<Status, ReportFault>
    ensures { Writes W.written W.faults W.sure out.old out.new (question_report a.now b.now records.now) result }
{
    match take_survey(alloc, records) {
        Ok(survey) => tell_words(alloc, &records.names, &survey.dossier, a, b, out),
        Err(fault) => tell_passed(alloc, fault, out),
    }
}

/// Prints the lines of the periods that `a` and `b` name, and each relation of Allen that some placing has which
/// satisfies all orders, with such a placing; legacy properties are taken as `report_legacy` replaces them.
///
/// A word of `_:b` and a decimal number below 2^32 without leading zero names a blank node; any other is an IRI without
/// brackets. `Usage` where a word names no period, which is printed; `Findings`, with the cycle, where the orders are
/// inconsistent; `Refused` as with `report_allen`.
pub fn report_allen_pair<W: Sink>(
    alloc: Global,
    records: &Records,
    a: &str,
    b: &str,
    out: &mut W,
) -> Result<Status, ReportFault>
    ensures { Writes W.written W.faults W.sure out.old out.new (allen_pair_report records.now a.now b.now) result }
{
    match modern(alloc, records) {
        Ok(current) => tell_question(alloc, &current, a, b, out),
        Err(fault) => tell_fault(alloc, fault, out),
    }
}
