// Whether one primitive holds between two periods, and why.
ghost use Rattle.std.specs.Prelude.{◌≡◌, ◌≢◌, ◌<◌, ◌++◌, length, IfOk, OnOk, string_bytes};
ghost use Rattle.crm_outside.specs.Printing.{Prints};
ghost use Rattle.reason_report.specs.Answers.{answer_of};
ghost use Rattle.report_base.specs.Reports.{IsEnding, Writes};
ghost use Rattle.inference_reports.specs.Explained as spec;

use crate::asking::{Period, find_period};
use boundary_orders::{Dossier, ExtentRow};
use crm_outside::{PrintFault, Sink, print_text};
use dossier_analysis::analyse;
use order_analysis::Analysis;
use order_core::Primitive;
use rdf_terms::Names;
use reason_report::{Answer, print_answer};
use report_base::{ReportFault, Status, append_extent, survey_pool, tell_passed};
use std::alloc::{AllocError, Global};
use triple_pool::TriplePool;

/// Whether a primitive holds from one period to another.
#[derive(Clone, Copy)]
struct Question {
    left: Period,
    primitive: Primitive,
    right: Period,
}

/// A question whose periods are named by words.
#[derive(Clone, Copy)]
struct Words<'a> {
    left: &'a str,
    primitive: Primitive,
    right: &'a str,
}

fn append_period(names: &Names, period: Period, line: &mut Vec<u8>) -> Result<(), AllocError>
    ensures { OnOk result (line.new.items ≡ line.old.items ++ spec.period_line names.now period) }
{
    let row = ExtentRow {
        node: period.node,
        period: true,
    };
    append_extent(names, period.number, row, line)
}

fn append_periods(names: &Names, a: Period, b: Period, line: &mut Vec<u8>) -> Result<(), AllocError>
    ensures { OnOk result (line.new.items ≡ line.old.items ++ spec.period_lines names.now a b) }
{
    append_period(names, a, line)?;
    append_period(names, b, line)
}

fn print_periods<W: Sink>(
    alloc: Global,
    names: &Names,
    a: Period,
    b: Period,
    out: &mut W,
) -> Result<(), PrintFault>
    ensures { Prints W.written W.faults W.sure out.old out.new (spec.period_lines names.now a b) result }
{
    let mut line = Vec::new(alloc);
    let Ok(()) = append_periods(names, a, b, &mut line) else {
        return Err(PrintFault::Memory);
    };
    print_text(out, line.as_slice())
}

// The lines of both periods, and then the answer.
fn print_explained<W: Sink>(
    names: &Names,
    analysis: &Analysis,
    question: Question,
    out: &mut W,
) -> Result<Answer, PrintFault>
    requires left { question.left.number < analysis.now.set.extents }
    requires right { question.right.number < analysis.now.set.extents }
    ensures prints { Prints W.written W.faults W.sure out.old out.new (spec.explained_text names.now analysis.now.set question.left question.primitive question.right) result }
    ensures answer { IfOk result (λ v. v ≡ answer_of analysis.now.set question.left.number question.primitive question.right.number) }
{
    print_periods(analysis.alloc(), names, question.left, question.right, out)?;
    print_answer(
        analysis,
        question.left.number,
        question.primitive,
        question.right.number,
        out,
    )
}

fn answer_status(answer: Answer) -> Status
    ensures status { result ≡ spec.answer_status answer }
    ensures ending { IsEnding result }
{
    match answer {
        Answer::Holds => Status::Done,
        Answer::Fails => Status::Findings,
        Answer::Inconsistent => Status::Findings,
    }
}

// Answers a question over the orders that were analysed.
fn tell_explained<W: Sink>(
    names: &Names,
    analysis: &Analysis,
    question: Question,
    out: &mut W,
) -> Result<Status, ReportFault>
    requires left { question.left.number < analysis.now.set.extents }
    requires right { question.right.number < analysis.now.set.extents }
    ensures { Writes W.written W.faults W.sure out.old out.new (spec.answer_report names.now analysis.now.set question.left question.primitive question.right) result }
{
    let answer = print_explained(names, analysis, question, out)?;
    Ok(answer_status(answer))
}

fn tell_answer<W: Sink>(
    alloc: Global,
    names: &Names,
    dossier: &Dossier,
    question: Question,
    out: &mut W,
) -> Result<Status, ReportFault>
    requires left { question.left.number < dossier.now.orders.extents }
    requires right { question.right.number < dossier.now.orders.extents }
    ensures { Writes W.written W.faults W.sure out.old out.new (spec.answer_report names.now dossier.now.orders question.left question.primitive question.right) result }
{
    let analysis = analyse(alloc, dossier)?;
    tell_explained(names, &analysis, question, out)
}

fn no_period_line(alloc: Global, word: &str) -> Result<String, AllocError>
    ensures { IfOk result (λ s. string_bytes s ≡ (spec.no_period_report word.now).text) }
{
    format!(in alloc; "no period {word}\n")
}

fn tell_no_period<W: Sink>(alloc: Global, word: &str, out: &mut W) -> Result<Status, ReportFault>
    ensures { Writes W.written W.faults W.sure out.old out.new (spec.no_period_report word.now) result }
{
    let line = no_period_line(alloc, word)?;
    print_text(out, line.as_bytes())?;
    Ok(Status::Usage)
}

fn tell_words<W: Sink>(
    alloc: Global,
    names: &Names,
    dossier: &Dossier,
    words: Words,
    out: &mut W,
) -> Result<Status, ReportFault>
    requires { dossier.now.orders.extents ≡ length dossier.now.extents }
    ensures { Writes W.written W.faults W.sure out.old out.new (spec.periods_report names.now dossier.now words.entry.left.now words.entry.primitive words.entry.right.now) result }
{
    let Some(left) = find_period(names, dossier, words.left) else {
        return tell_no_period(alloc, words.left, out);
    };
    let Some(right) = find_period(names, dossier, words.right) else {
        return tell_no_period(alloc, words.right, out);
    };
    let question = Question {
        left,
        primitive: words.primitive,
        right,
    };
    tell_answer(alloc, names, dossier, question, out)
}

/// Prints the lines of the periods that `a` and `b` name, and whether a primitive holds from the one to the other in
/// every placing that satisfies the orders: the chain that shows it with the line of each of its orders, or the placing
/// that breaks it. An order names its triple by the number that the triple has in the pool.
///
/// A word of `_:b` and a decimal number below 2^32 without leading zero names a blank node; any other is an IRI without
/// brackets. `Usage` where a word names no period, which is printed; `Findings` where the primitive fails or the orders
/// are inconsistent; `Refused`, with the code and the count, where there are more than 2,048 extents, 2,048 dates or
/// 65,536 orders.
pub fn report_explain<W: Sink>(
    alloc: Global,
    names: &Names,
    pool: &TriplePool,
    a: &str,
    p: Primitive,
    b: &str,
    out: &mut W,
) -> Result<Status, ReportFault>
    requires { a.now ≢ b.now }
    ensures { Writes W.written W.faults W.sure out.old out.new (spec.explain_of names.now pool.now.pairs a.now p b.now) result }
{
    let words = Words {
        left: a,
        primitive: p,
        right: b,
    };
    match survey_pool(alloc, names, pool) {
        Ok(survey) => tell_words(alloc, names, &survey.dossier, words, out),
        Err(fault) => tell_passed(alloc, fault, out),
    }
}
