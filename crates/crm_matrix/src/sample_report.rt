// The report of a sample.
ghost use Rattle.std.specs.Prelude.{◌≡◌, ◌++◌, ◌≤◌, ◌^◌, true, length, IfOk, OnOk, is_none};
ghost use Rattle.order_laws.specs.Chains.{HasCycle};
ghost use Rattle.order_analysis.specs.Subjects.{cycle_of};
ghost use Rattle.crm_outside.specs.Printing.{Prints};
ghost use Rattle.report_base.specs.Reports.{Writes};
ghost use Rattle.crm_matrix.specs.Samples.{counts_report, records_report};
ghost use Rattle.crm_matrix.specs.Samples as spec;

use crate::matrix_report::{matrix_over, matrix_status};
use crate::sample_counts::count_levels;
use crm_outside::{PrintFault, Sink, print_text};
use crm_type_check::Faults;
use dossier_analysis::analyse;
use harris_matrix::Matrix;
use order_analysis::Analysis;
use order_core::OrderSet;
use order_texts::append_count;
use rdf_terms::{Records, Triples};
use reason_report::{count_relations, print_inconsistent};
use report_base::{ReportFault, Status, Survey, take_survey, tell_passed};
use std::alloc::{AllocError, Global};

#[tactic(auto, unfolding(crate::specs::Samples::record_counts))]
fn append_record_counts(
    n: u32,
    triples: &Triples,
    faults: &Faults,
    text: &mut Vec<u8>,
) -> Result<(), AllocError>
    ensures { OnOk result (text.new.items ≡ text.old.items ++ spec.record_counts n triples.now faults.now) }
{
    append_count("sample", n as u64, text)?;
    append_count("triples", triples.len() as u64, text)?;
    append_count("faults", faults.len() as u64, text)
}

#[tactic(auto, unfolding(crate::specs::Samples::order_counts))]
fn append_order_counts(set: &OrderSet, text: &mut Vec<u8>) -> Result<(), AllocError>
    ensures { OnOk result (text.new.items ≡ text.old.items ++ spec.order_counts set.now) }
{
    append_count("extents", set.extents() as u64, text)?;
    append_count("dates", set.dates().len() as u64, text)?;
    append_count("orders", set.orders().len() as u64, text)
}

fn append_counts(
    n: u32,
    triples: &Triples,
    faults: &Faults,
    set: &OrderSet,
    text: &mut Vec<u8>,
) -> Result<(), AllocError>
    ensures { OnOk result (text.new.items ≡ text.old.items ++ spec.counts_text n triples.now faults.now set.now) }
{
    append_record_counts(n, triples, faults, text)?;
    append_order_counts(set, text)
}

#[tactic(auto, unfolding(crate::specs::Samples::cell_counts))]
fn append_cell_counts(matrix: &Matrix, text: &mut Vec<u8>) -> Result<(), AllocError>
    ensures { OnOk result (text.new.items ≡ text.old.items ++ spec.cell_counts matrix.now) }
{
    append_count("cells", matrix.cells().len() as u64, text)?;
    append_count("covers", matrix.covers().len() as u64, text)?;
    append_count("levels", count_levels(matrix.cells()), text)
}

#[tactic(auto, unfolding(crate::specs::Samples::matrix_counts))]
fn append_matrix_counts(
    relations: u64,
    matrix: &Matrix,
    text: &mut Vec<u8>,
) -> Result<(), AllocError>
    ensures { OnOk result (text.new.items ≡ text.old.items ++ spec.matrix_counts relations matrix.now) }
{
    text.extend_from_slice(b"consistent\n")?;
    append_count("relations", relations, text)?;
    append_cell_counts(matrix, text)?;
    Ok(())
}

fn append_following(analysis: &Analysis, text: &mut Vec<u8>) -> Result<(), AllocError>
    requires consistent { ¬ HasCycle analysis.now.set.list }
    requires few { length analysis.now.periods ≤ 2 ^ 16 }
    ensures { OnOk result (text.new.items ≡ text.old.items ++ spec.following_text analysis.now.set analysis.now.periods) }
{
    let relations = count_relations(analysis);
    let matrix = matrix_over(analysis)?;
    append_matrix_counts(relations, &matrix, text)
}

// Answers that the orders are consistent.
fn print_consistent<W: Sink>(
    analysis: &Analysis,
    text: &mut Vec<u8>,
    out: &mut W,
) -> Result<bool, PrintFault>
    requires consistent { ¬ HasCycle analysis.now.set.list }
    requires few { length analysis.now.periods ≤ 2 ^ 16 }
    ensures prints { Prints W.written W.faults W.sure out.old out.new (spec.following_text analysis.now.set analysis.now.periods) result }
    ensures answer { IfOk result (λ consistent. consistent ≡ true) }
{
    text.clear();
    let Ok(()) = append_following(analysis, text) else {
        return Err(PrintFault::Memory);
    };
    print_text(out, text.as_slice())?;
    Ok(true)
}

// Prints what follows from consistent orders in counts, or else their first cycle, and answers whether they are consistent.
fn print_counts_or_cycle<W: Sink>(analysis: &Analysis, out: &mut W) -> Result<bool, PrintFault>
    requires { length analysis.now.periods ≤ 2 ^ 16 }
    ensures prints { Prints W.written W.faults W.sure out.old out.new (spec.counts_or_cycle analysis.now.set analysis.now.periods) result }
    ensures answer { IfOk result (λ consistent. consistent ≡ is_none (cycle_of analysis.now.set)) }
{
    let mut text = Vec::new(analysis.alloc());
    let Some(chain) = analysis.cycle() else {
        return print_consistent(analysis, &mut text, out);
    };
    print_inconsistent(chain, &mut text, out)?;
    Ok(false)
}

fn print_counts<W: Sink>(
    alloc: Global,
    n: u32,
    triples: &Triples,
    faults: &Faults,
    set: &OrderSet,
    out: &mut W,
) -> Result<(), PrintFault>
    ensures { Prints W.written W.faults W.sure out.old out.new (spec.counts_text n triples.now faults.now set.now) result }
{
    let mut text = Vec::new(alloc);
    let Ok(()) = append_counts(n, triples, faults, set, &mut text) else {
        return Err(PrintFault::Memory);
    };
    print_text(out, text.as_slice())
}

fn print_sample<W: Sink>(
    n: u32,
    triples: &Triples,
    faults: &Faults,
    analysis: &Analysis,
    out: &mut W,
) -> Result<bool, PrintFault>
    requires { length analysis.now.periods ≤ 2 ^ 16 }
    ensures prints { Prints W.written W.faults W.sure out.old out.new (spec.sample_text n triples.now faults.now analysis.now.set analysis.now.periods) result }
    ensures answer { IfOk result (λ consistent. consistent ≡ is_none (cycle_of analysis.now.set)) }
{
    print_counts(analysis.alloc(), n, triples, faults, analysis.set(), out)?;
    print_counts_or_cycle(analysis, out)
}

fn tell_found<W: Sink>(
    alloc: Global,
    n: u32,
    triples: &Triples,
    survey: &Survey,
    out: &mut W,
) -> Result<Status, ReportFault>
    ensures { Writes W.written W.faults W.sure out.old out.new (counts_report n triples.now survey.now.faults survey.now.dossier) result }
{
    let analysis = analyse(alloc, &survey.dossier)?;
    let consistent = print_sample(n, triples, &survey.faults, &analysis, out)?;
    Ok(matrix_status(consistent))
}

/// Prints counts of what the records of a sample of n contexts say and of what follows from them.
pub fn report_sample<W: Sink>(
    alloc: Global,
    n: u32,
    records: &Records,
    out: &mut W,
) -> Result<Status, ReportFault>
    ensures { Writes W.written W.faults W.sure out.old out.new (records_report n records.now) result }
{
    match take_survey(alloc, records) {
        Ok(survey) => tell_found(alloc, n, &records.triples, &survey, out),
        Err(fault) => tell_passed(alloc, fault, out),
    }
}
