// The report of the Harris matrix.
ghost use Rattle.std.specs.Prelude.{◌≡◌, ◌≤◌, ◌^◌, length, true, IfOk, is_none};
ghost use Rattle.order_laws.specs.Chains.{HasCycle};
ghost use Rattle.order_core.specs.Sets.{AreExtents};
ghost use Rattle.order_closure.specs.Closures.{IsClosureOf};
ghost use Rattle.order_analysis.specs.Subjects.{cycle_of};
ghost use Rattle.crm_outside.specs.Printing.{Prints, lines_from};
ghost use Rattle.report_base.specs.Reports.{IsEnding, Writes};
ghost use Rattle.crm_matrix.specs.MatrixTexts.{matrix_of_found, matrix_report};
ghost use Rattle.crm_matrix.specs.MatrixTexts as spec;

use crate::lines::{append_cell, append_cover, append_unit};
use boundary_orders::Dossier;
use crm_outside::{Numbers, PrintFault, Sink, print_text};
use dossier_analysis::analyse;
use harris_matrix::laws::cells_are_strictly_ordered;
use harris_matrix::{Cell, CellList, CellPair, Matrix, PairList};
use order_analysis::Analysis;
use order_closure::Closure;
use order_core::OrderSet;
use order_texts::print_count;
use rdf_terms::{Names, Records, Triple, Triples};
use reason_report::print_inconsistent;
use report_base::{ReportFault, Status, print_extents, take_survey, tell_passed};
use std::alloc::{AllocError, Global};

fn print_cell<W: Sink>(
    c: usize,
    cell: &Cell,
    line: &mut Vec<u8>,
    out: &mut W,
) -> Result<(), PrintFault>
    ensures { Prints W.written W.faults W.sure out.old out.new (spec.cell_line c cell.now) result }
{
    line.clear();
    let Ok(()) = append_cell(c, cell, line) else {
        return Err(PrintFault::Memory);
    };
    print_text(out, line.as_slice())
}

fn print_cell_lines<W: Sink>(
    cells: &CellList,
    line: &mut Vec<u8>,
    out: &mut W,
) -> Result<(), PrintFault>
    ensures { Prints W.written W.faults W.sure out.old out.new (lines_from spec.cell_line 0 cells.now) result }
{
    for k in 0..cells.len() {
        let Some(cell) = cells.get(k) else {
            unreachable!()
        };
        print_cell(k, cell, line, out)?;
    }
    Ok(())
}

fn print_cover<W: Sink>(pair: &CellPair, line: &mut Vec<u8>, out: &mut W) -> Result<(), PrintFault>
    ensures { Prints W.written W.faults W.sure out.old out.new (spec.cover_line pair.now) result }
{
    line.clear();
    let Ok(()) = append_cover(pair, line) else {
        return Err(PrintFault::Memory);
    };
    print_text(out, line.as_slice())
}

fn print_cover_lines<W: Sink>(
    covers: &PairList,
    line: &mut Vec<u8>,
    out: &mut W,
) -> Result<(), PrintFault>
    ensures { Prints W.written W.faults W.sure out.old out.new (lines_from (λ _ p. spec.cover_line p) 0 covers.now) result }
{
    for k in 0..covers.len() {
        let Some(pair) = covers.get(k) else {
            unreachable!()
        };
        print_cover(pair, line, out)?;
    }
    Ok(())
}

fn print_counted_cells<W: Sink>(
    cells: &CellList,
    line: &mut Vec<u8>,
    out: &mut W,
) -> Result<(), PrintFault>
    ensures { Prints W.written W.faults W.sure out.old out.new (spec.counted_cells cells.now) result }
{
    print_count("cells", cells.len() as u64, line, out)?;
    print_cell_lines(cells, line, out)
}

fn print_counted_covers<W: Sink>(
    covers: &PairList,
    line: &mut Vec<u8>,
    out: &mut W,
) -> Result<(), PrintFault>
    ensures { Prints W.written W.faults W.sure out.old out.new (spec.counted_covers covers.now) result }
{
    print_count("covers", covers.len() as u64, line, out)?;
    print_cover_lines(covers, line, out)
}

fn print_unit<W: Sink>(
    names: &Names,
    dossier: &Dossier,
    triple: Triple,
    line: &mut Vec<u8>,
    out: &mut W,
) -> Result<(), PrintFault>
    ensures { Prints W.written W.faults W.sure out.old out.new (spec.unit_text names.now dossier.now.extents triple) result }
{
    line.clear();
    let Ok(()) = append_unit(names, dossier, triple, line) else {
        return Err(PrintFault::Memory);
    };
    print_text(out, line.as_slice())
}

fn print_units<W: Sink>(
    names: &Names,
    dossier: &Dossier,
    triples: &Triples,
    line: &mut Vec<u8>,
    out: &mut W,
) -> Result<(), PrintFault>
    ensures { Prints W.written W.faults W.sure out.old out.new (spec.units_text names.now dossier.now.extents triples.now) result }
{
    for k in 0..triples.len() {
        let Some(triple) = triples.get(k) else {
            unreachable!()
        };
        print_unit(names, dossier, triple, line, out)?;
    }
    Ok(())
}

// The matrix of ascending periods over consistent orders and their closure.
fn build_matrix(
    alloc: Global,
    set: &OrderSet,
    closure: &Closure,
    periods: &Numbers,
) -> Result<Matrix, AllocError>
    requires closure { IsClosureOf set.now closure.now }
    requires consistent { ¬ HasCycle set.now.list }
    requires periods { AreExtents set.now.extents periods.now }
    requires few { length periods.now ≤ 2 ^ 16 }
    ensures { IfOk result (λ m. m ≡ spec.matrix_of set.now.list periods.now) }
{
    set.conditions();
    cells_are_strictly_ordered();
    let matrix = Matrix::build(alloc, set, closure, periods)?;
    Ok(matrix)
}

/// The matrix of the periods over orders that are consistent.
pub(crate) fn matrix_over(analysis: &Analysis) -> Result<Matrix, AllocError>
    requires consistent { ¬ HasCycle analysis.now.set.list }
    requires few { length analysis.now.periods ≤ 2 ^ 16 }
    ensures { IfOk result (λ m. m ≡ spec.matrix_of analysis.now.set.list analysis.now.periods) }
{
    build_matrix(
        analysis.alloc(),
        analysis.set(),
        analysis.closure(),
        analysis.periods(),
    )
}

fn print_matrix<W: Sink>(matrix: &Matrix, line: &mut Vec<u8>, out: &mut W) -> Result<(), PrintFault>
    ensures { Prints W.written W.faults W.sure out.old out.new (spec.cells_text matrix.now) result }
{
    print_counted_cells(matrix.cells(), line, out)?;
    print_counted_covers(matrix.covers(), line, out)
}

// Answers that the orders are consistent.
fn print_consistent<W: Sink>(
    analysis: &Analysis,
    line: &mut Vec<u8>,
    out: &mut W,
) -> Result<bool, PrintFault>
    requires consistent { ¬ HasCycle analysis.now.set.list }
    requires few { length analysis.now.periods ≤ 2 ^ 16 }
    ensures prints { Prints W.written W.faults W.sure out.old out.new (spec.cells_text (spec.matrix_of analysis.now.set.list analysis.now.periods)) result }
    ensures answer { IfOk result (λ consistent. consistent ≡ true) }
{
    let Ok(matrix) = matrix_over(analysis) else {
        return Err(PrintFault::Memory);
    };
    print_matrix(&matrix, line, out)?;
    Ok(true)
}

// Prints the matrix of consistent orders, or else their first cycle, and answers whether they are consistent.
fn print_cells_or_cycle<W: Sink>(analysis: &Analysis, out: &mut W) -> Result<bool, PrintFault>
    requires { length analysis.now.periods ≤ 2 ^ 16 }
    ensures prints { Prints W.written W.faults W.sure out.old out.new (spec.cells_or_cycle analysis.now.set analysis.now.periods) result }
    ensures answer { IfOk result (λ consistent. consistent ≡ is_none (cycle_of analysis.now.set)) }
{
    let mut line = Vec::new(analysis.alloc());
    let Some(chain) = analysis.cycle() else {
        return print_consistent(analysis, &mut line, out);
    };
    print_inconsistent(chain, &mut line, out)?;
    Ok(false)
}

fn print_found<W: Sink>(
    records: &Records,
    dossier: &Dossier,
    analysis: &Analysis,
    out: &mut W,
) -> Result<bool, PrintFault>
    requires analysis { analysis.now ≡ record { set = dossier.now.orders; periods = dossier.now.periods } }
    requires few { length analysis.now.periods ≤ 2 ^ 16 }
    ensures prints { Prints W.written W.faults W.sure out.old out.new (spec.matrix_text records.now.names records.now.triples dossier.now) result }
    ensures answer { IfOk result (λ consistent. consistent ≡ is_none (cycle_of dossier.now.orders)) }
{
    dossier.conditions();
    let alloc = analysis.alloc();
    print_extents(alloc, &records.names, dossier, out)?;
    let mut line = Vec::new(alloc);
    print_units(&records.names, dossier, &records.triples, &mut line, out)?;
    print_cells_or_cycle(analysis, out)
}

/// `Findings` where the orders are inconsistent, else `Done`.
pub(crate) fn matrix_status(consistent: bool) -> Status
    ensures status { result ≡ spec.status_of consistent }
    ensures ending { IsEnding result }
{
    if consistent {
        Status::Done
    } else {
        Status::Findings
    }
}

fn tell_found<W: Sink>(
    alloc: Global,
    records: &Records,
    dossier: &Dossier,
    out: &mut W,
) -> Result<Status, ReportFault>
    ensures { Writes W.written W.faults W.sure out.old out.new (matrix_of_found records.now.names records.now.triples dossier.now) result }
{
    let analysis = analyse(alloc, dossier)?;
    let consistent = print_found(records, dossier, &analysis, out)?;
    Ok(matrix_status(consistent))
}

/// Prints the extents, the units that periods produced, and then either the cycle that no placing satisfies, or the
/// Harris matrix: the cells of the periods with their levels, and the covers between them.
///
/// `Findings` where the orders are inconsistent; `Refused`, with the code and the count, where there are more than 2,048
/// extents, 2,048 dates or 65,536 orders.
pub fn report_matrix<W: Sink>(
    alloc: Global,
    records: &Records,
    out: &mut W,
) -> Result<Status, ReportFault>
    ensures { Writes W.written W.faults W.sure out.old out.new (matrix_report records.now) result }
{
    match take_survey(alloc, records) {
        Ok(survey) => tell_found(alloc, records, &survey.dossier, out),
        Err(fault) => tell_passed(alloc, fault, out),
    }
}
