// The parts of a report.
ghost use Rattle.std.specs.Prelude.{◌≡◌, length};
ghost use Rattle.crm_outside.specs.Printing.{Prints, lines_from};
ghost use Rattle.report_base.specs.Texts as spec;

use crate::lines::{append_extent, append_fault};
use boundary_orders::{Dossier, ExtentRow};
use crm_outside::{PrintFault, Sink, print_text};
use crm_type_check::{Fault, Faults};
use order_texts::{print_count, print_dates, print_orders};
use rdf_terms::{Names, Triples};
use std::alloc::Global;

fn print_fault<W: Sink>(fault: &Fault, line: &mut Vec<u8>, out: &mut W) -> Result<(), PrintFault>
    ensures { Prints W.written W.faults W.sure out.old out.new (spec.fault_line fault.now) result }
{
    line.clear();
    let Ok(()) = append_fault(fault, line) else {
        return Err(PrintFault::Memory);
    };
    print_text(out, line.as_slice())
}

fn print_fault_lines<W: Sink>(
    faults: &Faults,
    line: &mut Vec<u8>,
    out: &mut W,
) -> Result<(), PrintFault>
    ensures { Prints W.written W.faults W.sure out.old out.new (lines_from (λ _ f. spec.fault_line f) 0 faults.now) result }
{
    for k in 0..faults.len() {
        let Some(fault) = faults.get(k) else {
            unreachable!()
        };
        print_fault(fault, line, out)?;
    }
    Ok(())
}

/// Prints the count of triples, the lines of their faults and the count of these.
pub fn print_check<W: Sink>(
    alloc: Global,
    triples: &Triples,
    faults: &Faults,
    out: &mut W,
) -> Result<(), PrintFault>
    ensures { Prints W.written W.faults W.sure out.old out.new (spec.check_text triples.now faults.now) result }
{
    let mut line = Vec::new(alloc);
    print_count("triples", triples.len() as u64, &mut line, out)?;
    print_fault_lines(faults, &mut line, out)?;
    print_count("faults", faults.len() as u64, &mut line, out)
}

/// Prints the line of an extent. `line` is a buffer that is written over.
fn print_extent<W: Sink>(
    names: &Names,
    k: u32,
    row: ExtentRow,
    line: &mut Vec<u8>,
    out: &mut W,
) -> Result<(), PrintFault>
    ensures { Prints W.written W.faults W.sure out.old out.new (spec.extent_line names.now k (row.node, row.period)) result }
{
    line.clear();
    let Ok(()) = append_extent(names, k, row, line) else {
        return Err(PrintFault::Memory);
    };
    print_text(out, line.as_slice())
}

fn print_extent_lines<W: Sink>(
    names: &Names,
    dossier: &Dossier,
    line: &mut Vec<u8>,
    out: &mut W,
) -> Result<(), PrintFault>
    requires { dossier.now.orders.extents ≡ length dossier.now.extents }
    ensures { Prints W.written W.faults W.sure out.old out.new (lines_from (spec.extent_line names.now) 0 dossier.now.extents) result }
{
    for k in 0..dossier.orders().extents() {
        let Some(row) = dossier.extent(k) else {
            unreachable!()
        };
        print_extent(names, k, row, line, out)?;
    }
    Ok(())
}

/// Prints the extents, by number, behind their count.
pub fn print_extents<W: Sink>(
    alloc: Global,
    names: &Names,
    dossier: &Dossier,
    out: &mut W,
) -> Result<(), PrintFault>
    requires { dossier.now.orders.extents ≡ length dossier.now.extents }
    ensures { Prints W.written W.faults W.sure out.old out.new (spec.extents_text names.now dossier.now.extents) result }
{
    let mut line = Vec::new(alloc);
    print_count("extents", dossier.orders().extents() as u64, &mut line, out)?;
    print_extent_lines(names, dossier, &mut line, out)
}

/// Prints the extents, the dates and the orders.
pub fn print_dossier<W: Sink>(
    alloc: Global,
    names: &Names,
    dossier: &Dossier,
    out: &mut W,
) -> Result<(), PrintFault>
    requires { dossier.now.orders.extents ≡ length dossier.now.extents }
    ensures { Prints W.written W.faults W.sure out.old out.new (spec.orders_text names.now dossier.now) result }
{
    print_extents(alloc, names, dossier, out)?;
    print_dates(alloc, dossier.orders().dates(), out)?;
    print_orders(alloc, dossier.orders().orders(), out)
}
