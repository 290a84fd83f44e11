// What is printed of periods that words name.
ghost use Rattle.std.specs.Prelude.{◌≡◌, ◌++◌, IfOk, OnOk, string_bytes};
ghost use Rattle.crm_outside.specs.Printing.{Prints};
ghost use Rattle.report_base.specs.Reports.{Writes};
ghost use Rattle.period_names.specs.Naming as spec;

use crate::Period;
use boundary_orders::ExtentRow;
use crm_outside::{PrintFault, Sink, print_text};
use rdf_terms::Names;
use report_base::{ReportFault, Status, append_extent};
use std::alloc::{AllocError, Global};

fn append_period(names: &Names, period: Period, line: &mut Vec<u8>) -> Result<(), AllocError>
    ensures { OnOk result (line.new.items ≡ line.old.items ++ spec.period_line names.now period) }
{
    let row = ExtentRow {
        node: period.node,
        period: true,
    };
    append_extent(names, period.number, row, line)
}

fn append_periods(names: &Names, a: Period, b: Period, line: &mut Vec<u8>) -> Result<(), AllocError>
    ensures { OnOk result (line.new.items ≡ line.old.items ++ spec.period_lines names.now a b) }
{
    append_period(names, a, line)?;
    append_period(names, b, line)
}

/// Prints the lines of two periods: the number of the extent, `period` and the node.
pub fn print_periods<W: Sink>(
    alloc: Global,
    names: &Names,
    a: Period,
    b: Period,
    out: &mut W,
) -> Result<(), PrintFault>
    ensures { Prints W.written W.faults W.sure out.old out.new (spec.period_lines names.now a b) result }
{
    let mut line = Vec::new(alloc);
    let Ok(()) = append_periods(names, a, b, &mut line) else {
        return Err(PrintFault::Memory);
    };
    print_text(out, line.as_slice())
}

fn no_period_line(alloc: Global, word: &str) -> Result<String, AllocError>
    ensures { IfOk result (λ s. string_bytes s ≡ (spec.no_period_report word.now).text) }
{
    format!(in alloc; "no period {word}\n")
}

/// Prints that a word names no period, as it was given: `no period NAME`. The status is `Usage`.
pub fn tell_no_period<W: Sink>(
    alloc: Global,
    word: &str,
    out: &mut W,
) -> Result<Status, ReportFault>
    ensures { Writes W.written W.faults W.sure out.old out.new (spec.no_period_report word.now) result }
{
    let line = no_period_line(alloc, word)?;
    print_text(out, line.as_bytes())?;
    Ok(Status::Usage)
}
