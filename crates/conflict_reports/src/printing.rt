// The parts of the report.
ghost use Rattle.crm_outside.specs.Printing.{Prints, lines_from};
ghost use Rattle.conflict_reports.specs.Texts.{tangle_line, suspect_line, tangles_text, suspects_text, outcome_text};
ghost use Rattle.std.specs.Prelude.{Some};

use crate::lines::{append_suspect, append_tangle};
use crm_outside::{Items, PrintFault, Sink, print_text};
use order_conflicts::{Conflicts, Suspect, Tangle};
use order_texts::print_count;
use std::alloc::Global;

fn print_tangle<W: Sink>(
    k: usize,
    tangle: &Tangle,
    line: &mut Vec<u8>,
    out: &mut W,
) -> Result<(), PrintFault>
    ensures { Prints W.written W.faults W.sure out.old out.new (tangle_line k tangle.now) result }
{
    line.clear();
    let Ok(()) = append_tangle(k, tangle, line) else {
        return Err(PrintFault::Memory);
    };
    print_text(out, line.as_slice())
}

fn print_tangle_lines<W: Sink>(
    tangles: &[Tangle],
    line: &mut Vec<u8>,
    out: &mut W,
) -> Result<(), PrintFault>
    ensures { Prints W.written W.faults W.sure out.old out.new (lines_from tangle_line 0 tangles.now) result }
{
    for k in 0..tangles.len() {
        print_tangle(k, &tangles[k], line, out)?;
    }
    Ok(())
}

fn print_tangles<W: Sink>(
    tangles: &Items<Tangle>,
    line: &mut Vec<u8>,
    out: &mut W,
) -> Result<(), PrintFault>
    ensures { Prints W.written W.faults W.sure out.old out.new (tangles_text tangles.now) result }
{
    print_count("tangles", tangles.len() as u64, line, out)?;
    print_tangle_lines(tangles.as_slice(), line, out)
}

fn print_suspect<W: Sink>(
    suspect: &Suspect,
    line: &mut Vec<u8>,
    out: &mut W,
) -> Result<(), PrintFault>
    ensures { Prints W.written W.faults W.sure out.old out.new (suspect_line suspect.now) result }
{
    line.clear();
    let Ok(()) = append_suspect(suspect, line) else {
        return Err(PrintFault::Memory);
    };
    print_text(out, line.as_slice())
}

fn print_suspect_lines<W: Sink>(
    suspects: &[Suspect],
    line: &mut Vec<u8>,
    out: &mut W,
) -> Result<(), PrintFault>
    ensures { Prints W.written W.faults W.sure out.old out.new (lines_from (λ _ s. suspect_line s) 0 suspects.now) result }
{
    for k in 0..suspects.len() {
        print_suspect(&suspects[k], line, out)?;
    }
    Ok(())
}

fn print_suspects<W: Sink>(
    suspects: &Items<Suspect>,
    line: &mut Vec<u8>,
    out: &mut W,
) -> Result<(), PrintFault>
    ensures { Prints W.written W.faults W.sure out.old out.new (suspects_text suspects.now) result }
{
    print_suspect_lines(suspects.as_slice(), line, out)?;
    print_count("suspects", suspects.len() as u64, line, out)
}

fn print_conflicts<W: Sink>(
    alloc: Global,
    conflicts: &Conflicts,
    out: &mut W,
) -> Result<(), PrintFault>
    ensures { Prints W.written W.faults W.sure out.old out.new (outcome_text (Some conflicts.now)) result }
{
    let mut line = Vec::new(alloc);
    print_text(out, b"inconsistent\n")?;
    print_tangles(&conflicts.tangles, &mut line, out)?;
    print_suspects(&conflicts.suspects, &mut line, out)
}

/// Prints `consistent`, or the tangles and the suspects.
pub(crate) fn print_outcome<W: Sink>(
    alloc: Global,
    outcome: &Option<Conflicts>,
    out: &mut W,
) -> Result<(), PrintFault>
    ensures { Prints W.written W.faults W.sure out.old out.new (outcome_text outcome.now) result }
{
    match outcome {
        Some(conflicts) => print_conflicts(alloc, conflicts, out),
        None => print_text(out, b"consistent\n"),
    }
}
