// The faults of triples that have numbers.
ghost use Rattle.std.specs.Prelude.{◌≡◌, ◌++◌, List, OnOk, length};
ghost use Rattle.std.specs.Fmt.{decimal};
ghost use Rattle.crm_outside.specs.Printing.{Prints, lines_from};
ghost use Rattle.report_base.specs.Names.{date_kind_name as name_of};
ghost use Rattle.report_base.specs.Texts.{check_text, fault_line, kind_text};
ghost use Rattle.rdf_terms.specs.declared.terms.Triple.{Triple};

use crm_outside::{PrintFault, Sink, print_text};
use crm_type_check::{Fault, FaultKind, Faults};
use itoa::Buffer;
use order_texts::print_count;
use std::alloc::{AllocError, Global};
use time_primitive::{DateFault, DateKind};

fn date_kind_name(kind: DateKind) -> &'static str
    ensures { result.now ≡ name_of kind }
{
    match kind {
        DateKind::Datatype => "Datatype",
        DateKind::Form => "Form",
        DateKind::Year => "Year",
        DateKind::Day => "Day",
        DateKind::Fraction => "Fraction",
        DateKind::Offset => "Offset",
    }
}

fn append_number(n: u64, line: &mut Vec<u8>) -> Result<(), AllocError>
    ensures { OnOk result (line.new.items ≡ line.old.items ++ decimal n) }
{
    line.extend_from_slice(Buffer::new().format(n).as_bytes())
}

fn append_date_fault(fault: DateFault, line: &mut Vec<u8>) -> Result<(), AllocError>
    ensures { OnOk result (line.new.items ≡ line.old.items ++ kind_text (FaultKind.R4 fault)) }
{
    line.extend_from_slice(b"R4 ")?;
    line.extend_from_slice(date_kind_name(fault.kind).as_bytes())?;
    line.push(b' ')?;
    append_number(fault.at as u64, line)
}

fn append_kind(kind: FaultKind, line: &mut Vec<u8>) -> Result<(), AllocError>
    ensures { OnOk result (line.new.items ≡ line.old.items ++ kind_text kind) }
{
    match kind {
        FaultKind::C1 => line.extend_from_slice(b"C1"),
        FaultKind::C2 => line.extend_from_slice(b"C2"),
        FaultKind::C3 => line.extend_from_slice(b"C3"),
        FaultKind::D1 => line.extend_from_slice(b"D1"),
        FaultKind::R1 => line.extend_from_slice(b"R1"),
        FaultKind::R2 => line.extend_from_slice(b"R2"),
        FaultKind::R3 => line.extend_from_slice(b"R3"),
        FaultKind::R4(fault) => append_date_fault(fault, line),
        FaultKind::A1 => line.extend_from_slice(b"A1"),
    }
}

#[tactic(auto, unfolding(report_base::specs::Texts::fault_line))]
fn append_fault(fault: &Fault, line: &mut Vec<u8>) -> Result<(), AllocError>
    ensures { OnOk result (line.new.items ≡ line.old.items ++ fault_line fault.now) }
{
    line.extend_from_slice(b"fault t")?;
    append_number(fault.triple as u64, line)?;
    line.extend_from_slice(b" at ")?;
    append_number(fault.at, line)?;
    line.push(b' ')?;
    append_kind(fault.kind, line)?;
    line.push(b'\n')?;
    Ok(())
}

fn print_fault<W: Sink>(fault: &Fault, line: &mut Vec<u8>, out: &mut W) -> Result<(), PrintFault>
    ensures { Prints W.written W.faults W.sure out.old out.new (fault_line fault.now) result }
{
    line.clear();
    let Ok(()) = append_fault(fault, line) else {
        return Err(PrintFault::Memory);
    };
    print_text(out, line.as_slice())
}

fn print_fault_lines<W: Sink>(
    faults: &Faults,
    line: &mut Vec<u8>,
    out: &mut W,
) -> Result<(), PrintFault>
    ensures { Prints W.written W.faults W.sure out.old out.new (lines_from (λ _ f. fault_line f) 0 faults.now) result }
{
    for k in 0..faults.len() {
        let Some(fault) = faults.get(k) else {
            unreachable!()
        };
        print_fault(fault, line, out)?;
    }
    Ok(())
}

/// Prints the count of triples, the lines of their faults and the count of these.
pub(crate) fn print_faults<W: Sink>(
    alloc: Global,
    count: u32,
    faults: &Faults,
    out: &mut W,
) -> Result<(), PrintFault>
    ensures { (triples : List Triple) → count ≡ length triples → Prints W.written W.faults W.sure out.old out.new (check_text triples faults.now) result }
{
    let mut line = Vec::new(alloc);
    print_count("triples", count as u64, &mut line, out)?;
    print_fault_lines(faults, &mut line, out)?;
    print_count("faults", faults.len() as u64, &mut line, out)
}
