// The report of records without legacy properties.
ghost use Rattle.std.specs.Prelude.{◌≡◌, IfOk, string_bytes};
ghost use Rattle.crm_outside.specs.Printing.{Prints, lines_from};
ghost use Rattle.ntriples_writer.specs.Lines.{canonical_line};
ghost use Rattle.report_base.specs.Reports.{Report, Writes};
ghost use Rattle.rdf_terms.specs.declared.triples.Records.{Records};
ghost use Rattle.crm_legacy.specs.Causes.{IsCause};
ghost use Rattle.crm_legacy.specs.Modern.{modern_of};
ghost use Rattle.allen_reports.specs.Reports.{legacy_report, of_modern};
ghost use Rattle.allen_reports.specs.Reports as spec;

use crm_legacy::{ModernFault, modern};
use crm_outside::{PrintFault, Sink, print_text};
use ntriples_writer::print_triple;
use rdf_terms::{Code, Names, Records, Refusal, Triples};
use report_base::{ReportFault, Status};
use std::alloc::{AllocError, Global};

fn code_name(code: Code) -> &'static str
    ensures { result.now ≡ spec.code_name code }
{
    match code {
        Code::U1 => "U1",
        Code::G1 => "G1",
        Code::G2 => "G2",
        Code::G3 => "G3",
        Code::G4 => "G4",
        Code::G5 => "G5",
        Code::G6 => "G6",
        Code::L1 => "L1",
        Code::L2 => "L2",
        Code::L3 => "L3",
        Code::L4 => "L4",
        Code::L5 => "L5",
        Code::L6 => "L6",
        Code::L7 => "L7",
        Code::L8 => "L8",
        Code::L9 => "L9",
    }
}

fn refusal_line(alloc: Global, refusal: Refusal) -> Result<String, AllocError>
    ensures { IfOk result (λ s. string_bytes s ≡ (spec.refusal_report refusal).text) }
{
    let code = code_name(refusal.code);
    let at = refusal.at;
    format!(in alloc; "refused {code} at {at}\n")
}

fn tell_refusal<W: Sink>(
    alloc: Global,
    refusal: Refusal,
    out: &mut W,
) -> Result<Status, ReportFault>
    ensures { Writes W.written W.faults W.sure out.old out.new (spec.refusal_report refusal) result }
{
    let line = refusal_line(alloc, refusal)?;
    print_text(out, line.as_bytes())?;
    Ok(Status::Refused)
}

/// Prints why records have no form in today's properties: in place of any report of that form.
pub(crate) fn tell_fault<W: Sink>(
    alloc: Global,
    fault: ModernFault,
    out: &mut W,
) -> Result<Status, ReportFault>
    ensures { (r : Records) (report : Records → Report) → IsCause (modern_of r) fault → Writes W.written W.faults W.sure out.old out.new (of_modern report (modern_of r)) result }
{
    match fault {
        ModernFault::Refused(refusal) => tell_refusal(alloc, refusal, out),
        ModernFault::Memory => Err(ReportFault::Memory),
    }
}

fn print_lines<W: Sink>(
    alloc: Global,
    names: &Names,
    triples: &Triples,
    out: &mut W,
) -> Result<(), PrintFault>
    ensures { Prints W.written W.faults W.sure out.old out.new (spec.lines_text names.now triples.now) result }
{
    let mut line = Vec::new(alloc);
    for k in 0..triples.len() {
        let Some(triple) = triples.get(k) else {
            unreachable!()
        };
        print_triple(names, triple, &mut line, out)?;
    }
    Ok(())
}

fn tell_lines<W: Sink>(alloc: Global, records: &Records, out: &mut W) -> Result<Status, ReportFault>
    ensures { Writes W.written W.faults W.sure out.old out.new (spec.lines_report records.now) result }
{
    print_lines(alloc, &records.names, &records.triples, out)?;
    Ok(Status::Done)
}

/// Prints the triples as canonical N-Triples, with each legacy triple replaced where it stands by what says the same in
/// today's properties.
///
/// `Refused`, with the code L5 or L4 and the place of the triple, where that makes too many names or triples.
pub fn report_legacy<W: Sink>(
    alloc: Global,
    records: &Records,
    out: &mut W,
) -> Result<Status, ReportFault>
    ensures { Writes W.written W.faults W.sure out.old out.new (legacy_report records.now) result }
{
    match modern(alloc, records) {
        Ok(current) => tell_lines(alloc, &current, out),
        Err(fault) => tell_fault(alloc, fault, out),
    }
}
