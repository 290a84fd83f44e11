// What is printed beside reports, and how a run ends.
ghost use Rattle.std.specs.Prelude.{◌≡◌, IfOk, string_bytes};
ghost use Rattle.std.specs.Option.{option_map};
ghost use Rattle.crm_run.specs.Outcomes as spec;
ghost use Rattle.crm_run.specs.Outcomes.{Outcome, IsTold, IsToldBy};
ghost use Rattle.archive_join.specs.Refusals.{file_refusal_report};
ghost use Rattle.crm_run.specs.Report.{read_fault_report, read_fault_text};

use crate::joining::PartFault;
use archive_join::report_file_refusal;
use crm_core::{ArchiveFault, ReportFault, Status, write_refusal};
use crm_outside::{Sink, Text, write_all};
use std::alloc::{AllocError, Global};

/// Prints a whole report.
pub(crate) fn print_report<W: Sink>(out: &mut W, text: &[u8], status: Status) -> Status
    requires write { status ≡ Status.WriteFault → ⊥ }
    requires memory { status ≡ Status.Memory → ⊥ }
    ensures { Outcome W.written W.faults W.sure out.old out.new (record { status = status; text = text.now }) result }
{
    match write_all(out, text) {
        Ok(()) => status,
        Err(_) => Status::WriteFault,
    }
}

fn read_fault_line(alloc: Global, name: &str) -> Result<String, AllocError>
    ensures { IfOk result (λ s. string_bytes s ≡ read_fault_text name.now) }
{
    format!(in alloc; "read fault {name}\n")
}

/// Prints the line of a read fault.
pub(crate) fn print_read_fault<W: Sink>(alloc: Global, file: &str, out: &mut W) -> Status
    ensures { Outcome W.written W.faults W.sure out.old out.new (read_fault_report file.now) result }
{
    match read_fault_line(alloc, file) {
        Ok(line) => print_report(out, line.as_bytes(), Status::ReadFault),
        Err(_) => Status::Memory,
    }
}

/// The status of a report that was written, or broke off.
pub(crate) fn ended(written: Result<Status, ReportFault>) -> Status
    ensures { result ≡ spec.ended written }
{
    match written {
        Ok(status) => status,
        Err(ReportFault::Failed) => Status::WriteFault,
        Err(ReportFault::Memory) => Status::Memory,
    }
}

/// Says why a file was not read.
pub(crate) fn print_archive_fault<W: Sink>(
    alloc: Global,
    file: &str,
    fault: ArchiveFault,
    out: &mut W,
) -> Status
    ensures { IsTold W.written W.faults W.sure out.old out.new file.now fault result }
{
    match fault {
        ArchiveFault::Refused(refusal) => ended(write_refusal(alloc, refusal, out)),
        ArchiveFault::Failed => print_read_fault(alloc, file, out),
        ArchiveFault::Memory => Status::Memory,
    }
}

/// Says why one of several files was not read.
pub(crate) fn print_part_fault<W: Sink>(
    alloc: Global,
    part: PartFault,
    file: &str,
    out: &mut W,
) -> Status
    ensures { IsToldBy W.written W.faults W.sure out.old out.new (file_refusal_report part.number) file.now part.fault result }
{
    match part.fault {
        ArchiveFault::Refused(refusal) => {
            ended(report_file_refusal(alloc, part.number as u64, refusal, out))
        }
        ArchiveFault::Failed => print_read_fault(alloc, file, out),
        ArchiveFault::Memory => Status::Memory,
    }
}

/// The base that a command names, if it names one.
pub(crate) fn text_in(base: &Option<Text>) -> Option<&str>
    ensures { option_map (λ b. b.now) result ≡ base.now }
{
    match base {
        Some(base) => Some(base.as_str()),
        None => None,
    }
}
