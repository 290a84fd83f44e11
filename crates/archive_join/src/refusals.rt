// What is printed of a file that is refused.
ghost use Rattle.std.specs.Prelude.{◌≡◌, IfOk, string_bytes};
ghost use Rattle.report_base.specs.Reports.{Writes};
ghost use Rattle.archive_join.specs.Refusals.{file_refusal_report, file_refusal_text};

use crm_outside::{Sink, print_text};
use rdf_terms::Refusal;
use record_reports::code_name;
use report_base::{ReportFault, Status};
use std::alloc::{AllocError, Global};

fn file_refusal_line(alloc: Global, k: u64, refusal: Refusal) -> Result<String, AllocError>
    ensures { IfOk result (λ s. string_bytes s ≡ file_refusal_text k refusal) }
{
    let code = code_name(refusal.code);
    let at = refusal.at;
    format!(in alloc; "refused f{k} {code} at {at}\n")
}

/// Prints the number of a file, counted from 0, with the code and the place of its refusal.
pub fn report_file_refusal<W: Sink>(
    alloc: Global,
    k: u64,
    refusal: Refusal,
    out: &mut W,
) -> Result<Status, ReportFault>
    ensures { Writes W.written W.faults W.sure out.old out.new (file_refusal_report k refusal) result }
{
    let line = file_refusal_line(alloc, k, refusal)?;
    print_text(out, line.as_bytes())?;
    Ok(Status::Refused)
}
