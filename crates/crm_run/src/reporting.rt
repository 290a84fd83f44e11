// Reports on the records of a file.
ghost use Rattle.std.specs.Prelude.{◌≡◌, IfSome, IfOk, IsErrOf, Some};
ghost use Rattle.crm_outside.specs.Causes.{Rose};
ghost use Rattle.report_base.specs.Reports.{Writes, IsEnding};
ghost use Rattle.crm_run.specs.Outcomes.{NamesNoPeriod};
ghost use Rattle.command_words.specs.Tasks.{IsSound, IsSoundQuery};
ghost use Rattle.crm_run.specs.Report.{records_report};
ghost use Rattle.crm_run.specs.Runs.{Runs};

use crate::telling::{ended, print_archive_fault, text_in};
use command_words::{Query, Task};
use crm_core::{
    Archive, ReportFault, Status, write_certificate, write_check, write_convert, write_explain,
    write_matrix, write_orders, write_reason,
};
use crm_extra::{
    write_allen, write_allen_pair, write_bounds, write_conflicts, write_dates, write_legacy,
    write_when,
};
use crm_outside::{Shelf, Sink, Text};
use std::alloc::Global;

/// Writes what is said of the records of a file.
pub(crate) fn write_report<W: Sink>(
    alloc: Global,
    query: &Query,
    archive: &Archive,
    out: &mut W,
) -> Result<Status, ReportFault>
    requires { IsSoundQuery query.now }
    ensures report { IfSome (records_report query.now archive.now.records) (λ r. Writes W.written W.faults W.sure out.old out.new r result) }
    ensures ending { IfOk result IsEnding }
    ensures usage { IfOk result (λ s. s ≡ Status.Usage → NamesNoPeriod query.now archive.now.records) }
    ensures failed { IsErrOf result ReportFault.Failed → Rose (W.faults out.old) (W.faults out.new) }
{
    match query {
        Query::Orders => write_orders(alloc, archive, out),
        Query::Check => write_check(alloc, archive, out),
        Query::Reason => write_reason(alloc, archive, out),
        Query::Explain { a, code, b } => {
            write_explain(alloc, archive, a.as_str(), *code, b.as_str(), out)
        }
        Query::Certify { kind } => write_certificate(alloc, archive, *kind, out),
        Query::Matrix => write_matrix(alloc, archive, out),
        Query::Convert => write_convert(alloc, archive, out),
        Query::Bounds => write_bounds(alloc, archive, out),
        Query::Dates => write_dates(alloc, archive, out),
        Query::When { t } => write_when(alloc, archive, *t, out),
        Query::Conflicts => write_conflicts(alloc, archive, out),
        Query::Legacy => write_legacy(alloc, archive, out),
        Query::Allen => write_allen(alloc, archive, out),
        Query::AllenPair { a, b } => write_allen_pair(alloc, archive, a.as_str(), b.as_str(), out),
    }
}

/// Reads a file, and reports on its records.
pub(crate) fn run_report<S: Shelf, W: Sink>(
    alloc: Global,
    base: &Option<Text>,
    file: &str,
    query: &Query,
    shelf: &mut S,
    out: &mut W,
) -> Status
    requires { IsSound (Task.Report base.now file.now query.now) }
    ensures { Runs W.written W.faults W.sure out.old out.new (S.files shelf.old) (S.honest shelf.old)
        (Rose (S.faults shelf.old) (S.faults shelf.new)) (Some (Task.Report base.now file.now query.now)) result }
{
    match Archive::read(alloc, shelf, file, text_in(base)) {
        Ok(archive) => ended(write_report(alloc, query, &archive, out)),
        Err(fault) => print_archive_fault(alloc, file, fault, out),
    }
}
