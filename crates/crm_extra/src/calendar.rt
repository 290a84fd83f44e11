// The dates of the calendar around the periods of a file.
ghost use Rattle.report_base.specs.Reports.{Writes};
ghost use Rattle.calendar_reports.specs.Dates.{dates_report};

use calendar_reports::report_dates;
use crm_core::{Archive, ReportFault, Status};
use crm_outside::Sink;
use std::alloc::Global;

/// Prints the cycle that no placing satisfies, or each period with the dates of the calendar between which it starts and
/// ends, in UTC.
///
/// `Findings` and `Refused` as with `write_bounds`.
pub fn write_dates<W: Sink>(
    alloc: Global,
    archive: &Archive,
    out: &mut W,
) -> Result<Status, ReportFault>
    ensures { Writes W.written W.faults W.sure out.old out.new (dates_report archive.now.records) result }
{
    report_dates(alloc, archive.records(), out)
}
