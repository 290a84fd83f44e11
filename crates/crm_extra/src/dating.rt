// The dates around the boundaries of a file, and its periods at an instant.
ghost use Rattle.std.specs.Prelude.{pos, ◌^◌, ◌<ℤ◌, ◌-ℤ◌};
ghost use Rattle.report_base.specs.Reports.{Writes};
ghost use Rattle.dating_reports.specs.Bounds.{bounds_report};
ghost use Rattle.dating_reports.specs.When.{when_report};

use crm_core::{Archive, ReportFault, Status};
use crm_outside::Sink;
use dating_reports::{report_bounds, report_when};
use std::alloc::Global;

/// Prints the orders, and then the cycle that no placing satisfies, or of each boundary the last date that it must come
/// after and the first that it must come before, with the chains that show it, and a placing that delays it.
///
/// `Findings` where the orders are inconsistent; `Refused`, with the code and the count, where there are more than 2,048
/// extents, 2,048 dates or 65,536 orders.
pub fn write_bounds<W: Sink>(
    alloc: Global,
    archive: &Archive,
    out: &mut W,
) -> Result<Status, ReportFault>
    ensures { Writes W.written W.faults W.sure out.old out.new (bounds_report archive.now.records) result }
{
    report_bounds(alloc, archive.records(), out)
}

/// Prints the extents, the instant `t` in nanoseconds since 1970-01-01T00:00:00Z, and then the cycle that no placing
/// satisfies, or of each period whether it is surely under way at the instant, never, or maybe, with a placing in which it
/// is and one in which it is not. The instant counts for no limit.
///
/// `Findings` where the orders are inconsistent; `Refused` as with `write_bounds`.
pub fn write_when<W: Sink>(
    alloc: Global,
    archive: &Archive,
    t: i128,
    out: &mut W,
) -> Result<Status, ReportFault>
    requires after { (pos 0 -ℤ pos (2 ^ 100)) <ℤ t }
    requires before { t <ℤ pos (2 ^ 100) }
    ensures { Writes W.written W.faults W.sure out.old out.new (when_report archive.now.records t) result }
{
    report_when(alloc, archive.records(), t, out)
}
