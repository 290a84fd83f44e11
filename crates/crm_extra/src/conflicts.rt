// The contradictions of a file.
ghost use Rattle.report_base.specs.Reports.{Writes};
ghost use Rattle.conflict_reports.specs.Texts.{conflicts_report};

use conflict_reports::report_conflicts;
use crm_core::{Archive, ReportFault, Status};
use crm_outside::Sink;
use std::alloc::Global;

/// Prints the orders, and then that they are consistent, or their tangles, each with its first cycle, and the suspects:
/// the statements without which all orders can hold at once.
///
/// `Findings` and `Refused` as with `write_bounds`.
pub fn write_conflicts<W: Sink>(
    alloc: Global,
    archive: &Archive,
    out: &mut W,
) -> Result<Status, ReportFault>
    ensures { Writes W.written W.faults W.sure out.old out.new (conflicts_report archive.now.records) result }
{
    report_conflicts(alloc, archive.records(), out)
}
