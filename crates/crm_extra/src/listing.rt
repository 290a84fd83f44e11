// The triples of a file by lines and columns.
ghost use Rattle.report_base.specs.Reports.{Writes};
ghost use Rattle.line_reports.specs.Lines.{lines_report};

use crm_core::{Archive, ReportFault, Status};
use crm_outside::Sink;
use line_reports::report_lines;
use std::alloc::Global;

/// Prints the triples as canonical N-Triples, each behind its number and the line and column of its place in the bytes of
/// the file.
pub fn write_lines<W: Sink>(
    alloc: Global,
    archive: &Archive,
    bytes: &[u8],
    out: &mut W,
) -> Result<Status, ReportFault>
    ensures { Writes W.written W.faults W.sure out.old out.new (lines_report archive.now.records bytes.now) result }
{
    report_lines(alloc, archive.records(), bytes, out)
}
