// Relations of earlier releases, and Allen's.
ghost use Rattle.report_base.specs.Reports.{Writes};
ghost use Rattle.allen_reports.specs.Reports.{allen_pair_report, allen_report, legacy_report};

use allen_reports::{report_allen, report_allen_pair, report_legacy};
use crm_core::{Archive, ReportFault, Status};
use crm_outside::Sink;
use std::alloc::Global;

/// Prints the triples as canonical N-Triples, where each triple with a property of P114 to P120, or an inverse of P115 to
/// P120, is replaced by those of today's properties that say the same.
///
/// `Refused`, with the code and the place, where the triples or names become too many.
pub fn write_legacy<W: Sink>(
    alloc: Global,
    archive: &Archive,
    out: &mut W,
) -> Result<Status, ReportFault>
    ensures { Writes W.written W.faults W.sure out.old out.new (legacy_report archive.now.records) result }
{
    report_legacy(alloc, archive.records(), out)
}

/// Prints the extents, and then the cycle that no placing satisfies, or for each two periods which of Allen's thirteen
/// relations some placing has between them. Legacy relations are replaced first, as in `write_legacy`.
///
/// `Findings` where the orders are inconsistent; `Refused` as with `write_legacy`, and with the code and the count where
/// there are more than 2,048 extents, 2,048 dates or 65,536 orders.
pub fn write_allen<W: Sink>(
    alloc: Global,
    archive: &Archive,
    out: &mut W,
) -> Result<Status, ReportFault>
    ensures { Writes W.written W.faults W.sure out.old out.new (allen_report archive.now.records) result }
{
    report_allen(alloc, archive.records(), out)
}

/// Prints the lines of the periods that `a` and `b` name, and then the cycle that no placing satisfies, or each of Allen's
/// relations that some placing has from the one to the other, with such a placing. Legacy relations are replaced first, as
/// in `write_legacy`.
///
/// The words are those of `write_explain`. `Usage` where one names no period, which is printed; `Findings` and `Refused`
/// as with `write_allen`.
pub fn write_allen_pair<W: Sink>(
    alloc: Global,
    archive: &Archive,
    a: &str,
    b: &str,
    out: &mut W,
) -> Result<Status, ReportFault>
    ensures { Writes W.written W.faults W.sure out.old out.new (allen_pair_report archive.now.records a.now b.now) result }
{
    report_allen_pair(alloc, archive.records(), a, b, out)
}
