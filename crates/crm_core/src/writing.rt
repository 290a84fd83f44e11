// What the commands write of a file that was read.
ghost use Rattle.std.specs.Prelude.{◌≡◌, ◌≢◌, ◌≤◌, length, IfOk};
ghost use Rattle.triple_pool.specs.Pool.{number_from};
ghost use Rattle.report_base.specs.Reports.{Writes};
ghost use Rattle.record_reports.specs.RecordReports.{check_report, convert_report, orders_report, refusal_report};
ghost use Rattle.inference_reports.specs.Explained.{explain_report};
ghost use Rattle.inference_reports.specs.Reasons.{reason_report};
ghost use Rattle.crm_matrix.specs.MatrixTexts.{matrix_report};
ghost use Rattle.crm_certify.specs.Certificates.{WritesCertificate};
ghost use Rattle.crm_certify.specs.Verdicts.{WritesVerdict};

use crate::Archive;
use crm_certify::{CertKind, report_certificate, report_verdict};
use crm_matrix::report_matrix;
use crm_outside::Sink;
use inference_reports::{report_explain, report_reason};
use order_core::Primitive;
use rdf_terms::Refusal;
use record_reports::{report_check, report_convert, report_orders, report_refusal};
use report_base::{ReportFault, Status};
use std::alloc::{AllocError, Global};
use triple_pool::TriplePool;

// The triples of an archive, each under its number there.
fn pool_of(alloc: Global, archive: &Archive) -> Result<TriplePool, AllocError>
    ensures { IfOk result (λ p. p ≡ record { pairs = number_from 0 archive.now.records.triples; used = length archive.now.records.triples }) }
{
    TriplePool::build(alloc, &archive.records().triples)
}

/// Prints the count of triples, the line of each fault and the count of faults.
///
/// `Findings` where there is a fault.
pub fn write_check<W: Sink>(
    alloc: Global,
    archive: &Archive,
    out: &mut W,
) -> Result<Status, ReportFault>
    ensures { Writes W.written W.faults W.sure out.old out.new (check_report archive.now.records) result }
{
    let pool = pool_of(alloc, archive)?;
    report_check(alloc, &archive.records().names, &pool, out)
}

/// Prints the extents, the dates and the orders.
///
/// `Refused`, with the code and the count, where there are more than 2,048 extents, 2,048 dates or 65,536 orders.
pub fn write_orders<W: Sink>(
    alloc: Global,
    archive: &Archive,
    out: &mut W,
) -> Result<Status, ReportFault>
    ensures { Writes W.written W.faults W.sure out.old out.new (orders_report archive.now.records) result }
{
    let pool = pool_of(alloc, archive)?;
    report_orders(alloc, &archive.records().names, &pool, out)
}

/// Prints the triples as canonical N-Triples, in document order.
pub fn write_convert<W: Sink>(
    alloc: Global,
    archive: &Archive,
    out: &mut W,
) -> Result<Status, ReportFault>
    ensures { Writes W.written W.faults W.sure out.old out.new (convert_report archive.now.records) result }
{
    report_convert(alloc, archive.records(), out)
}

/// Prints the code and the place of a refusal.
pub fn write_refusal<W: Sink>(
    alloc: Global,
    refusal: Refusal,
    out: &mut W,
) -> Result<Status, ReportFault>
    ensures { Writes W.written W.faults W.sure out.old out.new (refusal_report refusal) result }
{
    report_refusal(alloc, refusal, out)
}

/// Prints the faults, the orders, and then either the cycle that no placing satisfies, or each relation of two periods
/// that follows, with the chain that shows it, and the placings that break the others.
///
/// `Findings` where there is a fault or the orders are inconsistent; `Refused` as with `write_orders`.
pub fn write_reason<W: Sink>(
    alloc: Global,
    archive: &Archive,
    out: &mut W,
) -> Result<Status, ReportFault>
    ensures { Writes W.written W.faults W.sure out.old out.new (reason_report archive.now.records) result }
{
    report_reason(alloc, archive.records(), out)
}

/// Prints the lines of the periods that `a` and `b` name, and whether a primitive holds from the one to the other in
/// every placing that satisfies the orders: the chain that shows it with the line of each of its orders, or the placing
/// that breaks it.
///
/// A word of `_:b` and a decimal number below 2^32 without leading zero names a blank node; any other is an IRI without
/// brackets. `Usage` where a word names no period, which is printed; `Findings` where the primitive fails or the orders
/// are inconsistent; `Refused` as with `write_orders`.
pub fn write_explain<W: Sink>(
    alloc: Global,
    archive: &Archive,
    a: &str,
    p: Primitive,
    b: &str,
    out: &mut W,
) -> Result<Status, ReportFault>
    requires { a.now ≢ b.now }
    ensures { Writes W.written W.faults W.sure out.old out.new (explain_report archive.now.records a.now p b.now) result }
{
    let pool = pool_of(alloc, archive)?;
    report_explain(alloc, &archive.records().names, &pool, a, p, b, out)
}

/// Prints the extents, the units that periods produced, and then either the cycle that no placing satisfies, or the
/// Harris matrix: the cells of the periods with their levels, and the covers between them.
///
/// `Findings` where the orders are inconsistent; `Refused` as with `write_orders`.
pub fn write_matrix<W: Sink>(
    alloc: Global,
    archive: &Archive,
    out: &mut W,
) -> Result<Status, ReportFault>
    ensures { Writes W.written W.faults W.sure out.old out.new (matrix_report archive.now.records) result }
{
    report_matrix(alloc, archive.records(), out)
}

/// Prints a certificate of what the records say.
///
/// One of orders has version 2; those of classes and of a matrix have version 1. `Findings` where the orders are
/// inconsistent and the certificate is of orders, which then shows their first cycle, or of a matrix, in place of
/// which `inconsistent` and the cycle are printed. `Refused` where a certificate is longer than 67,108,864 bytes, with
/// its length, and for orders and a matrix as with `write_orders`.
pub fn write_certificate<W: Sink>(
    alloc: Global,
    archive: &Archive,
    kind: CertKind,
    out: &mut W,
) -> Result<Status, ReportFault>
    ensures { WritesCertificate W.written W.faults W.sure out.old out.new archive.now.records kind result }
{
    report_certificate(alloc, archive.records(), kind, out)
}

/// Prints whether a certificate fits the records: `verified consistent`, `verified inconsistent`, `verified classes`
/// or `verified matrix`, or `refused certificate CODE at PLACE`.
///
/// `Findings` exactly where it is accepted and holds a cycle. `Refused`, with the limit, where the records have too many
/// extents, dates or orders; this is judged first, also for certificates of classes. Then a certificate that is no
/// UTF-8 is refused with U1, and each other by its first fault, K1 to K6.
pub fn write_verdict<W: Sink>(
    alloc: Global,
    archive: &Archive,
    cert: &[u8],
    out: &mut W,
) -> Result<Status, ReportFault>
    requires { length cert.now ≤ 67108864 }
    ensures { WritesVerdict W.written W.faults W.sure out.old out.new archive.now.records cert.now result }
{
    report_verdict(alloc, archive.records(), cert, out)
}
