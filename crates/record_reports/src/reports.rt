// The reports.
ghost use Rattle.std.specs.Prelude.{◌≡◌, IfOk, length, string_bytes};
ghost use Rattle.report_base.specs.Reports.{Writes};
ghost use Rattle.record_reports.specs.RecordReports.{check_of, convert_report, dossier_of, orders_of, refusal_report};
ghost use Rattle.record_reports.specs.RecordReports as spec;

use crate::codes::code_name;
use crate::faults::print_faults;
use crate::printing::print_triples;
use boundary_orders::Dossier;
use crm_outside::{Sink, print_text};
use crm_type_check::faults;
use rdf_terms::{Names, Records, Refusal};
use report_base::{ReportFault, Status, print_dossier, status_of, survey_pool, tell_passed};
use std::alloc::{AllocError, Global};
use triple_pool::TriplePool;

/// Prints the count of triples, the line of each fault and the count of faults; a fault names its triple by the number
/// that the triple has in the pool.
///
/// `Findings` where there is a fault.
pub fn report_check<W: Sink>(
    alloc: Global,
    names: &Names,
    pool: &TriplePool,
    out: &mut W,
) -> Result<Status, ReportFault>
    ensures { Writes W.written W.faults W.sure out.old out.new (check_of names.now pool.now.pairs) result }
{
    let faults = faults(alloc, names, pool)?;
    print_faults(alloc, pool.len(), &faults, out)?;
    Ok(status_of(&faults))
}

fn tell_dossier<W: Sink>(
    alloc: Global,
    names: &Names,
    dossier: &Dossier,
    out: &mut W,
) -> Result<Status, ReportFault>
    requires { dossier.now.orders.extents ≡ length dossier.now.extents }
    ensures { Writes W.written W.faults W.sure out.old out.new (dossier_of names.now dossier.now) result }
{
    print_dossier(alloc, names, dossier, out)?;
    Ok(Status::Done)
}

/// Prints the extents, the dates and the orders; an order names its triple by the number that the triple has in the
/// pool.
///
/// `Refused`, with the code and the count, where there are more than 2,048 extents, 2,048 dates or 65,536 orders.
pub fn report_orders<W: Sink>(
    alloc: Global,
    names: &Names,
    pool: &TriplePool,
    out: &mut W,
) -> Result<Status, ReportFault>
    ensures { Writes W.written W.faults W.sure out.old out.new (orders_of names.now pool.now.pairs) result }
{
    match survey_pool(alloc, names, pool) {
        Ok(survey) => tell_dossier(alloc, names, &survey.dossier, out),
        Err(fault) => tell_passed(alloc, fault, out),
    }
}

/// Prints the triples as canonical N-Triples, in document order.
pub fn report_convert<W: Sink>(
    alloc: Global,
    records: &Records,
    out: &mut W,
) -> Result<Status, ReportFault>
    ensures { Writes W.written W.faults W.sure out.old out.new (convert_report records.now) result }
{
    print_triples(alloc, &records.names, &records.triples, out)?;
    Ok(Status::Done)
}

fn refusal_line(alloc: Global, refusal: Refusal) -> Result<String, AllocError>
    ensures { IfOk result (λ s. string_bytes s ≡ spec.refusal_text (spec.code_name refusal.code) refusal.at) }
{
    let code = code_name(refusal.code);
    let at = refusal.at;
    format!(in alloc; "refused {code} at {at}\n")
}

/// Prints the code and the place of a refusal.
pub fn report_refusal<W: Sink>(
    alloc: Global,
    refusal: Refusal,
    out: &mut W,
) -> Result<Status, ReportFault>
    ensures { Writes W.written W.faults W.sure out.old out.new (refusal_report refusal) result }
{
    let line = refusal_line(alloc, refusal)?;
    print_text(out, line.as_bytes())?;
    Ok(Status::Refused)
}
