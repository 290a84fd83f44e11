// The report that writes certificates.
ghost use Rattle.std.specs.Prelude.{◌≡◌, ◌≤◌, ◌^◌, length};
ghost use Rattle.order_analysis.specs.Subjects.{cycle_of};
ghost use Rattle.report_base.specs.Reports.{Writes};
ghost use Rattle.crm_certify.specs.Certificates.{WritesCertificate, WritesMatrix, WritesMatrixOf, orders_certificate, orders_report};
ghost use Rattle.crm_certify.specs.Lengths.{WritesSome};

use crate::kinds::CertKind;
use crate::telling::{tell_consistent, tell_cycle, tell_drafts, tell_inconsistent, tell_matrix};
use crate::types::{due_numbers, type_rows};
use boundary_orders::Dossier;
use class_certificates::{ClassPieces, Types};
use crm_outside::Sink;
use dossier_analysis::analyse;
use order_analysis::Analysis;
use rdf_terms::Records;
use report_base::{ReportFault, Status, find_faults, take_survey, tell_passed};
use std::alloc::{AllocError, Global};

fn tell_orders<W: Sink>(analysis: &Analysis, out: &mut W) -> Result<Status, ReportFault>
    ensures { Writes W.written W.faults W.sure out.old out.new (orders_report analysis.now.set analysis.now.periods) result }
{
    match analysis.cycle() {
        Some(chain) => tell_cycle(analysis.alloc(), chain, out),
        None => tell_consistent(analysis, out),
    }
}

fn tell_orders_found<W: Sink>(
    alloc: Global,
    dossier: &Dossier,
    out: &mut W,
) -> Result<Status, ReportFault>
    ensures { Writes W.written W.faults W.sure out.old out.new (orders_report dossier.now.orders dossier.now.periods) result }
{
    let analysis = analyse(alloc, dossier)?;
    tell_orders(&analysis, out)
}

fn tell_cells<W: Sink>(analysis: &Analysis, out: &mut W) -> Result<Status, ReportFault>
    requires { length analysis.now.periods ≤ 2 ^ 16 }
    ensures { WritesMatrix W.written W.faults W.sure out.old out.new (cycle_of analysis.now.set) result }
{
    match analysis.cycle() {
        Some(chain) => tell_inconsistent(analysis.alloc(), chain, out),
        None => tell_matrix(analysis, out),
    }
}

fn tell_cells_found<W: Sink>(
    alloc: Global,
    dossier: &Dossier,
    out: &mut W,
) -> Result<Status, ReportFault>
    ensures { WritesMatrix W.written W.faults W.sure out.old out.new (cycle_of dossier.now.orders) result }
{
    let analysis = analyse(alloc, dossier)?;
    tell_cells(&analysis, out)
}

fn types_of(alloc: Global, records: &Records) -> Result<Types, AllocError> {
    Types::build(alloc, type_rows(alloc, records)?)
}

fn tell_classes<W: Sink>(
    alloc: Global,
    records: &Records,
    out: &mut W,
) -> Result<Status, ReportFault>
    ensures { WritesSome W.written W.faults W.sure out.old out.new result }
{
    let faults = find_faults(alloc, records)?;
    let types = types_of(alloc, records)?;
    let due = due_numbers(alloc, &faults)?;
    let mut first = ClassPieces::new(alloc, &types, &due);
    let mut second = ClassPieces::new(alloc, &types, &due);
    tell_drafts(alloc, &mut first, &mut second, out)
}

// Prints the certificate of the orders of records.
fn tell_orders_of<W: Sink>(
    alloc: Global,
    records: &Records,
    out: &mut W,
) -> Result<Status, ReportFault>
    ensures { Writes W.written W.faults W.sure out.old out.new (orders_certificate records.now) result }
{
    match take_survey(alloc, records) {
        Ok(survey) => tell_orders_found(alloc, &survey.dossier, out),
        Err(fault) => tell_passed(alloc, fault, out),
    }
}

// Prints the certificate of the matrix of records.
fn tell_matrix_of<W: Sink>(
    alloc: Global,
    records: &Records,
    out: &mut W,
) -> Result<Status, ReportFault>
    ensures { WritesMatrixOf W.written W.faults W.sure out.old out.new records.now result }
{
    match take_survey(alloc, records) {
        Ok(survey) => tell_cells_found(alloc, &survey.dossier, out),
        Err(fault) => tell_passed(alloc, fault, out),
    }
}

/// Prints a certificate of what the records say.
///
/// One of orders has version 2; those of classes and of a matrix have version 1. `Findings` where the orders are
/// inconsistent and the certificate is of orders, which then shows their first cycle, or of a matrix, in place of
/// which `inconsistent` and the cycle are printed. `Refused` where a certificate is longer than 67,108,864 bytes, with
/// its length, and, for orders and a matrix, with the code and the count where there are more than 2,048 extents, 2,048
/// dates or 65,536 orders.
pub fn report_certificate<W: Sink>(
    alloc: Global,
    records: &Records,
    kind: CertKind,
    out: &mut W,
) -> Result<Status, ReportFault>
    ensures { WritesCertificate W.written W.faults W.sure out.old out.new records.now kind result }
{
    match kind {
        CertKind::Orders => tell_orders_of(alloc, records, out),
        CertKind::Classes => tell_classes(alloc, records, out),
        CertKind::Matrix => tell_matrix_of(alloc, records, out),
    }
}
