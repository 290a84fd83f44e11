// The report of contradictions.
ghost use Rattle.std.specs.Prelude.{◌≡◌, length, IfOk};
ghost use Rattle.crm_outside.specs.Printing.{Prints};
ghost use Rattle.order_conflicts.specs.Conflicts.{conflicts_in};
ghost use Rattle.report_base.specs.Reports.{IsEnding, Writes};
ghost use Rattle.conflict_reports.specs.Texts.{conflicts_report, found_report, outcome_status, report_text};

use crate::printing::print_outcome;
use boundary_orders::Dossier;
use crm_outside::{PrintFault, Sink};
use dossier_analysis::analyse;
use order_conflicts::{Conflicts, find_conflicts};
use rdf_terms::{Names, Records};
use report_base::{ReportFault, Status, print_dossier, take_survey, tell_passed};
use std::alloc::{AllocError, Global};

fn status_of(outcome: &Option<Conflicts>) -> Status
    ensures status { result ≡ outcome_status outcome.now }
    ensures ending { IsEnding result }
{
    match outcome {
        Some(_) => Status::Findings,
        None => Status::Done,
    }
}

fn conflicts_of(alloc: Global, dossier: &Dossier) -> Result<Option<Conflicts>, AllocError>
    ensures { IfOk result (λ o. o ≡ conflicts_in dossier.now.orders) }
{
    let analysis = analyse(alloc, dossier)?;
    find_conflicts(&analysis)
}

fn print_report<W: Sink>(
    alloc: Global,
    names: &Names,
    dossier: &Dossier,
    outcome: &Option<Conflicts>,
    out: &mut W,
) -> Result<(), PrintFault>
    requires counted { dossier.now.orders.extents ≡ length dossier.now.extents }
    requires outcome { outcome.now ≡ conflicts_in dossier.now.orders }
    ensures { Prints W.written W.faults W.sure out.old out.new (report_text names.now dossier.now) result }
{
    print_dossier(alloc, names, dossier, out)?;
    print_outcome(alloc, outcome, out)
}

fn tell_conflicts<W: Sink>(
    alloc: Global,
    names: &Names,
    dossier: &Dossier,
    out: &mut W,
) -> Result<Status, ReportFault>
    requires { dossier.now.orders.extents ≡ length dossier.now.extents }
    ensures { Writes W.written W.faults W.sure out.old out.new (found_report names.now dossier.now) result }
{
    let outcome = conflicts_of(alloc, dossier)?;
    print_report(alloc, names, dossier, &outcome, out)?;
    Ok(status_of(&outcome))
}

/// Prints the extents, the dates and the orders, and then `consistent`, or each tangle with its first cycle and the
/// suspects.
///
/// `Findings` where the orders are inconsistent; `Refused` as with `report_orders`. Faults make no findings.
pub fn report_conflicts<W: Sink>(
    alloc: Global,
    records: &Records,
    out: &mut W,
) -> Result<Status, ReportFault>
    ensures { Writes W.written W.faults W.sure out.old out.new (conflicts_report records.now) result }
{
    match take_survey(alloc, records) {
        Ok(survey) => tell_conflicts(alloc, &records.names, &survey.dossier, out),
        Err(fault) => tell_passed(alloc, fault, out),
    }
}
