// The report of what follows.
ghost use Rattle.std.specs.Prelude.{◌≡◌, IfOk, is_none};
ghost use Rattle.crm_outside.specs.Printing.{Prints};
ghost use Rattle.triple_pool.specs.Pool.{number_from};
ghost use Rattle.order_analysis.specs.Subjects.{cycle_of};
ghost use Rattle.report_base.specs.Reports.{IsEnding, Writes, findings_from};
ghost use Rattle.report_base.specs.Surveys.{IsSurveyOf};
ghost use Rattle.inference_reports.specs.Reasons.{reason_report, reasons_report};
ghost use Rattle.inference_reports.specs.Reasons as spec;

use crm_outside::{PrintFault, Sink};
use crm_type_check::Faults;
use dossier_analysis::analyse;
use order_analysis::Analysis;
use rdf_terms::Records;
use reason_report::print_reason;
use report_base::{
    ReportFault, Status, Survey, print_check, print_dossier, status_of, take_survey, tell_passed,
};
use std::alloc::Global;

fn print_reasons<W: Sink>(
    records: &Records,
    survey: &Survey,
    analysis: &Analysis,
    out: &mut W,
) -> Result<bool, PrintFault>
    requires survey { IsSurveyOf records.now.names (number_from 0 records.now.triples) survey.now }
    requires analysis { analysis.now ≡ record { set = (findings_from records.now).orders; periods = (findings_from records.now).periods } }
    ensures prints { Prints W.written W.faults W.sure out.old out.new (spec.reason_text records.now) result }
    ensures consistent { IfOk result (λ b. b ≡ is_none (cycle_of (findings_from records.now).orders)) }
{
    let alloc = analysis.alloc();
    print_check(alloc, &records.triples, &survey.faults, out)?;
    print_dossier(alloc, &records.names, &survey.dossier, out)?;
    print_reason(analysis, out)
}

fn reason_status(faults: &Faults, consistent: bool) -> Status
    ensures status { result ≡ spec.status_when consistent faults.now }
    ensures ending { IsEnding result }
{
    if consistent {
        status_of(faults)
    } else {
        Status::Findings
    }
}

fn tell_reasons<W: Sink>(
    alloc: Global,
    records: &Records,
    survey: &Survey,
    out: &mut W,
) -> Result<Status, ReportFault>
    requires { IsSurveyOf records.now.names (number_from 0 records.now.triples) survey.now }
    ensures { Writes W.written W.faults W.sure out.old out.new (reasons_report records.now) result }
{
    let analysis = analyse(alloc, &survey.dossier)?;
    let consistent = print_reasons(records, survey, &analysis, out)?;
    Ok(reason_status(&survey.faults, consistent))
}

/// Prints the faults, the orders, and then either the cycle that no placing satisfies, or each relation of two periods
/// that follows, with the chain that shows it, and the placings that break the others.
///
/// `Findings` where there is a fault or the orders are inconsistent; `Refused` as with `report_orders`.
pub fn report_reason<W: Sink>(
    alloc: Global,
    records: &Records,
    out: &mut W,
) -> Result<Status, ReportFault>
    ensures { Writes W.written W.faults W.sure out.old out.new (reason_report records.now) result }
{
    match take_survey(alloc, records) {
        Ok(survey) => tell_reasons(alloc, records, &survey, out),
        Err(fault) => tell_passed(alloc, fault, out),
    }
}
