// The report that judges certificates.
ghost use Rattle.std.specs.Prelude.{◌≡◌, ◌≤◌, IfOk, IfErr, MatchOption, length, string_bytes};
ghost use Rattle.certificate_checker.specs.Texts.{CertificateForm, IsRefusedAs};
ghost use Rattle.triple_pool.specs.Pool.{number_from};
ghost use Rattle.report_base.specs.Reports.{IsEnding, Report, Writes};
ghost use Rattle.report_base.specs.Surveys.{IsSurveyOf};
ghost use Rattle.crm_certify.specs.Verdicts.{IsBorneOut, WritesJudged, WritesVerdict};
ghost use Rattle.crm_certify.specs.Verdicts as spec;

use crate::types::{due_numbers, type_rows};
use crate::utf8::check_utf8;
use certificate_checker::{CertRefusal, Verdict, verify};
use crm_outside::{Sink, print_text};
use rdf_terms::Records;
use report_base::{ReportFault, Status, Survey, take_survey, tell_passed};
use std::alloc::{AllocError, Global};

fn judge(
    alloc: Global,
    records: &Records,
    survey: &Survey,
    cert: &[u8],
) -> Result<Verdict, CertRefusal>
    requires short { length cert.now ≤ 67108864 }
    requires survey { IsSurveyOf records.now.names (number_from 0 records.now.triples) survey.now }
    ensures borne_out { IfOk result (IsBorneOut records.now cert.now) }
    ensures refused { IfErr result (IsRefusedAs CertificateForm 64 cert.now 0) }
{
    let Ok(types) = type_rows(alloc, records) else {
        return Err(CertRefusal::Memory);
    };
    let Ok(due) = due_numbers(alloc, &survey.faults) else {
        return Err(CertRefusal::Memory);
    };
    verify(
        alloc,
        survey.dossier.orders(),
        survey.dossier.periods(),
        &types,
        &due,
        cert,
    )
}

fn verdict_text(verdict: Verdict) -> &'static [u8]
    ensures { result.now ≡ spec.verdict_text verdict }
{
    match verdict {
        Verdict::Consistent => b"verified consistent\n",
        Verdict::Inconsistent => b"verified inconsistent\n",
        Verdict::Classes => b"verified classes\n",
        Verdict::Matrix => b"verified matrix\n",
    }
}

fn verdict_status(verdict: Verdict) -> Status
    ensures status { result ≡ spec.verdict_status verdict }
    ensures ending { IsEnding result }
{
    match verdict {
        Verdict::Inconsistent => Status::Findings,
        _ => Status::Done,
    }
}

fn tell_verdict<W: Sink>(verdict: Verdict, out: &mut W) -> Result<Status, ReportFault>
    ensures { Writes W.written W.faults W.sure out.old out.new (spec.verdict_report verdict) result }
{
    print_text(out, verdict_text(verdict))?;
    Ok(verdict_status(verdict))
}

fn place_line(alloc: Global, code: &str, at: u64) -> Result<String, AllocError>
    ensures { IfOk result (λ s. string_bytes s ≡ (spec.refused_at code.now at).text) }
{
    format!(in alloc; "refused certificate {code} at {at}\n")
}

fn tell_place<W: Sink>(
    alloc: Global,
    code: &str,
    at: u64,
    out: &mut W,
) -> Result<Status, ReportFault>
    ensures { Writes W.written W.faults W.sure out.old out.new (spec.refused_at code.now at) result }
{
    let line = place_line(alloc, code, at)?;
    print_text(out, line.as_bytes())?;
    Ok(Status::Refused)
}

fn tell_refusal<W: Sink>(
    alloc: Global,
    refusal: CertRefusal,
    out: &mut W,
) -> Result<Status, ReportFault>
    ensures { MatchOption (spec.refusal_report refusal) ((r : Report) → Writes W.written W.faults W.sure out.old out.new r result)
        (λ r. Writes W.written W.faults W.sure out.old out.new r result) }
{
    match refusal {
        CertRefusal::K1(at) => tell_place(alloc, "K1", at, out),
        CertRefusal::K2(at) => tell_place(alloc, "K2", at, out),
        CertRefusal::K3(at) => tell_place(alloc, "K3", at, out),
        CertRefusal::K4(at) => tell_place(alloc, "K4", at, out),
        CertRefusal::K5(at) => tell_place(alloc, "K5", at, out),
        CertRefusal::K6(at) => tell_place(alloc, "K6", at, out),
        CertRefusal::Memory => Err(ReportFault::Memory),
    }
}

fn tell_judgement<W: Sink>(
    alloc: Global,
    records: &Records,
    survey: &Survey,
    cert: &[u8],
    out: &mut W,
) -> Result<Status, ReportFault>
    requires short { length cert.now ≤ 67108864 }
    requires survey { IsSurveyOf records.now.names (number_from 0 records.now.triples) survey.now }
    ensures { WritesJudged W.written W.faults W.sure out.old out.new records.now cert.now result }
{
    if let Err(bad) = check_utf8(cert) {
        return tell_place(alloc, "U1", bad.at, out);
    }
    match judge(alloc, records, survey, cert) {
        Ok(verdict) => tell_verdict(verdict, out),
        Err(refusal) => tell_refusal(alloc, refusal, out),
    }
}

/// Prints whether a certificate fits the records: `verified consistent`, `verified inconsistent`, `verified classes`
/// or `verified matrix`, or `refused certificate CODE at PLACE`.
///
/// `Findings` exactly where it is accepted and holds a cycle. `Refused`, with the limit, where the records have too many
/// extents, dates or orders; this is judged first, also for certificates of classes. Then a certificate that is no
/// UTF-8 is refused with U1, and each other by its first fault, K1 to K6.
pub fn report_verdict<W: Sink>(
    alloc: Global,
    records: &Records,
    cert: &[u8],
    out: &mut W,
) -> Result<Status, ReportFault>
    requires { length cert.now ≤ 67108864 }
    ensures { WritesVerdict W.written W.faults W.sure out.old out.new records.now cert.now result }
{
    match take_survey(alloc, records) {
        Ok(survey) => tell_judgement(alloc, records, &survey, cert, out),
        Err(fault) => tell_passed(alloc, fault, out),
    }
}
