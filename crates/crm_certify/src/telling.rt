// Certificates that are written within their length.
ghost use Rattle.std.specs.Prelude.{◌≡◌, ◌≤◌, ◌^◌, length};
ghost use Rattle.order_laws.specs.Chains.{HasCycle};
ghost use Rattle.reason_report.specs.Reason.{inconsistent_text};
ghost use Rattle.order_certificates.specs.Cycles.{cycle_text};
ghost use Rattle.order_certificates.specs.OrderCertificates.{consistent_text};
ghost use Rattle.report_base.specs.declared.status.Status.TheVariants.{Done, Findings as HasFindings};
ghost use Rattle.report_base.specs.Reports.{Writes};
ghost use Rattle.crm_certify.specs.Lengths.{WritesSome, within_length};

use chain_certificate::Chain;
use crm_outside::{Sink, print_text};
use harris_matrix::Matrix;
use matrix_certificates::{MatrixPieces, walks_of};
use order_analysis::Analysis;
use order_certificates::{
    Drafts, OrderPieces, Pieces, count_drafts, count_pieces, cycle_certificate, print_drafts,
    print_pieces,
};
use reason_report::print_inconsistent;
use report_base::{ReportFault, Status, tell_count};
use std::alloc::Global;

/// The greatest length of a certificate.
const LIMIT: u64 = 67_108_864;

// Prints a text, and answers that it is whole.
fn tell_done<P: Pieces, W: Sink>(
    alloc: Global,
    pieces: &mut P,
    out: &mut W,
) -> Result<Status, ReportFault>
    requires { P.IsSound pieces.old }
    ensures { Writes W.written W.faults W.sure out.old out.new (record { status = Done; text = P.rest pieces.old }) result }
{
    print_pieces(alloc, pieces, out)?;
    Ok(Status::Done)
}

// Prints a certificate that is made twice: first to count it.
#[tactic(auto, using(crate::proofs::Lengths::long_written, crate::proofs::Lengths::short_written))]
fn tell_pieces<P: Pieces, W: Sink>(
    alloc: Global,
    first: &mut P,
    second: &mut P,
    out: &mut W,
) -> Result<Status, ReportFault>
    requires first { P.IsSound first.old }
    requires second { P.IsSound second.old }
    requires same { P.rest second.old ≡ P.rest first.old }
    ensures { Writes W.written W.faults W.sure out.old out.new (within_length (record { status = Done; text = P.rest first.old })) result }
{
    let count = count_pieces(alloc, first)?;
    if count > LIMIT {
        tell_count(alloc, "L9", count, out)
    } else {
        tell_done(alloc, second, out)
    }
}

pub(crate) fn tell_consistent<W: Sink>(
    analysis: &Analysis,
    out: &mut W,
) -> Result<Status, ReportFault>
    requires { ¬ HasCycle analysis.now.set.list }
    ensures { Writes W.written W.faults W.sure out.old out.new
        (within_length (record { status = Done; text = consistent_text analysis.now.set analysis.now.periods })) result }
{
    let placings = analysis.placings()?;
    let mut first = OrderPieces::new(analysis, &placings);
    let mut second = OrderPieces::new(analysis, &placings);
    tell_pieces(analysis.alloc(), &mut first, &mut second, out)
}

// Prints a certificate that is made twice: first to count it.
pub(crate) fn tell_drafts<P: Drafts, W: Sink>(
    alloc: Global,
    first: &mut P,
    second: &mut P,
    out: &mut W,
) -> Result<Status, ReportFault>
    requires first { P.IsReady first.old }
    requires second { P.IsReady second.old }
    ensures { WritesSome W.written W.faults W.sure out.old out.new result }
{
    let count = count_drafts(alloc, first)?;
    if count > LIMIT {
        return tell_count(alloc, "L9", count, out);
    }
    print_drafts(alloc, second, out)?;
    Ok(Status::Done)
}

pub(crate) fn tell_matrix<W: Sink>(analysis: &Analysis, out: &mut W) -> Result<Status, ReportFault>
    requires consistent { ¬ HasCycle analysis.now.set.list }
    requires few { length analysis.now.periods ≤ 2 ^ 16 }
    ensures { WritesSome W.written W.faults W.sure out.old out.new result }
{
    let alloc = analysis.alloc();
    let matrix = Matrix::build(
        alloc,
        analysis.set(),
        analysis.closure(),
        analysis.periods(),
    )?;
    let walks = walks_of(alloc, &matrix)?;
    let mut first = MatrixPieces::new(analysis, &matrix, &walks);
    let mut second = MatrixPieces::new(analysis, &matrix, &walks);
    tell_drafts(alloc, &mut first, &mut second, out)
}

fn tell_whole<W: Sink>(text: &[u8], out: &mut W) -> Result<Status, ReportFault>
    ensures { Writes W.written W.faults W.sure out.old out.new (record { status = HasFindings; text = text.now }) result }
{
    print_text(out, text)?;
    Ok(Status::Findings)
}

#[tactic(auto, using(crate::proofs::Lengths::long_written, crate::proofs::Lengths::short_written))]
pub(crate) fn tell_cycle<W: Sink>(
    alloc: Global,
    cycle: &Chain,
    out: &mut W,
) -> Result<Status, ReportFault>
    ensures { Writes W.written W.faults W.sure out.old out.new (within_length (record { status = HasFindings; text = cycle_text cycle.now })) result }
{
    let text = cycle_certificate(alloc, cycle)?;
    if text.len() as u64 > LIMIT {
        tell_count(alloc, "L9", text.len() as u64, out)
    } else {
        tell_whole(text.as_slice(), out)
    }
}

pub(crate) fn tell_inconsistent<W: Sink>(
    alloc: Global,
    cycle: &Chain,
    out: &mut W,
) -> Result<Status, ReportFault>
    ensures { Writes W.written W.faults W.sure out.old out.new (record { status = HasFindings; text = inconsistent_text cycle.now }) result }
{
    let mut line = Vec::new(alloc);
    print_inconsistent(cycle, &mut line, out)?;
    Ok(Status::Findings)
}
