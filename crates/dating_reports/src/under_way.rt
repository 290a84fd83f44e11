// The report of the periods at an instant.
ghost use Rattle.std.specs.Prelude.{◌≡◌, pos, ◌^◌, ◌<ℤ◌, ◌-ℤ◌, length, IfOk, is_none};
ghost use Rattle.crm_outside.specs.Printing.{Prints};
ghost use Rattle.boundary_orders.specs.Dossiers.{AreFew};
ghost use Rattle.order_analysis.specs.Subjects.{cycle_of};
ghost use Rattle.report_base.specs.Reports.{Writes};
ghost use Rattle.dating_reports.specs.When.{when_report};
ghost use Rattle.dating_reports.specs.When as spec;

use crate::around::consistency_status;
use crate::moments::{Moment, print_instant, print_moments};
use boundary_orders::Dossier;
use crm_outside::{PrintFault, Sink, print_text};
use dating_bounds::{Shares, date_place, with_date};
use dossier_analysis::analyse;
use order_closure::Closure;
use rdf_terms::{Names, Records};
use reason_report::print_inconsistent;
use report_base::{ReportFault, Status, print_extents, take_survey, tell_passed};
use std::alloc::Global;

// The cycle of the orders of the records, which have one.
fn print_cycle<W: Sink>(
    alloc: Global,
    dossier: &Dossier,
    line: &mut Vec<u8>,
    out: &mut W,
) -> Result<(), PrintFault>
    ensures { Prints W.written W.faults W.sure out.old out.new (spec.cycle_text dossier.now.orders) result }
{
    let Ok(analysis) = analyse(alloc, dossier) else {
        return Err(PrintFault::Memory);
    };
    match analysis.cycle() {
        Some(chain) => print_inconsistent(chain, line, out),
        None => Ok(()),
    }
}

// The periods at the instant, which is among the dates of the set.
fn print_periods<W: Sink>(
    alloc: Global,
    dossier: &Dossier,
    moment: &Moment,
    line: &mut Vec<u8>,
    out: &mut W,
) -> Result<(), PrintFault>
    requires moment { spec.IsMoment moment.now.set.now moment.now.closure.now moment.now.date }
    requires extents { dossier.now.orders.extents ≡ moment.now.set.now.extents }
    ensures { Prints W.written W.faults W.sure out.old out.new (spec.moments_text moment.now.set.now moment.now.date dossier.now.periods) result }
{
    dossier.conditions();
    let Ok(shares) = Shares::build(alloc, moment.set, moment.closure) else {
        return Err(PrintFault::Memory);
    };
    print_text(out, b"consistent\n")?;
    print_moments(alloc, &shares, moment.date, dossier.periods(), line, out)
}

fn print_at<W: Sink>(
    alloc: Global,
    dossier: &Dossier,
    moment: &Moment,
    line: &mut Vec<u8>,
    out: &mut W,
) -> Result<bool, PrintFault>
    requires few { AreFew dossier.now }
    requires moment { spec.IsDated dossier.now.orders moment.now.instant moment.now.set.now moment.now.closure.now moment.now.date }
    ensures prints { Prints W.written W.faults W.sure out.old out.new (spec.at_text dossier.now.orders dossier.now.periods moment.now.instant) result }
    ensures answer { IfOk result (λ consistent. consistent ≡ is_none (cycle_of dossier.now.orders)) }
{
    let orders = dossier.orders();
    orders.conditions();
    if moment.closure.is_consistent() {
        print_periods(alloc, dossier, moment, line, out)?;
        return Ok(true);
    }
    print_cycle(alloc, dossier, line, out)?;
    Ok(false)
}

fn print_report<W: Sink>(
    alloc: Global,
    names: &Names,
    dossier: &Dossier,
    moment: &Moment,
    out: &mut W,
) -> Result<bool, PrintFault>
    requires few { AreFew dossier.now }
    requires counted { dossier.now.orders.extents ≡ length dossier.now.extents }
    requires moment { spec.IsDated dossier.now.orders moment.now.instant moment.now.set.now moment.now.closure.now moment.now.date }
    ensures prints { Prints W.written W.faults W.sure out.old out.new (spec.moment_text names.now dossier.now moment.now.instant) result }
    ensures answer { IfOk result (λ consistent. consistent ≡ is_none (cycle_of dossier.now.orders)) }
{
    let mut line = Vec::new(alloc);
    print_extents(alloc, names, dossier, out)?;
    print_instant(moment.instant, &mut line, out)?;
    print_at(alloc, dossier, moment, &mut line, out)
}

fn tell_moment<W: Sink>(
    alloc: Global,
    names: &Names,
    dossier: &Dossier,
    moment: &Moment,
    out: &mut W,
) -> Result<Status, ReportFault>
    requires few { AreFew dossier.now }
    requires counted { dossier.now.orders.extents ≡ length dossier.now.extents }
    requires moment { spec.IsDated dossier.now.orders moment.now.instant moment.now.set.now moment.now.closure.now moment.now.date }
    ensures { Writes W.written W.faults W.sure out.old out.new (spec.at_report names.now dossier.now moment.now.instant) result }
{
    let consistent = print_report(alloc, names, dossier, moment, out)?;
    Ok(consistency_status(consistent))
}

fn tell_at<W: Sink>(
    alloc: Global,
    names: &Names,
    dossier: &Dossier,
    t: i128,
    out: &mut W,
) -> Result<Status, ReportFault>
    requires few { AreFew dossier.now }
    requires counted { dossier.now.orders.extents ≡ length dossier.now.extents }
    requires after { (pos 0 -ℤ pos (2 ^ 100)) <ℤ t }
    requires before { t <ℤ pos (2 ^ 100) }
    ensures { Writes W.written W.faults W.sure out.old out.new (spec.at_report names.now dossier.now t) result }
{
    let Ok(dated) = with_date(alloc, dossier.orders(), t) else {
        return Err(ReportFault::Memory);
    };
    let Ok(closure) = Closure::build(alloc, &dated) else {
        return Err(ReportFault::Memory);
    };
    let date = date_place(dossier.orders().dates().as_slice(), t) as u32;
    let moment = Moment {
        set: &dated,
        closure: &closure,
        date,
        instant: t,
    };
    tell_moment(alloc, names, dossier, &moment, out)
}

/// Prints the extents of records, the instant `t` in nanoseconds since 1970-01-01T00:00:00Z, and then either the cycle that
/// no placing satisfies, or for each period whether it is surely under way at the instant, never, or maybe, with a
/// placing in which it is and one in which it is not. The instant is no date of the records, so it counts for no limit.
///
/// `Findings` where the orders are inconsistent; `Refused` as with `report_orders`.
pub fn report_when<W: Sink>(
    alloc: Global,
    records: &Records,
    t: i128,
    out: &mut W,
) -> Result<Status, ReportFault>
    requires after { (pos 0 -ℤ pos (2 ^ 100)) <ℤ t }
    requires before { t <ℤ pos (2 ^ 100) }
    ensures { Writes W.written W.faults W.sure out.old out.new (when_report records.now t) result }
{
    match take_survey(alloc, records) {
        Ok(survey) => tell_at(alloc, &records.names, &survey.dossier, t, out),
        Err(fault) => tell_passed(alloc, fault, out),
    }
}
