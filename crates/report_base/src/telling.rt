// How reports end.
ghost use Rattle.std.specs.Prelude.{◌≡◌};
ghost use Rattle.boundary_orders.specs.Dossiers.{Findings, IsPassed};
ghost use Rattle.report_base.specs.Reports.{IsEnding, Report, Writes, passed, within_limits};
ghost use Rattle.report_base.specs.Reports as spec;

use crate::lines::count_refusal_line;
use crate::{ReportFault, Status};
use boundary_orders::BuildFault;
use crm_outside::{Sink, print_text};
use crm_type_check::Faults;
use std::alloc::Global;

/// `Findings` where there is a fault of class, domain, range or date, else `Done`.
pub fn status_of(faults: &Faults) -> Status
    ensures status { result ≡ spec.status_by faults.now }
    ensures ending { IsEnding result }
{
    if faults.len() == 0 {
        Status::Done
    } else {
        Status::Findings
    }
}

/// Prints the limit of a code with the count that passes it.
pub fn tell_count<W: Sink>(
    alloc: Global,
    code: &str,
    n: u64,
    out: &mut W,
) -> Result<Status, ReportFault>
    ensures { Writes W.written W.faults W.sure out.old out.new (passed code.now n) result }
{
    let line = count_refusal_line(alloc, code, n)?;
    print_text(out, line.as_bytes())?;
    Ok(Status::Refused)
}

/// Prints the limit that was passed, with the count that passes it: `refused L6 count N`, and likewise L7 and L8. This
/// stands in place of any report that holds only within the limits.
pub fn tell_passed<W: Sink>(
    alloc: Global,
    fault: BuildFault,
    out: &mut W,
) -> Result<Status, ReportFault>
    ensures { (found : Findings) (r : Report) → IsPassed found fault → Writes W.written W.faults W.sure out.old out.new (within_limits found r) result }
{
    match fault {
        BuildFault::Extents(n) => tell_count(alloc, "L6", n as u64, out),
        BuildFault::Dates(n) => tell_count(alloc, "L7", n as u64, out),
        BuildFault::Orders(n) => tell_count(alloc, "L8", n as u64, out),
        BuildFault::Memory => Err(ReportFault::Memory),
    }
}
