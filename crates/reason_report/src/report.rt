// The whole report of a set of orders.
ghost use Rattle.std.specs.Prelude.{◌≡◌, ◌++◌, OnOk, IfOk, is_none, true};
ghost use Rattle.order_laws.specs.Chains.{HasCycle};
ghost use Rattle.crm_outside.specs.Printing.{Prints};
ghost use Rattle.order_analysis.specs.Subjects.{cycle_of};
ghost use Rattle.reason_report.specs.Reason as spec;

use crate::counting::count_relations;
use crate::delays::print_delays;
use crate::relations::print_relations;
use chain_certificate::Chain;
use crm_outside::{PrintFault, Sink, print_text};
use order_analysis::Analysis;
use order_texts::{append_chain, print_count, print_placing};
use placing_witness::Placings;
use std::alloc::{AllocError, Global};

#[tactic(auto, unfolding(crate::specs::Reason::inconsistent_text))]
fn append_inconsistent(cycle: &Chain, line: &mut Vec<u8>) -> Result<(), AllocError>
    ensures { OnOk result (line.new.items ≡ line.old.items ++ spec.inconsistent_text cycle.now) }
{
    line.extend_from_slice(b"inconsistent\ncycle")?;
    append_chain(cycle.as_slice(), line)?;
    line.push(b'\n')?;
    Ok(())
}

/// Prints that the orders are inconsistent, with the cycle that refutes them. `line` is a buffer that is written over.
pub fn print_inconsistent<W: Sink>(
    cycle: &Chain,
    line: &mut Vec<u8>,
    out: &mut W,
) -> Result<(), PrintFault>
    ensures { Prints W.written W.faults W.sure out.old out.new (spec.inconsistent_text cycle.now) result }
{
    line.clear();
    let Ok(()) = append_inconsistent(cycle, line) else {
        return Err(PrintFault::Memory);
    };
    print_text(out, line.as_slice())
}

fn print_plain<W: Sink>(
    alloc: Global,
    placings: &Placings,
    line: &mut Vec<u8>,
    out: &mut W,
) -> Result<(), PrintFault>
    ensures { Prints W.written W.faults W.sure out.old out.new (spec.plain_line placings.now) result }
{
    let Ok(placing) = placings.plain(alloc) else {
        return Err(PrintFault::Memory);
    };
    print_placing(b"plain", &placing, line, out)
}

// Answers that the orders are consistent.
fn print_consistent<W: Sink>(
    analysis: &Analysis,
    line: &mut Vec<u8>,
    out: &mut W,
) -> Result<bool, PrintFault>
    requires { ¬ HasCycle analysis.now.set.list }
    ensures prints { Prints W.written W.faults W.sure out.old out.new (spec.consistent_text analysis.now.set analysis.now.periods) result }
    ensures answer { IfOk result (λ consistent. consistent ≡ true) }
{
    let Ok(placings) = analysis.placings() else {
        return Err(PrintFault::Memory);
    };
    print_text(out, b"consistent\n")?;
    print_plain(analysis.alloc(), &placings, line, out)?;
    print_relations(analysis, line, out)?;
    print_delays(analysis, &placings, line, out)?;
    print_count("relations", count_relations(analysis), line, out)?;
    Ok(true)
}

/// Prints the report of a set of orders over its periods, and answers whether the orders are consistent.
///
/// The report of inconsistent orders is `inconsistent` and the line of their first cycle. Else it is
/// `consistent`, the plain placing, a line for each side on which a relation follows from one period to
/// another with the chain that shows it, two lines for each period with the placings that delay its start
/// and its end, and the count of the primitives that were listed.
pub fn print_reason<W: Sink>(analysis: &Analysis, out: &mut W) -> Result<bool, PrintFault>
    ensures prints { Prints W.written W.faults W.sure out.old out.new (spec.report_text analysis.now.set analysis.now.periods) result }
    ensures answer { IfOk result (λ consistent. consistent ≡ is_none (cycle_of analysis.now.set)) }
{
    let mut line = Vec::new(analysis.alloc());
    let Some(chain) = analysis.cycle() else {
        return print_consistent(analysis, &mut line, out);
    };
    print_inconsistent(chain, &mut line, out)?;
    Ok(false)
}
