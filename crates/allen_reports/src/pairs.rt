// The relations of two periods, each with a placing that has it.
ghost use Rattle.std.specs.Prelude.{◌≡◌, ◌<◌, ◌≤◌, length, true};
ghost use Rattle.crm_allen.specs.Names.{is_among};
ghost use Rattle.order_laws.specs.Chains.{HasCycle};
ghost use Rattle.crm_outside.specs.Printing.{Prints};
ghost use Rattle.order_analysis.specs.Subjects.{cycle_of};
ghost use Rattle.crm_allen.specs.declared.relations.Allen.{Allen};
ghost use Rattle.crm_allen.specs.Relations.{IsPossible};
ghost use Rattle.allen_reports.specs.Relations.{example_text, examples_text, relation_line, text_if};
ghost use Rattle.allen_reports.specs.Reports.{text_by};

use crate::lines::append_relation;
use crm_allen::{Allen, AllenSet, all_relations, example, possible};
use crm_outside::{PrintFault, Sink, print_text};
use order_analysis::Analysis;
use order_texts::print_placing;
use reason_report::print_inconsistent;

fn print_name<W: Sink>(r: Allen, line: &mut Vec<u8>, out: &mut W) -> Result<(), PrintFault>
    ensures { Prints W.written W.faults W.sure out.old out.new (relation_line r) result }
{
    line.clear();
    let Ok(()) = append_relation(r, line) else {
        return Err(PrintFault::Memory);
    };
    print_text(out, line.as_slice())
}

/// Two periods by the numbers of their extents.
#[derive(Clone, Copy)]
pub struct Pair {
    pub left: u32,
    pub right: u32,
}

fn print_example<W: Sink>(
    analysis: &Analysis,
    pair: Pair,
    r: Allen,
    line: &mut Vec<u8>,
    out: &mut W,
) -> Result<(), PrintFault>
    requires few { length analysis.now.set.list ≤ 65536 }
    requires left { pair.left < analysis.now.set.extents }
    requires right { pair.right < analysis.now.set.extents }
    requires possible { IsPossible analysis.now.set pair.left pair.right r }
    ensures { Prints W.written W.faults W.sure out.old out.new (example_text analysis.now.set pair.left pair.right r) result }
{
    let Ok(placing) = example(analysis.alloc(), analysis.set(), pair.left, pair.right, r) else {
        return Err(PrintFault::Memory);
    };
    print_name(r, line, out)?;
    print_placing(r.name().as_bytes(), &placing, line, out)
}

// The example of a relation, where it is possible.
fn print_if_possible<W: Sink>(
    analysis: &Analysis,
    pair: Pair,
    relations: &AllenSet,
    r: Allen,
    line: &mut Vec<u8>,
    out: &mut W,
) -> Result<(), PrintFault>
    requires few { length analysis.now.set.list ≤ 65536 }
    requires left { pair.left < analysis.now.set.extents }
    requires right { pair.right < analysis.now.set.extents }
    requires possible { (q : Allen) → is_among relations.now q ≡ true → IsPossible analysis.now.set pair.left pair.right q }
    ensures { Prints W.written W.faults W.sure out.old out.new (text_if relations.now (example_text analysis.now.set pair.left pair.right) r) result }
{
    if relations.has(r) {
        return print_example(analysis, pair, r, line, out);
    }
    Ok(())
}

fn print_examples<W: Sink>(
    analysis: &Analysis,
    pair: Pair,
    line: &mut Vec<u8>,
    out: &mut W,
) -> Result<(), PrintFault>
    requires few { length analysis.now.set.list ≤ 65536 }
    requires left { pair.left < analysis.now.set.extents }
    requires right { pair.right < analysis.now.set.extents }
    requires consistent { ¬ HasCycle analysis.now.set.list }
    ensures { Prints W.written W.faults W.sure out.old out.new (examples_text analysis.now.set pair.left pair.right) result }
{
    let relations = possible(analysis.closure(), pair.left, pair.right);
    relations.conditions();
    for r in all_relations() {
        print_if_possible(analysis, pair, &relations, r, line, out)?;
    }
    Ok(())
}

/// Prints the possible relations of two periods, each with its example, or the cycle that refutes the orders.
pub fn print_pair<W: Sink>(analysis: &Analysis, pair: Pair, out: &mut W) -> Result<(), PrintFault>
    requires few { length analysis.now.set.list ≤ 65536 }
    requires left { pair.left < analysis.now.set.extents }
    requires right { pair.right < analysis.now.set.extents }
    ensures { Prints W.written W.faults W.sure out.old out.new (text_by (cycle_of analysis.now.set) (examples_text analysis.now.set pair.left pair.right)) result }
{
    let mut line = Vec::new(analysis.alloc());
    match analysis.cycle() {
        Some(cycle) => print_inconsistent(cycle, &mut line, out),
        None => print_examples(analysis, pair, &mut line, out),
    }
}
