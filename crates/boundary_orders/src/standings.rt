// Which nodes are extents, and which of them are periods.
ghost use Rattle.std.specs.Prelude.{◌≡◌, ◌||◌, ◌++◌, ℕ, List, Some, false, cond, nat_eq, flat_map, IfOk, OnOk};
ghost use Rattle.std.specs.Option.{unwrap_or};
ghost use Rattle.rdf_terms.specs.declared.terms.Term.{Term};
ghost use Rattle.rdf_terms.specs.contracts.terms.TermPartialEq.TheImpl.{ghosts};
ghost use Rattle.rdf_terms.specs.Terms.{same_term};
ghost use Rattle.indexmap.specs.IndexMap.{get};
ghost use Rattle.indexmap.specs.IndexSet.{contains};
ghost use Rattle.crm_type_check.specs.declared.Fault.{Fault};
ghost use Rattle.boundary_orders.specs.Statements.{is_faulty};
ghost use Rattle.boundary_orders.specs.Extents.{ends_of, by_class, by_type, kind_of};

use crate::statements::{Statement, StatementList, is_date};
use crm_classes::{ClassId, within};
use crm_outside::Items;
use crm_type_check::{class_named, gives_type};
use indexmap::{IndexMap, IndexSet};
use rdf_terms::{Names, Term, Triple};
use std::alloc::{AllocError, Global};
use triple_pool::TriplePool;

/// Nodes that are extents, each with whether it is a period there; a node may come often.
pub type StandingList = Items<(Term, bool)>;

/// Each node that is an extent, with whether it is a period.
pub type Marks = IndexMap<Term, bool>;

fn push_ends(standings: &mut StandingList, statement: &Statement) -> Result<(), AllocError>
    ensures { OnOk result (standings.new ≡ standings.old ++ ends_of statement.now) }
{
    let code = statement.code.number();
    if is_date(statement.code) {
        return standings.push((statement.domain, false));
    }
    standings.push((statement.domain, code != 12))?;
    standings.push((statement.range, code != 8 && code != 9 && code != 12))
}

/// The resource ends of the statements.
pub fn end_standings(alloc: Global, statements: &StatementList) -> Result<StandingList, AllocError>
    ensures { IfOk result (λ found. found ≡ flat_map (λ s. ends_of s.1) statements.now) }
{
    let mut found = StandingList::new(alloc);
    for (_, statement) in statements.as_slice() {
        push_ends(&mut found, statement)?;
    }
    Ok(found)
}

fn push_class(
    standings: &mut StandingList,
    node: Term,
    class: Option<ClassId>,
) -> Result<(), AllocError>
    ensures { OnOk result (standings.new ≡ standings.old ++ by_class node class) }
{
    let Some(class) = class else {
        return Ok(());
    };
    if within(class, ClassId::temporal_entity()) || within(class, ClassId::spacetime_volume()) {
        return standings.push((node, true));
    }
    if within(class, ClassId::time_span()) {
        return standings.push((node, false));
    }
    Ok(())
}

fn push_type(
    standings: &mut StandingList,
    names: &Names,
    faulty: &IndexSet<u32>,
    number: u32,
    triple: Triple,
) -> Result<(), AllocError>
    ensures { (faults : List Fault) → ((n : ℕ) → contains nat_eq faulty.now n ≡ is_faulty faults n) →
        OnOk result (standings.new ≡ standings.old ++ by_type names.now faults (number, triple)) }
{
    if faulty.contains(&number) || !gives_type(names, triple) {
        return Ok(());
    }
    push_class(standings, triple.s, class_named(names, triple.o))
}

/// Adds what the type triples without fault make of their subjects.
pub fn class_standings(
    standings: &mut StandingList,
    names: &Names,
    pool: &TriplePool,
    faulty: &IndexSet<u32>,
) -> Result<(), AllocError>
    ensures { (faults : List Fault) → ((n : ℕ) → contains nat_eq faulty.now n ≡ is_faulty faults n) →
        OnOk result (standings.new ≡ standings.old ++ flat_map (by_type names.now faults) pool.now.pairs) }
{
    for (number, triple) in pool.iter() {
        push_type(standings, names, faulty, number, triple)?;
    }
    Ok(())
}

fn mark(marks: &mut Marks, node: Term, period: bool) -> Result<(), AllocError>
    ensures { OnOk result ((t : Term) → get ghosts.eq marks.new t
        ≡ cond (same_term node t) (Some (unwrap_or (get ghosts.eq marks.old node) false || period)) (get ghosts.eq marks.old t)) }
{
    let was = match marks.get(&node) {
        Some(was) => *was,
        None => false,
    };
    marks.insert(node, was || period)?;
    Ok(())
}

/// The marks of all nodes that stand in the list.
pub fn mark_all(alloc: Global, standings: &StandingList) -> Result<Marks, AllocError>
    ensures { IfOk result (λ marks. (t : Term) → get ghosts.eq marks t ≡ kind_of standings.now t) }
{
    let mut marks = Marks::new(alloc);
    for (node, period) in standings.as_slice() {
        mark(&mut marks, *node, *period)?;
    }
    Ok(marks)
}
