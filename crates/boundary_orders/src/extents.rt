// The extents by number.
ghost use Rattle.std.specs.Prelude.{◌≡◌, ℕ, List, nat_eq, IfOk, OnOk};
ghost use Rattle.rdf_terms.specs.contracts.terms.TermPartialEq.TheImpl.{ghosts};
ghost use Rattle.indexmap.specs.IndexMap.{get};
ghost use Rattle.indexmap.specs.IndexSet.{contains};
ghost use Rattle.crm_type_check.specs.declared.Fault.{Fault};
ghost use Rattle.boundary_orders.specs.Statements.{is_faulty, statements_of};
ghost use Rattle.boundary_orders.specs.Extents.{rows_by, ends_in, extents_of};
ghost use Rattle.boundary_orders.specs.Numbering.{with_node};

use crate::standings::{Marks, class_standings, end_standings, mark_all};
use crate::statements::StatementList;
use indexmap::{IndexMap, IndexSet};
use rdf_terms::{Names, Term, Triple};
use std::alloc::{AllocError, Global};
use triple_pool::TriplePool;

/// The extents in the order of their numbers, each with whether it is a period.
pub type ExtentTable = IndexMap<Term, bool>;

fn number_node(table: &mut ExtentTable, marks: &Marks, node: Term) -> Result<(), AllocError>
    ensures { OnOk result (table.new.entries ≡ with_node (get ghosts.eq marks.now) table.old.entries node) }
{
    let Some(period) = marks.get(&node) else {
        return Ok(());
    };
    table.insert(node, *period)?;
    Ok(())
}

fn number_ends(table: &mut ExtentTable, marks: &Marks, triple: Triple) -> Result<(), AllocError>
    ensures { OnOk result (table.new.entries ≡ with_node (get ghosts.eq marks.now) (with_node (get ghosts.eq marks.now) table.old.entries triple.s) triple.o) }
{
    number_node(table, marks, triple.s)?;
    number_node(table, marks, triple.o)
}

/// The marked nodes of the triples of the pool, in the order of their first coming.
pub fn number_extents(
    alloc: Global,
    pool: &TriplePool,
    marks: &Marks,
) -> Result<ExtentTable, AllocError>
    ensures { IfOk result (λ table. table.entries ≡ rows_by (get ghosts.eq marks.now) (ends_in pool.now.pairs)) }
{
    let mut table = ExtentTable::new(alloc);
    for (_, triple) in pool.iter() {
        number_ends(&mut table, marks, triple)?;
    }
    Ok(table)
}

/// The extents of all triples of the pool, by its statements and the numbers of the faulty triples.
pub fn find_extents(
    alloc: Global,
    names: &Names,
    pool: &TriplePool,
    faulty: &IndexSet<u32>,
    statements: &StatementList,
) -> Result<ExtentTable, AllocError>
    ensures { IfOk result (λ table. (faults : List Fault) → ((n : ℕ) → contains nat_eq faulty.now n ≡ is_faulty faults n) →
        statements.now ≡ statements_of names.now pool.now.pairs faults → table.entries ≡ extents_of names.now pool.now.pairs faults) }
{
    let mut standings = end_standings(alloc, statements)?;
    class_standings(&mut standings, names, pool, faulty)?;
    let marks = mark_all(alloc, &standings)?;
    let table = number_extents(alloc, pool, &marks)?;
    Ok(table)
}
