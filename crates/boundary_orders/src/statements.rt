// The statements of a pool.
ghost use Rattle.std.specs.Prelude.{◌≡◌, ◌||◌, ◌==◌, ℕ, List, Some, IfOk, OnOk};
ghost use Rattle.rdf_terms.specs.declared.terms.Triple.{Triple};
ghost use Rattle.indexmap.specs.IndexSet.{contains};
ghost use Rattle.std.specs.Prelude.{nat_eq};
ghost use Rattle.std.specs.Option.{option_map};
ghost use Rattle.crm_type_check.specs.Index.{set_in, parts_at, IsIndex};
ghost use Rattle.crm_type_check.specs.declared.Fault.{Fault};
ghost use Rattle.boundary_orders.specs.Statements as spec;
ghost use Rattle.boundary_orders.specs.Statements.{is_faulty, is_dated, makes_orders, by_property, meaning_of};

use crm_outside::Items;
use crm_properties::{Prop, PropCode};
use crm_type_check::{Faults, Index, gives_relation, property_named, relation_of};
use indexmap::IndexSet;
use rdf_terms::{Names, Term, Triple};
use std::alloc::{AllocError, Global};
use triple_pool::TriplePool;

/// A statement: a property that makes orders, with the node at its domain and the term at its range, which is
/// the literal of a date where the property is one of the four dates.
#[derive(Clone, Copy, Debug)]
pub struct Statement {
    pub code: PropCode,
    pub domain: Term,
    pub range: Term,
}

/// Statements with the numbers of their triples.
pub type StatementList = Items<(u32, Statement)>;

/// Whether the property is one of the four dates.
pub fn is_date(code: PropCode) -> bool
    ensures { result ≡ is_dated code }
{
    matches!(code.number(), 13..=16)
}

fn orders_are_made(code: PropCode) -> bool
    ensures { result ≡ makes_orders code }
{
    code.number() <= 19
}

fn note(numbers: &mut IndexSet<u32>, number: u32) -> Result<(), AllocError>
    ensures { OnOk result ((n : ℕ) → contains nat_eq numbers.new n ≡ (contains nat_eq numbers.old n || number == n)) }
{
    numbers.insert(number)?;
    Ok(())
}

/// The numbers of the triples that some fault names.
pub fn faulty_numbers(alloc: Global, faults: &Faults) -> Result<IndexSet<u32>, AllocError>
    ensures { IfOk result (λ numbers. (n : ℕ) → contains nat_eq numbers n ≡ is_faulty faults.now n) }
{
    let mut numbers = IndexSet::new(alloc);
    for fault in faults.as_slice() {
        note(&mut numbers, fault.triple)?;
    }
    Ok(numbers)
}

fn of_property(triple: Triple, prop: &Prop) -> Option<Statement>
    ensures { result ≡ by_property triple (Some prop.now) }
{
    if !orders_are_made(prop.code) {
        return None;
    }
    let (domain, range) = if prop.inverse {
        (triple.o, triple.s)
    } else {
        (triple.s, triple.o)
    };
    Some(Statement {
        code: prop.code,
        domain,
        range,
    })
}

/// What a triple without fault states, by an index of all triples.
pub fn statement_of(names: &Names, index: &Index, triple: Triple) -> Option<Statement>
    ensures { (triples : List (ℕ × Triple)) → IsIndex names.now triples (set_in index.now.classes) (parts_at index.now.relations) → result ≡ meaning_of names.now triples triple }
{
    if gives_relation(names, triple) {
        return match relation_of(names, index, triple.s) {
            Some(relation) => Some(Statement {
                code: relation.kind,
                domain: relation.from,
                range: relation.to,
            }),
            None => None,
        };
    }
    match property_named(names, triple.p) {
        Some(prop) => of_property(triple, &prop),
        None => None,
    }
}

// What a triple states where no fault names it.
fn fault_free_statement(
    names: &Names,
    index: &Index,
    faulty: &IndexSet<u32>,
    number: u32,
    triple: Triple,
) -> Option<Statement>
    ensures { (triples : List (ℕ × Triple)) (faults : List Fault) → IsIndex names.now triples (set_in index.now.classes) (parts_at index.now.relations) →
        ((n : ℕ) → contains nat_eq faulty.now n ≡ is_faulty faults n) →
        option_map (λ s. (number, s)) result ≡ spec.statement_of names.now triples faults (number, triple) }
{
    if faulty.contains(&number) {
        None
    } else {
        statement_of(names, index, triple)
    }
}

/// The statements of all triples of the pool, by an index of them and the numbers of the faulty ones.
pub fn find_statements(
    alloc: Global,
    names: &Names,
    pool: &TriplePool,
    index: &Index,
    faulty: &IndexSet<u32>,
) -> Result<StatementList, AllocError>
    ensures { IfOk result (λ found. (faults : List Fault) → IsIndex names.now pool.now.pairs (set_in index.now.classes) (parts_at index.now.relations) →
        ((n : ℕ) → contains nat_eq faulty.now n ≡ is_faulty faults n) → found ≡ spec.statements_of names.now pool.now.pairs faults) }
{
    let mut found = StatementList::new(alloc);
    for (number, triple) in pool.iter() {
        if let Some(statement) = fault_free_statement(names, index, faulty, number, triple) {
            found.push((number, statement))?;
        }
    }
    Ok(found)
}
