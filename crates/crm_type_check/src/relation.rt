// Relations that are nodes.
ghost use Rattle.std.specs.Prelude.{◌≡◌, cond, Some, OnOk};
ghost use Rattle.std.specs.Prelude.{ℕ, List};
ghost use Rattle.rdf_terms.specs.declared.terms.Term.{Term};
ghost use Rattle.rdf_terms.specs.declared.terms.Triple.{Triple};
ghost use Rattle.crm_type_check.specs.Relations as relations;
ghost use Rattle.rdf_terms.specs.Terms.{same_term};
ghost use Rattle.crm_type_check.specs.Meaning.{property_of};
ghost use Rattle.crm_type_check.specs.Index.{parts_at, once_more, with_part, parts_after, by_marks, set_in, IsIndex};
ghost use Rattle.crm_type_check.specs.Relations.{relation_by, relation_with, relation_by_parts, has_a1};

use crate::classes::ClassTable;
use crate::index::Index;
use crate::meaning::{gives_relation, property_named};
use crate::own::own_faults;
use crm_properties::{Prop, PropCode};
use indexmap::IndexMap;
use rdf_terms::{Names, Term, Triple};
use std::alloc::AllocError;

/// How often a property comes with a node, with the triple that has it once.
#[derive(Clone, Copy, Debug)]
pub enum Occurrence {
    Absent,
    Once(Triple),
    Repeated,
}

/// What the triples say of the parts of a relation.
#[derive(Clone, Copy, Debug)]
pub struct RelationParts {
    pub from: Occurrence,
    pub to: Occurrence,
    pub kind: Occurrence,
}

/// The parts of each node that has one.
pub type RelationTable = IndexMap<Term, RelationParts>;

/// A full relation: its ends, and the typed relation that it stands for.
#[derive(Clone, Copy, Debug)]
pub struct Relation {
    pub from: Term,
    pub to: Term,
    pub kind: PropCode,
}

impl Occurrence {
    fn more(self, triple: Triple) -> Occurrence
        ensures { result ≡ once_more self triple }
    {
        match self {
            Occurrence::Absent => Occurrence::Once(triple),
            Occurrence::Once(_) | Occurrence::Repeated => Occurrence::Repeated,
        }
    }
}

fn parts_of(table: &RelationTable, node: Term) -> RelationParts
    ensures { result ≡ parts_at table.now node }
{
    match table.get(&node) {
        Some(parts) => *parts,
        None => RelationParts {
            from: Occurrence::Absent,
            to: Occurrence::Absent,
            kind: Occurrence::Absent,
        },
    }
}

fn with_triple(parts: RelationParts, prop: Prop, triple: Triple) -> RelationParts
    ensures { result ≡ with_part (Some prop) triple parts }
{
    match prop.code.number() {
        41 => RelationParts {
            from: parts.from.more(triple),
            ..parts
        },
        42 => RelationParts {
            to: parts.to.more(triple),
            ..parts
        },
        43 => RelationParts {
            kind: parts.kind.more(triple),
            ..parts
        },
        _ => parts,
    }
}

fn put(table: &mut RelationTable, node: Term, parts: RelationParts) -> Result<(), AllocError>
    ensures { OnOk result ((t : Term) → parts_at table.new t ≡ cond (same_term node t) parts (parts_at table.old t)) }
{
    table.insert(node, parts)?;
    Ok(())
}

/// Notes a triple that says a part of a relation.
pub fn note_part(table: &mut RelationTable, names: &Names, triple: Triple) -> Result<(), AllocError>
    ensures { OnOk result ((t : Term) → parts_at table.new t ≡ parts_after names.now triple t (parts_at table.old t)) }
{
    let Some(prop) = property_named(names, triple.p) else {
        return Ok(());
    };
    if prop.code.number() < 41 {
        return Ok(());
    }
    let parts = with_triple(parts_of(table, triple.s), prop, triple);
    put(table, triple.s, parts)
}

fn typed_relation(names: &Names, from: Triple, to: Triple, kind: Triple) -> Option<Relation>
    ensures { result ≡ relation_by from to (property_of names.now kind.o) }
{
    let Some(prop) = property_named(names, kind.o) else {
        return None;
    };
    if !prop.code.is_typed_relation() {
        return None;
    }
    Some(Relation {
        from: from.o,
        to: to.o,
        kind: prop.code,
    })
}

/// The full relation that these parts make.
pub fn relation_of_parts(
    names: &Names,
    classes: &ClassTable,
    parts: RelationParts,
) -> Option<Relation>
    ensures { result ≡ relation_by_parts names.now (by_marks (set_in classes.now)) parts }
{
    match (parts.from, parts.to, parts.kind) {
        (Occurrence::Once(from), Occurrence::Once(to), Occurrence::Once(kind)) => {
            if own_faults(names, classes, from).is_sound()
                && own_faults(names, classes, to).is_sound()
            {
                typed_relation(names, from, to, kind)
            } else {
                None
            }
        }
        _ => None,
    }
}

/// The full relation that a node is, for a node that a type triple makes a relation; of an index of the triples.
pub fn relation_of(names: &Names, index: &Index, node: Term) -> Option<Relation>
    ensures { (triples : List (ℕ × Triple)) → IsIndex names.now triples (set_in index.now.classes) (parts_at index.now.relations) → result ≡ relations.relation_of names.now triples node }
{
    relation_of_parts(names, &index.classes, parts_of(&index.relations, node))
}

/// Whether a triple makes its subject a relation that is no full one.
pub fn is_partial(
    names: &Names,
    classes: &ClassTable,
    relations: &RelationTable,
    triple: Triple,
) -> bool
    ensures { result ≡ has_a1 names.now (by_marks (set_in classes.now)) (parts_at relations.now) triple }
{
    gives_relation(names, triple)
        && relation_of_parts(names, classes, parts_of(relations, triple.s)).is_none()
}
