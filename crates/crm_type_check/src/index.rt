// A pass over all triples, which notes what the faults of each need.
ghost use Rattle.std.specs.Prelude.{OnOk, IfOk};
ghost use Rattle.rdf_terms.specs.declared.terms.Term.{Term};
ghost use Rattle.std.specs.Prelude.{◌≡◌};
ghost use Rattle.crm_type_check.specs.Index.{set_in, parts_at, set_after, parts_after, IsIndex};

use crate::classes::{ClassTable, note_class};
use crate::relation::{RelationTable, note_part};
use indexmap::IndexMap;
use rdf_terms::{Names, Triple};
use std::alloc::{AllocError, Global};
use triple_pool::TriplePool;

/// The declared classes and the parts of relations of all nodes.
#[derive(Drop)]
pub struct Index {
    pub classes: ClassTable,
    pub relations: RelationTable,
}

fn note(index: &mut Index, names: &Names, triple: Triple) -> Result<(), AllocError>
    ensures classes { OnOk result ((t : Term) → set_in index.new.classes t ≡ set_after names.now triple t (set_in index.old.classes t)) }
    ensures relations { OnOk result ((t : Term) → parts_at index.new.relations t ≡ parts_after names.now triple t (parts_at index.old.relations t)) }
{
    note_class(&mut index.classes, names, triple)?;
    note_part(&mut index.relations, names, triple)
}

/// Notes all triples.
pub fn index_of(alloc: Global, names: &Names, pool: &TriplePool) -> Result<Index, AllocError>
    ensures { IfOk result (λ x. IsIndex names.now pool.now.pairs (set_in x.classes) (parts_at x.relations)) }
{
    let mut index = Index {
        classes: IndexMap::new(alloc),
        relations: IndexMap::new(alloc),
    };
    for (_, triple) in pool.iter() {
        note(&mut index, names, triple)?;
    }
    Ok(index)
}
