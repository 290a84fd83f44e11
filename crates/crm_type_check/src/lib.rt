//! The faults of triples in the use of classes and properties.
#![tactic(auto)]

ghost use Rattle.std.specs.Prelude.{◌≡◌, IfOk};
ghost use Rattle.crm_type_check.specs.Relations.{faults_of};

mod classes;
mod index;
mod meaning;
mod own;
mod pushing;
mod relation;

use crate::own::own_faults;
use crate::pushing::push_faults;
use crate::relation::is_partial;
pub use classes::{ClassSet, ClassTable};
use crm_outside::Items;
pub use index::{Index, index_of};
pub use meaning::{class_named, gives_relation, gives_type, property_named};
pub use own::date_side;
use rdf_terms::Names;
pub use relation::{Occurrence, Relation, RelationParts, RelationTable, relation_of};
use std::alloc::{AllocError, Global};
use time_primitive::DateFault;
use triple_pool::TriplePool;

/// The kinds of faults, in the order in which they are told of a triple.
#[derive(Clone, Copy, PartialEq, Eq, Debug)]
pub enum FaultKind {
    /// The type of a node is a literal.
    C1,
    /// A node has incompatible classes.
    C2,
    /// The type of a node is a property.
    C3,
    /// The node at the domain of a property has classes, and none fits.
    D1,
    /// The node at the range of a property has classes, and none fits.
    R1,
    /// A literal stands in place of an instance.
    R2,
    /// No literal stands in place of a text or a date.
    R3,
    /// The literal of a date property is no date.
    R4(DateFault),
    /// A node is made a relation and is no full one.
    A1,
}

/// A fault of a triple: its number, the byte offset of its object, and the kind.
#[derive(Clone, Copy, PartialEq, Eq, Debug)]
pub struct Fault {
    pub triple: u32,
    pub at: u64,
    pub kind: FaultKind,
}

/// A list of faults.
pub type Faults = Items<Fault>;

/// The faults of all triples of a pool, by triple number and then in the order of the kinds.
pub fn faults(alloc: Global, names: &Names, pool: &TriplePool) -> Result<Faults, AllocError>
    ensures { IfOk result (λ fs. fs ≡ faults_of names.now pool.now.pairs) }
{
    let index = index_of(alloc, names, pool)?;
    let mut found = Faults::new(alloc);
    for (number, triple) in pool.iter() {
        let own = own_faults(names, &index.classes, triple);
        let partial = is_partial(names, &index.classes, &index.relations, triple);
        push_faults(&mut found, number, triple, own, partial)?;
    }
    Ok(found)
}
