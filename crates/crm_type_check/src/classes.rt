// The declared classes of the nodes.
ghost use Rattle.std.specs.Prelude.{◌≡◌, ◌<◌, ◌&&◌, true, cond, Bool, OnOk, Some};
ghost use Rattle.rdf_terms.specs.declared.terms.Term.{Term};
ghost use Rattle.rdf_terms.specs.Terms.{same_term};
ghost use Rattle.crm_type_check.specs.Index.{set_in, some_from, is_marked, passes_test, by_marks, with_mark, set_after};

use crate::meaning::{class_named, gives_type};
use crm_classes::{ClassId, comparable, incompatible};
use indexmap::IndexMap;
use rdf_terms::{Names, Term, Triple};
use std::alloc::AllocError;

/// The declared classes of a node, a mark for each class by its number.
#[derive(Clone, Copy)]
pub struct ClassSet {
    pub marks: [bool; 71],
}

/// The declared classes of each node that has one.
pub type ClassTable = IndexMap<Term, ClassSet>;

/// The declared classes of a node.
pub fn set_of(table: &ClassTable, node: Term) -> ClassSet
    ensures { result ≡ set_in table.now node }
{
    match table.get(&node) {
        Some(set) => *set,
        None => ClassSet { marks: [false; 71] },
    }
}

fn marked(set: ClassSet, class: ClassId) -> ClassSet
    ensures { result ≡ with_mark (Some class) set }
{
    let mut marks = set.marks;
    marks[class.number() as usize] = true;
    ClassSet { marks }
}

fn mark(table: &mut ClassTable, node: Term, class: ClassId) -> Result<(), AllocError>
    ensures { OnOk result ((t : Term) → set_in table.new t ≡ cond (same_term node t) (with_mark (Some class) (set_in table.old node)) (set_in table.old t)) }
{
    let set = marked(set_of(table, node), class);
    table.insert(node, set)?;
    Ok(())
}

/// Notes the class that a triple gives its subject.
pub fn note_class(table: &mut ClassTable, names: &Names, triple: Triple) -> Result<(), AllocError>
    ensures { OnOk result ((t : Term) → set_in table.new t ≡ set_after names.now triple t (set_in table.old t)) }
{
    if !gives_type(names, triple) {
        return Ok(());
    }
    let Some(class) = class_named(names, triple.o) else {
        return Ok(());
    };
    mark(table, triple.s, class)
}

/// What may be asked of a declared class.
#[derive(Clone, Copy)]
pub enum ClassTest {
    Any,
    Comparable(ClassId),
    Incompatible(ClassId),
}

impl ClassTest {
    fn passes(&self, class: ClassId) -> bool
        ensures { result ≡ passes_test self.now class }
    {
        match self {
            ClassTest::Any => true,
            ClassTest::Comparable(with) => comparable(*with, class),
            ClassTest::Incompatible(with) => incompatible(*with, class),
        }
    }
}

fn is_passing(set: ClassSet, number: u8, test: &ClassTest) -> bool
    requires { number < 71 }
    ensures { result ≡ (is_marked set number && passes_test test.now number) }
{
    set.marks[number as usize] && test.passes(ClassId::from_number(number))
}

/// Whether some class of the set passes the test.
pub fn has_class(set: ClassSet, test: &ClassTest) -> bool
    ensures { result ≡ some_from 0 set.marks (passes_test test.now) }
{
    for number in 0..71 {
        if is_passing(set, number, test) {
            return true;
        }
    }
    false
}

/// Whether some declared class of the node passes the test.
pub fn is_declared(table: &ClassTable, node: Term, test: &ClassTest) -> bool
    ensures { result ≡ by_marks (set_in table.now) node (passes_test test.now) }
{
    has_class(set_of(table, node), test)
}
