// The lines of a certificate of classes.
ghost use Rattle.std.specs.Prelude.{◌≡◌, ◌<◌, ◌≤◌, ◌+◌, ◌++◌, ◌∷◌, ◌↔◌, [], None, Some, IfOk, length, true, IfErr};
ghost use Rattle.certificate_trees.specs.Reads.{IsRead};
ghost use Rattle.certificate_trees.specs.Parts.{IsPartRefused, IsStanding};
ghost use Rattle.certificate_reader.specs.LineGrammar.{Triples, CodePair, ClassLineForm};
ghost use Rattle.certificate_reader.specs.ClassTexts.{triples_text, classes_text, class_line_text, class_line_nodes, IsHead, IsFamilyPair};

use crate::{CertRefusal, ClassFact, Found, Join, Notes, Weaken, read_word};
use certificate_trees::{ClassLeaves, DEPTH, read_code, read_number, read_tree};
use crm_classes::ClassId;
use proof_core::Proof;
use std::alloc::Global;

/// A tree over pairs of classes.
pub type ClassProof = Proof<ClassFact, Weaken, Join>;

/// A line of a certificate of classes: two triples by number, a class for each, and trees that show that this
/// class is the triple's own or above it.
#[derive(Drop)]
pub struct ClassLine {
    pub first: u32,
    pub second: u32,
    pub first_class: ClassId,
    pub second_class: ClassId,
    pub first_tree: ClassProof,
    pub second_tree: ClassProof,
}

/// A line with the places of its second triple and its first class, and how many nodes its first tree has. The
/// classes are `known` where they head two different families; where they don't, the line has other classes.
#[derive(Drop)]
pub struct MarkedLine {
    pub line: ClassLine,
    pub known: bool,
    pub second_at: usize,
    pub class_at: usize,
    pub nodes: usize,
}

#[derive(Clone, Copy)]
struct TriplePair {
    first: u32,
    second: u32,
    second_at: usize,
}

// Two triples by number.
fn read_triples(text: &[u8], at: usize) -> Result<Found<TriplePair>, CertRefusal>
    requires { at ≤ length text.now }
    ensures read { IfOk result (λ f. IsRead text.now at f.to (triples_text f.value.first f.value.second)) }
    ensures stands { IfOk result (λ f. IsStanding Triples 64 text.now at f.to) }
    ensures refused { IfErr result (λ e. IsPartRefused Triples 64 text.now at e) }
{
    let begun = read_word(text, at, b"t")?;
    let first = read_number(text, begun)?;
    let second_at = read_word(text, first.to, b" ")?;
    let between = read_word(text, second_at, b"t")?;
    let second = read_number(text, between)?;
    Ok(Found {
        value: TriplePair {
            first: first.value,
            second: second.value,
            second_at,
        },
        to: second.to,
    })
}

fn is_head(class: ClassId) -> bool
    ensures { (result ≡ true) ↔ IsHead class }
{
    class == ClassId::temporal_entity()
        || class == ClassId::time_span()
        || class == ClassId::persistent_item()
}

#[derive(Clone, Copy)]
struct Classes {
    first: ClassId,
    second: ClassId,
    known: bool,
}

// The two classes, where they head two different families.
fn families(first: Option<ClassId>, second: Option<ClassId>) -> Classes
    ensures pair { result.known ≡ true → IsFamilyPair result.first result.second }
    ensures same { result.known ≡ true → (first ≡ Some result.first) × (second ≡ Some result.second) }
{
    let none = ClassId::from_number(0);
    match (first, second) {
        (Some(c), Some(d)) => Classes {
            first: c,
            second: d,
            known: c != d && is_head(c) && is_head(d),
        },
        _ => Classes {
            first: none,
            second: none,
            known: false,
        },
    }
}

fn read_classes(text: &[u8], at: usize) -> Result<Found<Classes>, CertRefusal>
    requires { at ≤ length text.now }
    ensures moves { IfOk result (λ f. (at ≤ f.to) × (f.to ≤ length text.now)) }
    ensures pair { IfOk result (λ f. f.value.known ≡ true → IsFamilyPair f.value.first f.value.second) }
    ensures read { IfOk result (λ f. f.value.known ≡ true → IsRead text.now at f.to (classes_text f.value.first f.value.second)) }
    ensures stands { IfOk result (λ f. IsStanding CodePair 64 text.now at f.to) }
    ensures refused { IfErr result (λ e. IsPartRefused CodePair 64 text.now at e) }
{
    let first = read_code(text, at)?;
    let between = read_word(text, first.to, b" ")?;
    let second = read_code(text, between)?;
    Ok(Found {
        value: families(first.value, second.value),
        to: second.to,
    })
}

fn class_line(
    triples: TriplePair,
    classes: Classes,
    first_tree: ClassProof,
    second_tree: ClassProof,
) -> ClassLine
    ensures { result ≡ record {
      first = triples.first;
      second = triples.second;
      first_class = classes.first;
      second_class = classes.second;
      first_tree = first_tree;
      second_tree = second_tree;
    } }
{
    ClassLine {
        first: triples.first,
        second: triples.second,
        first_class: classes.first,
        second_class: classes.second,
        first_tree,
        second_tree,
    }
}

/// The line that begins here, with its line feed. It is the one that is spelled here, unless its classes are not
/// known or a tree names a class that isn't there.
pub fn read_class_line(
    alloc: Global,
    text: &[u8],
    at: usize,
    notes: &mut Notes,
) -> Result<Found<MarkedLine>, CertRefusal>
    requires { at ≤ length text.now }
    ensures moves { IfOk result (λ f. (at + class_line_nodes f.value.line < f.to) × (f.to ≤ length text.now)) }
    ensures pair { IfOk result (λ f. f.value.known ≡ true → IsFamilyPair f.value.line.first_class f.value.line.second_class) }
    ensures read { notes.new.unknown ≡ None → IfOk result (λ f. f.value.known ≡ true → IsRead text.now at f.to (class_line_text f.value.line ++ 10 ∷ [])) }
    ensures stands { IfOk result (λ f. IsStanding ClassLineForm 64 text.now at f.to) }
    ensures refused { IfErr result (λ e. IsPartRefused ClassLineForm 64 text.now at e) }
{
    let begun = read_word(text, at, b"class ")?;
    let triples = read_triples(text, begun)?;
    let class_at = read_word(text, triples.to, b" ")?;
    let classes = read_classes(text, class_at)?;
    let tree_at = read_word(text, classes.to, b" ")?;
    let first_tree = read_tree(alloc, &ClassLeaves, text, tree_at, DEPTH, notes)?;
    let nodes = notes.places.len();
    let other_at = read_word(text, first_tree.to, b" ")?;
    let second_tree = read_tree(alloc, &ClassLeaves, text, other_at, DEPTH, notes)?;
    let to = read_word(text, second_tree.to, b"\n")?;
    let line = class_line(
        triples.value,
        classes.value,
        first_tree.value,
        second_tree.value,
    );
    Ok(Found {
        value: MarkedLine {
            line,
            known: classes.value.known,
            second_at: triples.value.second_at,
            class_at,
            nodes,
        },
        to,
    })
}
