// The leaves of trees, and what is noted where they are read.
ghost use Rattle.std.specs.Prelude.{◌≡◌, ◌<◌, ◌≤◌, ◌∷◌, [], None, Some, IfOk, IfSome, List, ℕ, Bool, false, length, IfErr};
ghost use Rattle.std.specs.Fmt.{decimal};
ghost use Rattle.certificate_trees.specs.Reads.{IsRead};
ghost use Rattle.certificate_trees.specs.Beginnings.{IsWhole, IsRefused};
ghost use Rattle.certificate_trees.specs.Grammar.{Name};
ghost use Rattle.certificate_trees.specs.Names.{IsFaithful, IsSure, bad_cover, bad_shared, noted, or_else, unknown_name};
ghost use Rattle.certificate_trees.specs.LeafGrammar.{Code, LeafKind, OfOrders, OfCovers, OfClasses, LeafOf};
ghost use Rattle.crm_classes.specs.Classes.{code_text};

use crate::CertRefusal;
use crate::words::{Found, read_number, read_word, stands_at};
use crm_classes::{ClassId, class_of_bytes};
use proof_core::SharedLeaf;
use std::alloc::Global;

/// What is noted where a line is read: the place of its first name that nothing has, and the places of the
/// nodes of its trees, each tree in post-order.
#[derive(Drop)]
pub struct Notes {
    pub unknown: Option<usize>,
    pub places: Vec<usize>,
}

impl Notes {
    /// Notes of nothing.
    pub fn new(alloc: Global) -> Notes
        ensures unknown { result.unknown ≡ None }
        ensures places { result.places.items ≡ [] }
    {
        Notes {
            unknown: None,
            places: Vec::new(alloc),
        }
    }

    // Notes that nothing has the name at this place, where it is the first.
    fn note_unknown(&mut self, at: usize)
        ensures first { self.new.unknown ≡ or_else self.old.unknown (Some at) }
        ensures noted { ¬ (self.new.unknown ≡ None) }
        ensures places { self.new.places ≡ self.old.places }
    {
        if self.unknown.is_none() {
            self.unknown = Some(at);
        }
    }
}

/// A form of leaves, with the text of each leaf.
pub trait LeafForm: Drop {
    /// What a leaf says.
    type Leaf: Drop;

    /// How a leaf is spelled.
    ghost text_of: { Self.Leaf → List ℕ };

    /// What may stand as a leaf.
    ghost kind_of: { Self → LeafKind };

    /// Whether a leaf names what isn't there; said of leaves alone that are read as they are spelled.
    ghost names_nothing: { Self → Self.Leaf → Bool };

    /// Reads the leaf that stands here. Where it names what isn't there, this is noted, and a leaf of classes may
    /// be another.
    fn read_leaf(
        &self,
        text: &[u8],
        at: usize,
        notes: &mut Notes,
    ) -> Result<Found<Self::Leaf>, CertRefusal>
        requires { at ≤ length text.now }
        ensures sticky { notes.new.unknown ≡ None → notes.old.unknown ≡ None }
        ensures places { notes.new.places ≡ notes.old.places }
        ensures moves { IfOk result (λ f. (at < f.to) × (f.to ≤ length text.now)) }
        ensures read { IsSure (kind_of self.now) notes.new.unknown → IfOk result (λ f. IsRead text.now at f.to (text_of f.value)) }
        ensures noted { IsFaithful (kind_of self.now) → IfOk result (λ f. notes.new.unknown ≡ or_else notes.old.unknown (noted (names_nothing self.now f.value) at)) }
        ensures whole { IfOk result (λ f. IsWhole (LeafOf (kind_of self.now)) text.now at f.to) }
        ensures refused { IfErr result (λ e. IsRefused (LeafOf (kind_of self.now)) None text.now at e) };
}

/// A letter and a number, which is the name of something where it is below the limit.
pub fn read_name(
    text: &[u8],
    at: usize,
    letter: u8,
    limit: u32,
    notes: &mut Notes,
) -> Result<Found<u32>, CertRefusal>
    requires { at ≤ length text.now }
    ensures sticky { notes.new.unknown ≡ None → notes.old.unknown ≡ None }
    ensures places { notes.new.places ≡ notes.old.places }
    ensures moves { IfOk result (λ f. at < f.to) }
    ensures known { notes.new.unknown ≡ None → IfOk result (λ f. f.value < limit) }
    ensures noted { IfOk result (λ f. notes.new.unknown ≡ or_else notes.old.unknown (unknown_name limit f.value at)) }
    ensures read { IfOk result (λ f. IsRead text.now at f.to (letter ∷ decimal f.value)) }
    ensures whole { IfOk result (λ f. IsWhole (Name letter) text.now at f.to) }
    ensures refused { IfErr result (λ e. IsRefused (Name letter) None text.now at e) }
{
    if !stands_at(text, at, letter) {
        return Err(CertRefusal::K1(at as u64));
    }
    let found = read_number(text, at + 1)?;
    if found.value >= limit {
        notes.note_unknown(at);
    }
    Ok(found)
}

/// Orders `oN` below a count, and where there are `let` lines what they keep, `lN` below a count.
#[derive(Drop)]
pub struct OrderLeaves {
    pub orders: u32,
    pub kept: Option<u32>,
}

impl LeafForm for OrderLeaves {
    ghost use Rattle.certificate_trees.specs.TreeTexts.{shared_leaf};

    type Leaf = SharedLeaf<u32>;

    ghost text_of = { shared_leaf };

    ghost kind_of = { λ f. OfOrders f.kept };

    ghost names_nothing = { λ f l. bad_shared f.orders f.kept l };

    fn read_leaf(
        &self,
        text: &[u8],
        at: usize,
        notes: &mut Notes,
    ) -> Result<Found<SharedLeaf<u32>>, CertRefusal> {
        if let Some(kept) = self.kept
            && stands_at(text, at, b'l')
        {
            let found = read_name(text, at, b'l', kept, notes)?;
            return Ok(Found {
                value: SharedLeaf::Earlier(found.value),
                to: found.to,
            });
        }
        let found = read_name(text, at, b'o', self.orders, notes)?;
        Ok(Found {
            value: SharedLeaf::Own(found.value),
            to: found.to,
        })
    }
}

/// Covers `cN` below a count.
#[derive(Drop)]
pub struct CoverLeaves {
    pub covers: u32,
}

impl LeafForm for CoverLeaves {
    ghost use Rattle.certificate_trees.specs.TreeTexts.{cover_leaf};

    type Leaf = u32;

    ghost text_of = { cover_leaf };

    ghost kind_of = { λ f. OfCovers };

    ghost names_nothing = { λ f l. bad_cover f.covers l };

    fn read_leaf(
        &self,
        text: &[u8],
        at: usize,
        notes: &mut Notes,
    ) -> Result<Found<u32>, CertRefusal> {
        read_name(text, at, b'c', self.covers, notes)
    }
}

/// `low` is `high` or below it.
#[derive(Clone, Copy, PartialEq, Eq, Debug)]
pub struct ClassFact {
    pub low: ClassId,
    pub high: ClassId,
}

/// A class code, `E` or `A` and a number; None where no class has it.
pub fn read_code(text: &[u8], at: usize) -> Result<Found<Option<ClassId>>, CertRefusal>
    requires { at ≤ length text.now }
    ensures moves { IfOk result (λ f. (at < f.to) × (f.to ≤ length text.now)) }
    ensures read { IfOk result (λ f. IfSome f.value (λ c. IsRead text.now at f.to (code_text c))) }
    ensures whole { IfOk result (λ f. IsWhole Code text.now at f.to) }
    ensures refused { IfErr result (λ e. IsRefused Code None text.now at e) }
{
    if !stands_at(text, at, b'E') && !stands_at(text, at, b'A') {
        return Err(CertRefusal::K1(at as u64));
    }
    let found = read_number(text, at + 1)?;
    Ok(Found {
        value: class_of_bytes(&text[at..found.to]),
        to: found.to,
    })
}

fn read_class(text: &[u8], at: usize, notes: &mut Notes) -> Result<Found<ClassId>, CertRefusal>
    requires { at ≤ length text.now }
    ensures sticky { notes.new.unknown ≡ None → notes.old.unknown ≡ None }
    ensures places { notes.new.places ≡ notes.old.places }
    ensures moves { IfOk result (λ f. (at < f.to) × (f.to ≤ length text.now)) }
    ensures read { notes.new.unknown ≡ None → IfOk result (λ f. IsRead text.now at f.to (code_text f.value)) }
    ensures whole { IfOk result (λ f. IsWhole Code text.now at f.to) }
    ensures refused { IfErr result (λ e. IsRefused Code None text.now at e) }
{
    let found = read_code(text, at)?;
    let value = match found.value {
        Some(class) => class,
        None => {
            notes.note_unknown(at);
            ClassId::from_number(0)
        }
    };
    Ok(Found {
        value,
        to: found.to,
    })
}

/// Two classes, `CODE.CODE`.
#[derive(Drop)]
pub struct ClassLeaves;

impl LeafForm for ClassLeaves {
    ghost use Rattle.certificate_trees.specs.TreeTexts.{class_leaf_text};

    type Leaf = ClassFact;

    ghost text_of = { class_leaf_text };

    ghost kind_of = { λ f. OfClasses };

    ghost names_nothing = { λ f l. false };

    fn read_leaf(
        &self,
        text: &[u8],
        at: usize,
        notes: &mut Notes,
    ) -> Result<Found<ClassFact>, CertRefusal> {
        let low = read_class(text, at, notes)?;
        let behind = read_word(text, low.to, b".")?;
        let high = read_class(text, behind, notes)?;
        Ok(Found {
            value: ClassFact {
                low: low.value,
                high: high.value,
            },
            to: high.to,
        })
    }
}
