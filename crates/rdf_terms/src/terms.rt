// Terms, triples and literals, and the refusals of a text.
ghost use Rattle.std.specs.Prelude.{◌≡◌, ◌&&◌, ◌++◌, nat_eq};
ghost use Rattle.std.specs.Str.{bytes_eq};
ghost use Rattle.std.specs.Hash as fed;
ghost use Rattle.std.specs.Cmp.Rules.{comparing, hashing};
ghost use Rattle.std.proofs.Common.{rules};

use crm_outside::Text;
use std::hash::{Hash, Hasher};

/// A term: an IRI or a literal by its number among the names, or a blank node by its number.
#[derive(Clone, Copy, Debug, PartialEq, Eq, PartialOrd, Ord, Hash)]
pub enum Term {
    /// The IRI of this number.
    Iri(u32),
    /// The blank node of this number.
    Blank(u32),
    /// The literal of this number.
    Lit(u32),
}

/// A triple of subject, predicate and object, and the byte offset at which its object begins in the text.
#[derive(Clone, Copy, Debug, PartialEq, Eq)]
pub struct Triple {
    /// The subject.
    pub s: Term,
    /// The predicate.
    pub p: Term,
    /// The object.
    pub o: Term,
    /// The byte offset of the object.
    pub at: u64,
}

/// A literal by its lexical form, the IRI of its datatype and its language tag, which is empty where it has none.
#[derive(Drop)]
pub struct Literal {
    /// The lexical form.
    pub lexical: Text,
    /// The IRI of the datatype.
    pub datatype: Text,
    /// The language tag, or nothing.
    pub tag: Text,
}

impl PartialEq for Literal {
    ghost eq = { λ a b. bytes_eq a.lexical b.lexical && (bytes_eq a.datatype b.datatype && bytes_eq a.tag b.tag) };

    ghost laws = { Prim.search (comparing, rules) };

    fn eq(&self, other: &Literal) -> bool {
        self.lexical.as_str() == other.lexical.as_str()
            && self.datatype.as_str() == other.datatype.as_str()
            && self.tag.as_str() == other.tag.as_str()
    }
}

impl Eq for Literal {
    ghost laws = { Prim.search (comparing, rules) };
}

impl Hash for Literal {
    ghost hash_input = { λ l. fed.str l.lexical ++ (fed.str l.datatype ++ fed.str l.tag) };

    ghost respects_eq = { Prim.search (hashing, rules) };

    fn hash<H: Hasher>(&self, state: &mut H) {
        self.lexical.as_str().hash(state);
        self.datatype.as_str().hash(state);
        self.tag.as_str().hash(state);
    }
}

/// Why a text was refused.
#[derive(Clone, Copy, Debug, PartialEq, Eq)]
pub enum Code {
    /// The bytes are no UTF-8.
    U1,
    /// No token begins here.
    G1,
    /// The tokens up to this one have no continuation.
    G2,
    /// The text ends inside a statement.
    G3,
    /// The prefix of this name is not defined.
    G4,
    /// This reference has no scheme, and no base is in force.
    G5,
    /// An escape gives a character that no IRI may have.
    G6,
    /// The file is too long.
    L1,
    /// A token is too long.
    L2,
    /// Too many brackets stand open.
    L3,
    /// There are too many distinct triples.
    L4,
    /// There are too many distinct IRIs and literals.
    L5,
    /// There are too many extents.
    L6,
    /// There are too many distinct dates.
    L7,
    /// There are too many orders.
    L8,
    /// A certificate would be too long.
    L9,
}

/// A refusal by its code, and the byte offset, or the count, that it is about.
#[derive(Clone, Copy, Debug, PartialEq, Eq)]
pub struct Refusal {
    /// Why.
    pub code: Code,
    /// The byte offset or the count.
    pub at: u64,
}
