// Distinct triples.
ghost use Rattle.std.specs.List.{IsDistinct};
ghost use Rattle.std.specs.Prelude.{◌≡◌, ℕ, ◌<◌, ◌≤◌, false, true, not, List, [], length, IfOk, OnOk, OnErr, IsErrOf, slice_get};
ghost use Rattle.rdf_terms.specs.Terms.{is_held, with_triple, same_terms};

use crate::{Names, Term, Triple};
use indexmap::IndexMap;
use std::alloc::Global;
use std::marker::Model;

/// How many triples there are at most.
pub const TRIPLE_LIMIT: usize = 262_144;

/// Why a triple was not taken.
#[derive(Clone, Copy, Debug, PartialEq, Eq)]
pub enum TripleFault {
    /// It is new, and as many triples are held as may be.
    TooMany,
    /// Memory was wanting.
    Memory,
}

/// Triples with different terms, in the order of their first coming.
#[derive(Drop)]
pub struct Triples {
    places: IndexMap<(Term, Term, Term), u64>,
}

impl Model for Triples {
    ghost use Rattle.std.specs.Prelude.{List, ℕ, ◌≤◌, map, length};
    ghost use Rattle.rdf_terms.specs.declared.terms.Triple.{Triple};
    ghost use Rattle.rdf_terms.specs.Terms.{triple_of};

    ghost Value = { List Triple };

    ghost view = { λ t. map triple_of t.places.entries };

    ghost invariant = { λ t. length t.places.entries ≤ 262144 };
}

impl Triples {
    /// No triples.
    pub fn new(alloc: Global) -> Triples
        ensures { result ≡ [] }
    {
        Triples {
            places: IndexMap::new(alloc),
        }
    }

    /// Adds a triple at the end, and answers true, where no triple has its three terms; else answers false.
    /// A triple that is not added leaves all as before.
    pub fn add(&mut self, t: Triple) -> Result<bool, TripleFault>
        ensures added { IfOk result (λ added. added ≡ not (is_held self.old t)) }
        ensures held { OnOk result (self.new ≡ with_triple self.old t) }
        ensures too_many { IsErrOf result TripleFault.TooMany → (is_held self.old t ≡ false) × (length self.old ≡ TRIPLE_LIMIT) }
        ensures full { is_held self.old t ≡ false → length self.old ≡ TRIPLE_LIMIT → IsErrOf result TripleFault.TooMany }
        ensures within { OnOk result (length self.new ≤ TRIPLE_LIMIT) }
        ensures err { OnErr result (self.new ≡ self.old) }
    {
        let key = (t.s, t.p, t.o);
        if self.places.contains_key(&key) {
            return Ok(false);
        }
        if self.places.len() >= TRIPLE_LIMIT {
            return Err(TripleFault::TooMany);
        }
        let Ok(_) = self.places.insert(key, t.at) else {
            return Err(TripleFault::Memory);
        };
        Ok(true)
    }

    /// How many triples there are.
    pub fn len(&self) -> u32
        ensures len { result ≡ length self.now }
        ensures small { result ≤ TRIPLE_LIMIT }
        ensures distinct { IsDistinct same_terms self.now }
    {
        self.places.len() as u32
    }

    /// The triple of a number, or None where no triple has it.
    pub fn get(&self, i: u32) -> Option<Triple>
        ensures { result ≡ slice_get self.now i }
    {
        match self.places.get_index(i as usize) {
            Some((key, at)) => Some(Triple {
                s: key.0,
                p: key.1,
                o: key.2,
                at: *at,
            }),
            None => None,
        }
    }
}

/// The names and the triples of a document.
#[derive(Drop)]
pub struct Records {
    /// Its IRIs and literals.
    pub names: Names,
    /// Its distinct triples.
    pub triples: Triples,
}
