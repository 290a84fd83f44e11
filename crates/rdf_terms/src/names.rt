// Names by number.
ghost use Rattle.std.specs.Prelude.{◌≡◌, ◌+◌, ◌<◌, ◌≤◌, ◌^◌, ℕ, false, true, [], length, IfOk, OnOk, OnErr, IfSome, IsErrOf, slice_get, position};
ghost use Rattle.std.specs.Option.{option_map, option_copied};
ghost use Rattle.std.specs.Str.{bytes_eq};
ghost use Rattle.rdf_terms.specs.Naming.{NameLists, has_iri, iri_number, with_iri, has_literal, literal_number, with_literal, name_count, AreDistinct};

use crate::{Literal, Term};
use indexmap::IndexSet;
use std::alloc::Global;
use std::marker::Model;

/// How many IRIs and literals there are at most, counted together.
pub const NAME_LIMIT: usize = 262_144;

/// Why a name was not taken.
#[derive(Clone, Copy, Debug, PartialEq, Eq)]
pub enum NameFault {
    /// It is new, and as many names are held as may be.
    TooMany,
    /// Memory was wanting.
    Memory,
}

/// The IRIs and the literals of a document, two lists without repeats in the order of first coming, each numbered from 0.
#[derive(Drop)]
pub struct Names {
    alloc: Global,
    iris: IndexSet<String>,
    literals: IndexSet<Literal>,
}

impl Model for Names {
    ghost use Rattle.std.specs.Prelude.{List, ℕ, ◌≤◌, ◌+◌, map, length, string_bytes};
    ghost use Rattle.rdf_terms.specs.Naming.{NameLists, AreShort};

    ghost Value = { NameLists };

    ghost view = { λ n. record { iris = map string_bytes n.iris.keys; literals = n.literals.keys } };

    ghost invariant = { λ n. (length n.iris.keys + length n.literals.keys ≤ 262144) × AreShort n.literals.keys };
}

impl Names {
    /// No names.
    pub fn new(alloc: Global) -> Names
        ensures { result ≡ record { iris = []; literals = [] } }
    {
        Names {
            alloc,
            iris: IndexSet::new(alloc),
            literals: IndexSet::new(alloc),
        }
    }

    /// How many IRIs and literals there are, counted together.
    pub fn len(&self) -> u32
        ensures count { result ≡ name_count self.now }
        ensures within { result ≤ NAME_LIMIT }
        ensures distinct { AreDistinct self.now }
    {
        (self.iris.len() + self.literals.len()) as u32
    }

    // Whether as many names are held as may be.
    fn is_full(&self) -> bool
        ensures full { result ≡ true → name_count self.now ≡ NAME_LIMIT }
        ensures room { result ≡ false → name_count self.now < NAME_LIMIT }
    {
        self.len() as usize >= NAME_LIMIT
    }

    /// The number of an IRI, a new one last. Where it can't be taken, all is as before.
    #[tactic(auto, using(crate::proofs::Numbered::list_any_map, crate::proofs::Numbered::position_map, crate::proofs::Numbered::map_push, std::proofs::lemmas::Grind::common_steps))]
    pub fn iri(&mut self, text: &str) -> Result<Term, NameFault>
        ensures number { IfOk result (λ t. t ≡ Term.Iri (iri_number self.old text.now)) }
        ensures named { OnOk result (self.new ≡ with_iri self.old text.now) }
        ensures too_many { IsErrOf result NameFault.TooMany → (has_iri self.old text.now ≡ false) × (name_count self.old ≡ NAME_LIMIT) }
        ensures full { has_iri self.old text.now ≡ false → name_count self.old ≡ NAME_LIMIT → IsErrOf result NameFault.TooMany }
        ensures within { name_count self.new ≤ NAME_LIMIT }
        ensures err { OnErr result (self.new ≡ self.old) }
    {
        if let Some(n) = self.iris.get_index_of(text) {
            return Ok(Term::Iri(n as u32));
        }
        if self.is_full() {
            return Err(NameFault::TooMany);
        }
        let Ok(name) = String::from_str(self.alloc, text) else {
            return Err(NameFault::Memory);
        };
        let Ok((n, _)) = self.iris.insert_full(name) else {
            return Err(NameFault::Memory);
        };
        Ok(Term::Iri(n as u32))
    }

    /// The number of a literal, a new one last. Where it can't be taken, all is as before.
    pub fn literal(&mut self, value: Literal) -> Result<Term, NameFault>
        requires { length value.lexical < 2 ^ 32 }
        ensures number { IfOk result (λ t. t ≡ Term.Lit (literal_number self.old value)) }
        ensures named { OnOk result (self.new ≡ with_literal self.old value) }
        ensures too_many { IsErrOf result NameFault.TooMany → (has_literal self.old value ≡ false) × (name_count self.old ≡ NAME_LIMIT) }
        ensures full { has_literal self.old value ≡ false → name_count self.old ≡ NAME_LIMIT → IsErrOf result NameFault.TooMany }
        ensures within { name_count self.new ≤ NAME_LIMIT }
        ensures err { OnErr result (self.new ≡ self.old) }
    {
        if self.is_full() {
            return match self.literals.get_index_of(&value) {
                Some(n) => Ok(Term::Lit(n as u32)),
                None => Err(NameFault::TooMany),
            };
        }
        let Ok((n, _)) = self.literals.insert_full(value) else {
            return Err(NameFault::Memory);
        };
        Ok(Term::Lit(n as u32))
    }

    /// The term of an IRI, or None where it is not among the names.
    #[tactic(auto, using(crate::proofs::Numbered::found_map))]
    pub fn find_iri(&self, text: &str) -> Option<Term>
        ensures { result ≡ option_map (λ n. Term.Iri n) (position (bytes_eq text.now) self.now.iris) }
    {
        match self.iris.get_index_of(text) {
            Some(n) => Some(Term::Iri(n as u32)),
            None => None,
        }
    }

    /// The IRI of a number, or None where no IRI has it.
    pub fn get_iri(&self, n: u32) -> Option<&str>
        ensures { option_map (λ s. s.now) result ≡ slice_get self.now.iris n }
    {
        match self.iris.get_index(n as usize) {
            Some(name) => Some(name.as_str()),
            None => None,
        }
    }

    /// The literal of a number, or None where no literal has it.
    pub fn get_literal(&self, n: u32) -> Option<&Literal>
        ensures literal { option_copied result ≡ slice_get self.now.literals n }
        ensures short { IfSome result (λ l. length l.now.lexical < 2 ^ 32) }
    {
        self.literals.get_index(n as usize)
    }
}
