// Distinct triples in numbered records.
ghost use Rattle.std.specs.Prelude.{◌≡◌, ◌+◌, ◌<◌, ◌≤◌, ◌++◌, [], ◌∷◌, ◌⊎◌, length, true, false, Some, None, Ok, MatchOption, MatchResult, IfOk, IsErrOf, OnOk, OnErr};
ghost use Rattle.rdf_terms.specs.declared.terms.Triple.{Triple};
ghost use Rattle.triple_pool.specs.declared.Slot.{Slot};
ghost use Rattle.triple_pool.specs.declared.PoolFault.{PoolFault};
ghost use Rattle.triple_pool.specs.declared.Place.TheVariants.{Subject, Predicate, Object};
ghost use Rattle.triple_pool.specs.Pool.{Numbered, numbers_with, triple_of, without, is_held, number_from, IsNumberedFrom};
ghost use Rattle.triple_pool.specs.Tables.{IsRecordOf};
ghost use Rattle.triple_pool.specs.Answers.{Adds, Fails};

use crate::pairs::Pairs;
use crate::store::{contains, is_held_at, make_room, release, store};
use crate::table::ends_of;
use crate::walk::Walk;
use crate::{Ends, Place, PoolFault, Slot};
use indexmap::IndexMap;
use rdf_terms::{Term, Triple, Triples};
use std::alloc::{AllocError, Global};
use std::marker::Model;

// How many numbers there are at most.
const CAPACITY: usize = 262_144;

/// Distinct triples with numbers, in the order of coming.
#[derive(Drop)]
pub struct TriplePool {
    slots: Vec<Slot>,
    subjects: IndexMap<Term, Ends>,
    predicates: IndexMap<Term, Ends>,
    objects: IndexMap<Term, Ends>,
    numbers: IndexMap<(Term, Term, Term), u32>,
    held: u32,
}

impl Model for TriplePool {
    ghost use Rattle.std.specs.Prelude.{length};
    ghost use Rattle.triple_pool.specs.Pool.{Numbered};

    ghost Value = { Numbered };

    ghost use Rattle.triple_pool.specs.Chains.{pairs_from};
    ghost use Rattle.triple_pool.specs.Tables.{ends_in, number_in, IsPool};

    ghost view = { λ p. record { pairs = pairs_from 0 p.slots.items; used = length p.slots.items } };

    ghost invariant = { λ p. IsPool p.slots.items (ends_in p.subjects) (ends_in p.predicates) (ends_in p.objects) (number_in p.numbers) p.held };
}

impl TriplePool {
    /// An empty pool.
    pub fn new(alloc: Global) -> TriplePool
        ensures { result ≡ record { pairs = []; used = 0 } }
    {
        TriplePool {
            slots: Vec::new(alloc),
            subjects: IndexMap::new(alloc),
            predicates: IndexMap::new(alloc),
            objects: IndexMap::new(alloc),
            numbers: IndexMap::new(alloc),
            held: 0,
        }
    }

    /// How many triples are held.
    pub fn len(&self) -> u32
        ensures count { result ≡ length self.now.pairs }
        ensures few { length self.now.pairs ≤ 262144 }
    {
        self.held
    }

    /// The record of a number, or None where no held triple has it.
    pub fn slot(&self, i: u32) -> Option<&Slot>
        ensures { MatchOption result (triple_of i self.now.pairs ≡ None) (λ s. IsRecordOf self.now.pairs i s.now) }
    {
        let slots = self.slots.as_slice();
        if is_held_at(slots, i) {
            Some(&slots[i as usize])
        } else {
            None
        }
    }

    /// The triple of a number, or None where no held triple has it.
    pub fn get(&self, i: u32) -> Option<Triple>
        ensures { result ≡ triple_of i self.now.pairs }
    {
        match self.slot(i) {
            Some(slot) => Some(slot.triple),
            None => None,
        }
    }

    /// The held triples with their numbers, ascending.
    pub fn iter(&self) -> Pairs<'_>
        ensures pairs { result ≡ self.now.pairs }
        ensures ascending { IsNumberedFrom 0 self.now.pairs }
    {
        Pairs {
            rest: self.slots.as_slice(),
            at: 0,
        }
    }

    /// The numbers of the triples with this subject, ascending.
    pub fn by_subject(&self, t: Term) -> Walk<'_>
        ensures numbers { result ≡ numbers_with Subject t self.now.pairs }
        ensures ascending { IsNumberedFrom 0 self.now.pairs }
    {
        let first = ends_of(&self.subjects, t).first;
        Walk {
            slots: self.slots.as_slice(),
            place: Place::Subject,
            term: t,
            at: first,
        }
    }

    /// The numbers of the triples with this predicate, ascending.
    pub fn by_predicate(&self, t: Term) -> Walk<'_>
        ensures numbers { result ≡ numbers_with Predicate t self.now.pairs }
        ensures ascending { IsNumberedFrom 0 self.now.pairs }
    {
        let first = ends_of(&self.predicates, t).first;
        Walk {
            slots: self.slots.as_slice(),
            place: Place::Predicate,
            term: t,
            at: first,
        }
    }

    /// The numbers of the triples with this object, ascending.
    pub fn by_object(&self, t: Term) -> Walk<'_>
        ensures numbers { result ≡ numbers_with Object t self.now.pairs }
        ensures ascending { IsNumberedFrom 0 self.now.pairs }
    {
        let first = ends_of(&self.objects, t).first;
        Walk {
            slots: self.slots.as_slice(),
            place: Place::Object,
            term: t,
            at: first,
        }
    }

    /// Adds a triple under the next unused number, and answers it; None where its three terms are held already.
    /// A triple that is not added leaves all as before.
    pub fn add(&mut self, t: Triple) -> Result<Option<u32>, PoolFault>
        ensures answer { MatchResult result (Adds self.old self.new t) (Fails self.old self.new t) }
        ensures known { is_held t self.old.pairs ≡ true → result ≡ Ok None }
        ensures full { is_held t self.old.pairs ≡ false → self.old.used ≡ 262144 → IsErrOf result PoolFault.Full }
    {
        if contains(self.slots.as_slice(), &self.numbers, t) {
            return Ok(None);
        }
        let number = self.slots.len();
        if number >= CAPACITY {
            return Err(PoolFault::Full);
        }
        if self.append(t).is_err() {
            return Err(PoolFault::Memory);
        }
        Ok(Some(number as u32))
    }

    // Adds a triple that is not held, under the next unused number.
    fn append(&mut self, t: Triple) -> Result<(), AllocError>
        requires new { is_held t self.old.pairs ≡ false }
        requires room { self.old.used < 262144 }
        ensures ok { OnOk result (self.new ≡ record { pairs = self.old.pairs ++ (self.old.used, t) ∷ []; used = self.old.used + 1 }) }
        ensures err { OnErr result (self.new ≡ self.old) }
    {
        make_room(
            &mut self.slots,
            &mut self.subjects,
            &mut self.predicates,
            &mut self.objects,
            &mut self.numbers,
        )?;
        store(
            &mut self.slots,
            &mut self.subjects,
            &mut self.predicates,
            &mut self.objects,
            &mut self.numbers,
            t,
        );
        self.held += 1;
        Ok(())
    }

    // An empty pool with room for so many triples, each with another subject and another object.
    fn with_room(alloc: Global, count: usize) -> Result<TriplePool, AllocError>
        ensures { IfOk result (λ p. p ≡ record { pairs = []; used = 0 }) }
    {
        let slots = Vec::with_capacity(alloc, count)?;
        let subjects = IndexMap::with_capacity(alloc, count)?;
        let objects = IndexMap::with_capacity(alloc, count)?;
        let numbers = IndexMap::with_capacity(alloc, count)?;
        Ok(TriplePool {
            slots,
            subjects,
            predicates: IndexMap::new(alloc),
            objects,
            numbers,
            held: 0,
        })
    }

    /// The pool of these triples, each under its number there.
    pub fn build(alloc: Global, triples: &Triples) -> Result<TriplePool, AllocError>
        ensures { IfOk result (λ p. p ≡ record { pairs = number_from 0 triples.now; used = length triples.now }) }
    {
        let count = triples.len();
        let mut pool = TriplePool::with_room(alloc, count as usize)?;
        for i in 0..count {
            let Some(triple) = triples.get(i) else {
                unreachable!()
            };
            pool.append(triple)?;
        }
        Ok(pool)
    }

    /// Takes the triple of a number out, and answers it; all other numbers stay, and this one is not used again.
    /// None where no held triple has the number, and then all is as before.
    pub fn remove(&mut self, i: u32) -> Option<Triple>
        ensures triple { result ≡ triple_of i self.old.pairs }
        ensures pairs { self.new.pairs ≡ without i self.old.pairs }
        ensures used { self.new.used ≡ self.old.used }
    {
        if !is_held_at(self.slots.as_slice(), i) {
            return None;
        }
        let triple = release(
            self.slots.as_mut_slice(),
            &mut self.subjects,
            &mut self.predicates,
            &mut self.objects,
            i,
        );
        self.held -= 1;
        Some(triple)
    }
}
