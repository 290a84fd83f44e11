// Walks along one chain.
ghost use Rattle.std.specs.Prelude.{◌≡◌, ◌<◌, IfSome, true};
ghost use Rattle.std.specs.Iterator.{YieldsFirst, item_count};

use crate::{Place, Slot, links_of};
use rdf_terms::Term;
use std::marker::Model;

/// The numbers of the held triples that have a term at a place, ascending.
#[derive(Drop)]
pub struct Walk<'a> {
    pub(crate) slots: &'a [Slot],
    pub(crate) place: Place,
    pub(crate) term: Term,
    pub(crate) at: Option<u32>,
}

impl<'a> Model for Walk<'a> {
    ghost use Rattle.std.specs.Prelude.{ℕ, List, length};
    ghost use Rattle.triple_pool.specs.Chains.{listed_at, is_at};

    ghost Value = { List ℕ };

    ghost use Rattle.triple_pool.specs.Walks.{IsWalking};

    ghost view = { λ w. listed_at (is_at w.place w.term w.slots.now) (length w.slots.now) w.at };

    ghost invariant = { λ w. IsWalking w.place w.slots.now w.term w.at };
}

impl<'a> Iterator for Walk<'a> {
    type Item = u32;

    ghost next_gives = { YieldsFirst (λ w. w) };

    ghost remaining = { item_count (λ w. w) };

    fn next(&mut self) -> Option<u32> {
        match self.at {
            None => None,
            Some(number) => {
                self.at = links_of(&self.slots[number as usize], self.place).next;
                Some(number)
            }
        }
    }
}
