// All held triples.
ghost use Rattle.std.specs.Prelude.{◌≡◌, ◌≤◌, length, drop, position};
ghost use Rattle.std.specs.Iterator.{YieldsFirst, item_count};
ghost use Rattle.triple_pool.specs.declared.Slot.{Slot};

use crate::Slot;
use rdf_terms::Triple;
use std::marker::Model;

/// The held triples with their numbers, ascending.
#[derive(Drop)]
pub struct Pairs<'a> {
    pub(crate) rest: &'a [Slot],
    pub(crate) at: u32,
}

impl<'a> Model for Pairs<'a> {
    ghost use Rattle.std.specs.Prelude.{ℕ, List, length, ◌+◌, ◌≤◌};
    ghost use Rattle.rdf_terms.specs.declared.terms.Triple.{Triple};

    ghost Value = { List (ℕ × Triple) };

    ghost use Rattle.triple_pool.specs.Chains.{pairs_from};

    ghost view = { λ p. pairs_from p.at p.rest.now };

    ghost invariant = { λ p. p.at + length p.rest.now ≤ 262144 };
}

// The place of the first held record.
fn first_held(slots: &[Slot]) -> Option<usize>
    ensures { result ≡ position (λ (s : Slot). s.held) slots.now }
{
    slots.iter().position(|slot| slot.held)
}

// What is left behind the first n records.
#[tactic(auto, using(std::proofs::lemmas::List::take_rest))]
fn behind(slots: &[Slot], n: usize) -> &[Slot]
    requires { n ≤ length slots.now }
    ensures { result.now ≡ drop n slots.now }
{
    &slots[n..]
}

impl<'a> Iterator for Pairs<'a> {
    type Item = (u32, Triple);

    ghost next_gives = { YieldsFirst (λ p. p) };

    ghost remaining = { item_count (λ p. p) };

    fn next(&mut self) -> Option<(u32, Triple)> {
        match first_held(self.rest) {
            None => None,
            Some(gap) => {
                let triple = self.rest[gap].triple;
                let number = self.at + gap as u32;
                self.at = number + 1;
                self.rest = behind(self.rest, gap + 1);
                Some((number, triple))
            }
        }
    }
}
