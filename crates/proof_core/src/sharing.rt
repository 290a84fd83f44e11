// A theory that keeps what was concluded, so that later proofs may cite it.
ghost use Rattle.std.specs.Prelude.{◌≡◌, ◌<◌, ◌+◌, ◌-◌, ◌^◌, ◌++◌, ◌∷◌, [], length, IfOk, IfErr, OnErr, All};
ghost use Rattle.proof_core.specs.Proofs.{Concludes, IsFirstBad, node_count};
ghost use Rattle.proof_core.specs.Sharing.{shared_rules};
ghost use Rattle.proof_core.specs.Refusing.{IsRefused};

use crate::{BadAt, FactList, Proof, SharedLeaf, Theory, check};
use std::alloc::{AllocError, Global};

/// A theory, and the facts that were concluded in it. A later proof may cite each of them by its number.
#[derive(Drop)]
pub struct Shared<T: Theory> {
    theory: T,
    kept: FactList<T::Fact>,
}

/// Why nothing is kept.
#[derive(Clone, Copy, PartialEq, Eq, Debug)]
pub enum KeepFault {
    /// The first bad node of the proof.
    Bad(BadAt),
    /// The proof concludes a fact, for which there is no memory.
    Memory,
}

// The rules are those of the theory, and `Earlier(n)` gives the kept fact n. Since a law speaks of every value,
// also of one whose kept facts nobody proved, a fact is true here where the kept facts make it true in the
// theory; `keep` lets in only what is true.
impl<T: Theory> Theory for Shared<T> {
    ghost use Rattle.std.specs.Prelude.{All};
    ghost use Rattle.proof_core.specs.Sharing.{shared_rules, shared_keeps};

    type Fact = T::Fact;

    type Leaf = SharedLeaf<T::Leaf>;

    type Rule1 = T::Rule1;

    type Rule2 = T::Rule2;

    ghost rules = { λ s. shared_rules (T.rules s.theory) s.kept };

    ghost IsTrueIn = { λ s f. All (T.IsTrueIn s.theory) s.kept → T.IsTrueIn s.theory f };

    ghost keeps_truth = { λ s. shared_keeps (T.rules s.theory) (T.IsTrueIn s.theory) s.kept (T.keeps_truth s.theory) };

    fn leaf(&self, l: &SharedLeaf<T::Leaf>) -> Option<T::Fact> {
        match l {
            SharedLeaf::Own(own) => self.theory.leaf(own),
            SharedLeaf::Earlier(n) => self.kept.get(*n as usize).copied(),
        }
    }

    fn one(&self, r: &T::Rule1, f: T::Fact) -> Option<T::Fact> {
        self.theory.one(r, f)
    }

    fn two(&self, r: &T::Rule2, f: T::Fact, g: T::Fact) -> Option<T::Fact> {
        self.theory.two(r, f, g)
    }
}

impl<T: Theory> Shared<T> {
    /// The theory, with no fact kept.
    pub fn new(alloc: Global, theory: T) -> Shared<T>
        ensures { (result.theory ≡ theory) × (result.kept ≡ []) }
    {
        Shared {
            theory,
            kept: FactList::new(alloc),
        }
    }

    /// Keeps what the proof concludes, and answers its number: how many facts were kept before. Where all kept
    /// facts were true they are so afterwards. At an error everything is as it was.
    pub fn keep(
        &mut self,
        proof: &Proof<SharedLeaf<T::Leaf>, T::Rule1, T::Rule2>,
    ) -> Result<u32, KeepFault>
        requires nodes { node_count proof.now < 2 ^ 32 }
        requires room { length self.old.kept < 2 ^ 32 - 1 }
        ensures theory { self.new.theory ≡ self.old.theory }
        ensures kept { IfOk result (λ n. (n ≡ length self.old.kept) × ((f : T.Fact) × ((self.new.kept ≡ self.old.kept ++ f ∷ [])
            × Concludes (shared_rules (T.rules self.old.theory) self.old.kept) proof.now f))) }
        ensures truth { All (T.IsTrueIn self.old.theory) self.old.kept → All (T.IsTrueIn self.new.theory) self.new.kept }
        ensures unchanged { OnErr result (self.new.kept ≡ self.old.kept) }
        ensures bad { IfErr result (λ e. IsRefused (shared_rules (T.rules self.old.theory) self.old.kept) proof.now e) }
    {
        let number = self.kept.len() as u32;
        match check(&*self, proof) {
            Ok(fact) => match self.kept.push(fact) {
                Ok(()) => Ok(number),
                Err(_) => Err(KeepFault::Memory),
            },
            Err(bad) => Err(KeepFault::Bad(bad)),
        }
    }
}
