// Balanced proofs.
ghost use Rattle.std.specs.Prelude.{◌≡◌, ◌<◌, ◌≤◌, ◌-◌, ◌+◌, ◌*◌, ℕ, OnOk, IfOk, length, take, drop, map};
ghost use Rattle.proof_core.specs.Balanced.{IsBalanced, IsAssociative, TakesToOne, depth, joined};
ghost use Rattle.proof_core.specs.Proofs.{conclusion, node_count};

use crate::{LeafList, Proof, Theory};
use std::alloc::{AllocError, Global};

// The balanced proof over the last `count` leaves, which are taken.
fn build<L: Drop, R: Drop, J: Copy>(
    alloc: Global,
    leaves: &mut Vec<L>,
    count: usize,
    rule: J,
) -> Result<Proof<L, R, J>, AllocError>
    requires some { 0 < count }
    requires within { count ≤ length leaves.old.items }
    ensures taken { OnOk result (leaves.new.items ≡ take (length leaves.old.items - count) leaves.old.items) }
    ensures balanced { IfOk result (λ p. IsBalanced rule (drop (length leaves.old.items - count) leaves.old.items) p) }
{
    if count == 1 {
        let leaf = leaves.pop().unwrap();
        return Ok(Proof::Leaf(leaf));
    }
    let half = count / 2;
    let second = build(alloc, leaves, count - half, rule)?;
    let first = build(alloc, leaves, half, rule)?;
    Ok(Proof::Two(rule, Box::new(alloc, first)?, Box::new(alloc, second)?))
}

/// The balanced proof over the leaves: one leaf is itself; more are joined from the balanced first half,
/// rounded down, and the balanced rest. It is at most one node deeper than the halvings, each rounded up,
/// that take the count of leaves to one. Where the rule is associative it concludes what joining the leaves
/// from left to right concludes. The theory is only what the contract speaks of.
#[tactic(auto, using(crate::proofs::Halves::balanced_concludes, crate::proofs::Halves::balanced_halves, crate::proofs::Halves::balanced_size))]
pub fn balance<T: Theory>(
    alloc: Global,
    theory: &T,
    leaves: LeafList<T::Leaf>,
    rule: T::Rule2,
) -> Result<Proof<T::Leaf, T::Rule1, T::Rule2>, AllocError>
    requires { 0 < length leaves }
    ensures balanced { IfOk result (λ p. IsBalanced rule leaves p) }
    ensures size { IfOk result (λ p. node_count p + 1 ≡ 2 * length leaves) }
    ensures depth { IfOk result (λ p. (h : ℕ) × (TakesToOne h (length leaves) × (depth p ≤ h + 1))) }
    ensures concludes { IfOk result (λ p. IsAssociative ((T.rules theory.now).two rule) →
        conclusion (T.rules theory.now) p ≡ joined ((T.rules theory.now).two rule) (map (T.rules theory.now).leaf leaves)) }
{
    let mut items = leaves.into_vec();
    let count = items.len();
    build(alloc, &mut items, count, rule)
}
