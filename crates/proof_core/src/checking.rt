// The check of a proof object.
ghost use Rattle.std.specs.Prelude.{None, IfOk, IfErr, OnErr, ◌≡◌, ◌<◌, ◌≤◌, ◌+◌, ◌^◌};
ghost use Rattle.proof_core.specs.Proofs.{Concludes, IsFirstBad, conclusion, node_count, good_nodes};

use crate::{Proof, Theory};

/// The first node in post-order, counted from 0, whose rule gives nothing.
#[derive(Clone, Copy, PartialEq, Eq, Debug)]
pub struct BadAt {
    pub node: u32,
}

// The conclusion; `count` rises by the nodes before the first bad one.
#[tactic(auto, using(crate::proofs::Counts::good_at_most, crate::proofs::Counts::node_count_positive))]
fn check_counting<T: Theory>(
    theory: &T,
    proof: &Proof<T::Leaf, T::Rule1, T::Rule2>,
    count: &mut u32,
) -> Option<T::Fact>
    requires { count.old + node_count proof.now < 2 ^ 32 }
    ensures concludes { result ≡ conclusion (T.rules theory.now) proof.now }
    ensures within { count.new ≤ count.old + node_count proof.now }
    ensures counted { count.new ≡ count.old + good_nodes (T.rules theory.now) proof.now }
{
    match proof {
        Proof::Leaf(l) => {
            let fact = theory.leaf(l)?;
            *count += 1;
            Some(fact)
        }
        Proof::One(r, p) => {
            let f = check_counting(theory, p, count)?;
            let fact = theory.one(r, f)?;
            *count += 1;
            Some(fact)
        }
        Proof::Two(j, p, q) => {
            let f = check_counting(theory, p, count)?;
            let g = check_counting(theory, q, count)?;
            let fact = theory.two(j, f, g)?;
            *count += 1;
            Some(fact)
        }
    }
}

/// The conclusion of a proof, which is then true in the theory; or its first bad node.
#[tactic(auto, using(crate::proofs::FirstBad::first_bad, crate::proofs::Truth::concluded_is_true))]
pub fn check<T: Theory>(
    theory: &T,
    proof: &Proof<T::Leaf, T::Rule1, T::Rule2>,
) -> Result<T::Fact, BadAt>
    requires { node_count proof.now < 2 ^ 32 }
    ensures concludes { IfOk result (λ f. Concludes (T.rules theory.now) proof.now f) }
    ensures is_true { IfOk result (λ f. T.IsTrueIn theory.now f) }
    ensures nothing { OnErr result (conclusion (T.rules theory.now) proof.now ≡ None) }
    ensures bad { IfErr result (λ e. IsFirstBad (T.rules theory.now) proof.now e.node) }
{
    let mut count = 0;
    match check_counting(theory, proof, &mut count) {
        Some(fact) => Ok(fact),
        None => Err(BadAt { node: count }),
    }
}
