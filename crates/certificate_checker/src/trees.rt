// What trees conclude, and the places of what is wrong with them.
ghost use Rattle.std.specs.Prelude.{◌≡◌, ◌<◌, ◌≤◌, ◌^◌, [], None, IfOk, IfErr, OnOk, length, ℕ};
ghost use Rattle.proof_core.specs.Proofs.{Concludes, node_count};
ghost use Rattle.certificate_trees.specs.declared.refusals.CertRefusal.TheVariants.{K1};
ghost use Rattle.certificate_checker.specs.Texts.{IsOfLine};

use crate::{CertRefusal, Verdict};
use certificate_reader::Notes;
use proof_core::{BadAt, Proof, Theory, check};

/// The refusal of a node, whose place stands among those of its tree.
pub(crate) fn bad_node(places: &[usize], bad: BadAt) -> CertRefusal
    ensures { (at : ℕ) → IsOfLine at result }
{
    match places.get(bad.node as usize) {
        Some(place) => CertRefusal::K4(*place as u64),
        None => CertRefusal::K4(0),
    }
}

/// What a tree concludes, or the refusal of its first bad node.
pub(crate) fn concluded<T: Theory>(
    theory: &T,
    proof: &Proof<T::Leaf, T::Rule1, T::Rule2>,
    places: &[usize],
) -> Result<T::Fact, CertRefusal>
    requires { node_count proof.now < 2 ^ 32 }
    ensures concludes { IfOk result (λ f. Concludes (T.rules theory.now) proof.now f) }
    ensures is_true { IfOk result (λ f. T.IsTrueIn theory.now f) }
    ensures refused { IfErr result (λ e. (at : ℕ) → IsOfLine at e) }
{
    match check(theory, proof) {
        Ok(fact) => Ok(fact),
        Err(bad) => Err(bad_node(places, bad)),
    }
}

/// The refusal of a tree that concludes another fact than is asked for: at its root, which comes last.
pub(crate) fn misfit(places: &[usize]) -> CertRefusal
    ensures { (at : ℕ) → IsOfLine at result }
{
    match places.last() {
        Some(place) => CertRefusal::K4(*place as u64),
        None => CertRefusal::K4(0),
    }
}

/// Makes of notes those of nothing; their room serves the next line.
pub(crate) fn renew(notes: &mut Notes)
    ensures unknown { notes.new.unknown ≡ None }
    ensures places { notes.new.places.items ≡ [] }
{
    notes.unknown = None;
    notes.places.clear();
}

/// K3 where a name was noted that nothing has.
pub(crate) fn check_names(notes: &Notes) -> Result<(), CertRefusal>
    ensures known { OnOk result (notes.now.unknown ≡ None) }
    ensures refused { IfErr result (λ e. (at : ℕ) → IsOfLine at e) }
{
    match notes.unknown {
        Some(place) => Err(CertRefusal::K3(place as u64)),
        None => Ok(()),
    }
}

/// The verdict at the end of the last line, behind which nothing may stand.
pub(crate) fn ended(text: &[u8], to: usize, verdict: Verdict) -> Result<Verdict, CertRefusal>
    ensures all { IfOk result (λ v. (v ≡ verdict) × (length text.now ≤ to)) }
    ensures refused { IfErr result (λ e. (e ≡ K1 to) × (to < length text.now)) }
{
    if to < text.len() {
        Err(CertRefusal::K1(to as u64))
    } else {
        Ok(verdict)
    }
}
