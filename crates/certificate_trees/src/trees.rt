// Trees of certificates: leaves, `w(` tree `)` and `j(` tree `,` tree `)`.
ghost use Rattle.std.specs.Prelude.{◌≡◌, ◌<◌, ◌≤◌, ◌+◌, ◌++◌, ◌∷◌, [], None, IfOk, OnOk, length, IfErr, Some};
ghost use Rattle.proof_core.specs.Proofs.{node_count};
ghost use Rattle.certificate_trees.specs.Reads.{IsRead};
ghost use Rattle.certificate_trees.specs.Beginnings.{Word, IsWhole};
ghost use Rattle.certificate_trees.specs.TreeGrammar.{Tree, IsUnopened};
ghost use Rattle.certificate_trees.specs.LeafGrammar.{LeafOf};
ghost use Rattle.certificate_trees.specs.Names.{IsSure};
ghost use Rattle.certificate_trees.specs.Parts.{IsPartRefused, IsStanding, IsTreeRead};

use crate::words::{Found, byte_at, read_word, stands_at};
use crate::{CertRefusal, Join, LeafForm, Notes, Weaken};
use proof_core::Proof;
use std::alloc::Global;

/// How many parentheses of a tree may stand open.
pub const DEPTH: u32 = 64;

// The place behind a parenthesis, where so many more may stand open.
fn read_open(text: &[u8], at: usize, depth: u32) -> Result<usize, CertRefusal>
    requires { at ≤ length text.now }
    ensures read { IfOk result (λ to. IsRead text.now at to (40 ∷ [])) }
    ensures moves { IfOk result (λ to. to ≡ at + 1) }
    ensures within { OnOk result (0 < depth) }
    ensures whole { IfOk result (λ to. IsWhole (Word (40 ∷ [])) text.now at to) }
    ensures refused { IfErr result (λ e. IsUnopened depth text.now at e) }
{
    if !stands_at(text, at, b'(') {
        return Err(CertRefusal::K1(at as u64));
    }
    if depth == 0 {
        return Err(CertRefusal::K2(at as u64));
    }
    Ok(at + 1)
}

/// A tree in which so many parentheses may stand open. It is the one that is spelled here, unless its leaves are
/// classes and one isn't there.
pub fn read_tree<L: LeafForm>(
    alloc: Global,
    form: &L,
    text: &[u8],
    at: usize,
    depth: u32,
    notes: &mut Notes,
) -> Result<Found<Proof<L::Leaf, Weaken, Join>>, CertRefusal>
    requires { at ≤ length text.now }
    ensures sticky { notes.new.unknown ≡ None → notes.old.unknown ≡ None }
    ensures moves { IfOk result (λ f. (at + node_count f.value ≤ f.to) × (f.to ≤ length text.now)) }
    ensures read { IsSure (L.kind_of form.now) notes.new.unknown → IfOk result (λ f. IsTreeRead (L.kind_of form.now) L.text_of (L.names_nothing form.now) f.value text.now at f.to notes.old notes.new) }
    ensures stands { IfOk result (λ f. IsStanding (Tree (LeafOf (L.kind_of form.now))) depth text.now at f.to) }
    ensures refused { IfErr result (λ e. IsPartRefused (Tree (LeafOf (L.kind_of form.now))) depth text.now at e) }
{
    match byte_at(text, at) {
        Some(b'w') => {
            let inside = read_open(text, at + 1, depth)?;
            let part = read_tree(alloc, form, text, inside, depth - 1, notes)?;
            let to = read_word(text, part.to, b")")?;
            notes.places.push(at)?;
            Ok(Found {
                value: Proof::One(Weaken, Box::new(alloc, part.value)?),
                to,
            })
        }
        Some(b'j') => {
            let inside = read_open(text, at + 1, depth)?;
            let first = read_tree(alloc, form, text, inside, depth - 1, notes)?;
            let between = read_word(text, first.to, b",")?;
            let second = read_tree(alloc, form, text, between, depth - 1, notes)?;
            let to = read_word(text, second.to, b")")?;
            notes.places.push(at)?;
            let left = Box::new(alloc, first.value)?;
            let right = Box::new(alloc, second.value)?;
            Ok(Found {
                value: Proof::Two(Join, left, right),
                to,
            })
        }
        _ => {
            let leaf = form.read_leaf(text, at, notes)?;
            notes.places.push(at)?;
            Ok(Found {
                value: Proof::Leaf(leaf.value),
                to: leaf.to,
            })
        }
    }
}
