// The lines of a certificate of a matrix.
ghost use Rattle.std.specs.Prelude.{◌≡◌, ◌<◌, ◌≤◌, ◌+◌, ◌++◌, ◌∷◌, [], None, IfOk, length, IfErr, Some};
ghost use Rattle.certificate_trees.specs.Reads.{IsRead};
ghost use Rattle.certificate_trees.specs.Parts.{IsPartRead, IsPartRefused, both_parts, word_part};
ghost use Rattle.certificate_reader.specs.LineGrammar.{Extents, CoverForm, WalkForm, MatrixForm, MatrixLineForm};
ghost use Rattle.certificate_reader.specs.MatrixParts.{extents_part, matrix_line_part};
ghost use Rattle.certificate_reader.specs.MatrixTexts.{matrix_line_text, matrix_line_nodes, HasExtents};

use crate::{CertRefusal, Found, Join, Notes, OrderLeaves, OrderProof, Weaken, read_word};
use certificate_trees::{CoverLeaves, DEPTH, read_name, read_tree, stands_at};
use proof_core::Proof;
use std::alloc::Global;

/// One extent ends at or before the start of another.
#[derive(Clone, Copy, PartialEq, Eq, Debug)]
pub struct Cover {
    pub first: u32,
    pub second: u32,
}

/// A tree over covers.
pub type WalkProof = Proof<u32, Weaken, Join>;

/// A line of a certificate of a matrix.
#[derive(Drop)]
pub enum MatrixLine {
    Cover(Cover, OrderProof),
    Walk(Cover, WalkProof),
    End,
}

// Two extents.
fn read_extents(
    text: &[u8],
    at: usize,
    extents: u32,
    notes: &mut Notes,
) -> Result<Found<Cover>, CertRefusal>
    requires { at ≤ length text.now }
    ensures known { notes.new.unknown ≡ None → IfOk result (λ f. (f.value.first < extents) × (f.value.second < extents)) }
    ensures read { IfOk result (λ f. IsPartRead Extents 64 (extents_part extents f.value) text.now at f.to notes.old notes.new) }
    ensures refused { IfErr result (λ e. IsPartRefused Extents 64 text.now at e) }
{
    let first = read_name(text, at, b'x', extents, notes)?;
    let between = read_word(text, first.to, b" ")?;
    let second = read_name(text, between, b'x', extents, notes)?;
    Ok(Found {
        value: Cover {
            first: first.value,
            second: second.value,
        },
        to: second.to,
    })
}

fn read_cover(
    alloc: Global,
    known: &Counts,
    text: &[u8],
    at: usize,
    notes: &mut Notes,
) -> Result<Found<MatrixLine>, CertRefusal>
    requires { at ≤ length text.now }
    ensures known { notes.new.unknown ≡ None → IfOk result (λ f. HasExtents known.now.extents f.value) }
    ensures read { IfOk result (λ f. IsPartRead CoverForm 64 (matrix_line_part known.now f.value) text.now at f.to notes.old notes.new) }
    ensures refused { IfErr result (λ e. IsPartRefused CoverForm 64 text.now at e) }
{
    let begun = read_word(text, at, b"cover ")?;
    let pair = read_extents(text, begun, known.extents, notes)?;
    let behind = read_word(text, pair.to, b" ")?;
    let leaves = OrderLeaves {
        orders: known.orders,
        kept: None,
    };
    let tree = read_tree(alloc, &leaves, text, behind, DEPTH, notes)?;
    Ok(Found {
        value: MatrixLine::Cover(pair.value, tree.value),
        to: tree.to,
    })
}

fn read_walk(
    alloc: Global,
    known: &Counts,
    text: &[u8],
    at: usize,
    notes: &mut Notes,
) -> Result<Found<MatrixLine>, CertRefusal>
    requires { at ≤ length text.now }
    ensures known { notes.new.unknown ≡ None → IfOk result (λ f. HasExtents known.now.extents f.value) }
    ensures read { IfOk result (λ f. IsPartRead WalkForm 64 (matrix_line_part known.now f.value) text.now at f.to notes.old notes.new) }
    ensures refused { IfErr result (λ e. IsPartRefused WalkForm 64 text.now at e) }
{
    let begun = read_word(text, at, b"walk ")?;
    let pair = read_extents(text, begun, known.extents, notes)?;
    let behind = read_word(text, pair.to, b" ")?;
    let leaves = CoverLeaves {
        covers: known.covers,
    };
    let tree = read_tree(alloc, &leaves, text, behind, DEPTH, notes)?;
    Ok(Found {
        value: MatrixLine::Walk(pair.value, tree.value),
        to: tree.to,
    })
}

// A line without its line feed.
fn read_matrix_form(
    alloc: Global,
    known: &Counts,
    text: &[u8],
    at: usize,
    notes: &mut Notes,
) -> Result<Found<MatrixLine>, CertRefusal>
    requires { at ≤ length text.now }
    ensures known { notes.new.unknown ≡ None → IfOk result (λ f. HasExtents known.now.extents f.value) }
    ensures read { IfOk result (λ f. IsPartRead MatrixForm 64 (matrix_line_part known.now f.value) text.now at f.to notes.old notes.new) }
    ensures refused { IfErr result (λ e. IsPartRefused MatrixForm 64 text.now at e) }
{
    if stands_at(text, at, b'c') {
        read_cover(alloc, known, text, at, notes)
    } else if stands_at(text, at, b'w') {
        read_walk(alloc, known, text, at, notes)
    } else {
        let to = read_word(text, at, b"end")?;
        Ok(Found {
            value: MatrixLine::End,
            to,
        })
    }
}

/// How many things the names of a line may name.
#[derive(Clone, Copy)]
pub struct Counts {
    pub orders: u32,
    pub extents: u32,
    pub covers: u32,
}

/// The line that begins here, with its line feed. Where it names what isn't there, the first such name is noted.
pub fn read_matrix_line(
    alloc: Global,
    known: &Counts,
    text: &[u8],
    at: usize,
    notes: &mut Notes,
) -> Result<Found<MatrixLine>, CertRefusal>
    requires { at ≤ length text.now }
    ensures moves { IfOk result (λ f. (at + matrix_line_nodes f.value < f.to) × (f.to ≤ length text.now)) }
    ensures known { notes.new.unknown ≡ None → IfOk result (λ f. HasExtents known.now.extents f.value) }
    ensures read { IfOk result (λ f. IsRead text.now at f.to (matrix_line_text f.value ++ 10 ∷ [])) }
    ensures line { IfOk result (λ f. IsPartRead MatrixLineForm 64 (both_parts (matrix_line_part known.now f.value) (word_part (10 ∷ []))) text.now at f.to notes.old notes.new) }
    ensures refused { IfErr result (λ e. IsPartRefused MatrixLineForm 64 text.now at e) }
{
    let line = read_matrix_form(alloc, known, text, at, notes)?;
    let to = read_word(text, line.to, b"\n")?;
    Ok(Found {
        value: line.value,
        to,
    })
}
