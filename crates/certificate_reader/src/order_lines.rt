// The lines of a certificate of orders.
ghost use Rattle.std.specs.Prelude.{◌≡◌, ◌<◌, ◌≤◌, ◌+◌, ◌++◌, ◌∷◌, [], None, IfOk, length, IfErr, Some, codes};
ghost use Rattle.certificate_trees.specs.Reads.{IsRead};
ghost use Rattle.certificate_trees.specs.Beginnings.{Then, Word, IsWhole, IsRefused, count};
ghost use Rattle.certificate_trees.specs.Parts.{IsPartRead, IsPartRefused, IsStanding, both_parts, word_part};
ghost use Rattle.certificate_reader.specs.LineGrammar.{PositionForm, Positions, PositionsLine, SideForm, QuestionForm, AtOrBeforeForm, LackForm, ClaimForm, PlaceForm, PlaceLineForm, PairForm, OrderTree, OrderForm, OrderLineForm};
ghost use Rattle.certificate_reader.specs.OrderParts.{question_part, claim_part, order_line_part, order_tree_part};
ghost use Rattle.order_core.specs.Sides.{side_name};
ghost use Rattle.certificate_reader.specs.OrderTexts.{position_text, positions_text, order_line_text, order_line_nodes};

use crate::{CertRefusal, Found, Join, Notes, OrderLeaves, Weaken, read_word};
use certificate_trees::{DEPTH, read_instant, read_name, read_number, read_tree, stands_at};
use order_core::{Placing, Position, Side};
use proof_core::{Proof, SharedLeaf};
use std::alloc::Global;

/// A tree over orders and kept facts.
pub type OrderProof = Proof<SharedLeaf<u32>, Weaken, Join>;

/// Which boundaries of two extents are asked about, the extents by number.
#[derive(Clone, Copy, PartialEq, Eq, Debug)]
pub struct Question {
    pub first: u32,
    pub second: u32,
    pub side: Side,
}

/// An answer to a question.
#[derive(Drop)]
pub enum Claim {
    /// `lt`: the tree concludes `<`.
    Before(OrderProof),
    /// `le`: the tree concludes `<=`, and the placing of this number lacks `<`.
    AtOrBefore(OrderProof, u32),
    /// `no`: in the placing of this number the right boundary is before the left.
    Open(u32),
}

/// A line of a certificate of orders.
#[derive(Drop)]
pub enum OrderLine {
    Place(Placing),
    Let(OrderProof),
    Pair(Question, Claim),
    Cycle(OrderProof),
    End,
}

/// How many things the names of a line may name: orders, what is kept where there are `let` lines, extents and
/// placings.
#[derive(Drop)]
pub struct Known {
    pub leaves: OrderLeaves,
    pub extents: u32,
    pub placings: u32,
}

// A position: an instant, `/` and a rank.
fn read_position(text: &[u8], at: usize) -> Result<Found<Position>, CertRefusal>
    requires { at ≤ length text.now }
    ensures read { IfOk result (λ f. IsRead text.now at f.to (position_text f.value)) }
    ensures moves { IfOk result (λ f. at < f.to) }
    ensures whole { IfOk result (λ f. IsWhole PositionForm text.now at f.to) }
    ensures refused { IfErr result (λ e. IsRefused PositionForm None text.now at e) }
{
    let instant = read_instant(text, at)?;
    let behind = read_word(text, instant.to, b"/")?;
    let rank = read_number(text, behind)?;
    Ok(Found {
        value: Position {
            instant: instant.value,
            rank: rank.value,
        },
        to: rank.to,
    })
}

// Positions, each behind a space. They may end behind each, so what is refused is their line with its line feed.
fn read_positions(alloc: Global, text: &[u8], at: usize) -> Result<Found<Placing>, CertRefusal>
    requires { at ≤ length text.now }
    ensures read { IfOk result (λ f. IsRead text.now at f.to (positions_text f.value)) }
    ensures whole { IfOk result (λ f. IsWhole Positions text.now at f.to) }
    ensures refused { IfErr result (λ e. IsRefused PositionsLine None text.now at e) }
{
    let mut value = Placing::new(alloc);
    let mut to = at;
    'positions: while stands_at(text, to, b' ') {
        let position = read_position(text, to + 1)?;
        value.push(position.value)?;
        to = position.to;
    }
    Ok(Found { value, to })
}

fn read_side(text: &[u8], at: usize) -> Result<Found<Side>, CertRefusal>
    requires { at ≤ length text.now }
    ensures read { IfOk result (λ f. IsRead text.now at f.to (side_name f.value)) }
    ensures whole { IfOk result (λ f. IsWhole SideForm text.now at f.to) }
    ensures refused { IfErr result (λ e. IsRefused SideForm None text.now at e) }
{
    if stands_at(text, at, b's') {
        if stands_at(text, at + 1, b'e') {
            return Ok(Found {
                value: Side::StartEnd,
                to: at + 2,
            });
        }
        let to = read_word(text, at, b"ss")?;
        return Ok(Found {
            value: Side::StartStart,
            to,
        });
    }
    let behind = read_word(text, at, b"e")?;
    if stands_at(text, behind, b's') {
        return Ok(Found {
            value: Side::EndStart,
            to: behind + 1,
        });
    }
    let to = read_word(text, at, b"ee")?;
    Ok(Found {
        value: Side::EndEnd,
        to,
    })
}

fn read_question(
    text: &[u8],
    at: usize,
    extents: u32,
    notes: &mut Notes,
) -> Result<Found<Question>, CertRefusal>
    requires { at ≤ length text.now }
    ensures read { IfOk result (λ f. IsPartRead QuestionForm 64 (question_part extents f.value) text.now at f.to notes.old notes.new) }
    ensures refused { IfErr result (λ e. IsPartRefused QuestionForm 64 text.now at e) }
{
    let first = read_name(text, at, b'x', extents, notes)?;
    let between = read_word(text, first.to, b" ")?;
    let second = read_name(text, between, b'x', extents, notes)?;
    let behind = read_word(text, second.to, b" ")?;
    let side = read_side(text, behind)?;
    Ok(Found {
        value: Question {
            first: first.value,
            second: second.value,
            side: side.value,
        },
        to: side.to,
    })
}

// A word without parentheses and a tree behind it.
fn read_order_tree(
    alloc: Global,
    known: &Known,
    text: &[u8],
    at: usize,
    word: &[u8],
    notes: &mut Notes,
) -> Result<Found<OrderProof>, CertRefusal>
    requires within { at ≤ length text.now }
    requires flat { (count 40 word.now ≡ 0) × (count 41 word.now ≡ 0) }
    ensures read { IfOk result (λ f. IsPartRead (Then (Word word.now) (OrderTree known.now.leaves.kept)) 64 (both_parts (word_part word.now) (order_tree_part known.now f.value)) text.now at f.to notes.old notes.new) }
    ensures refused { IfErr result (λ e. IsPartRefused (Then (Word word.now) (OrderTree known.now.leaves.kept)) 64 text.now at e) }
{
    let behind = read_word(text, at, word)?;
    read_tree(alloc, &known.leaves, text, behind, DEPTH, notes)
}

// `le`, a tree and a placing.
fn read_at_or_before(
    alloc: Global,
    known: &Known,
    text: &[u8],
    at: usize,
    notes: &mut Notes,
) -> Result<Found<Claim>, CertRefusal>
    requires { at ≤ length text.now }
    ensures read { IfOk result (λ f. IsPartRead (AtOrBeforeForm known.now.leaves.kept) 64 (claim_part known.now f.value) text.now at f.to notes.old notes.new) }
    ensures refused { IfErr result (λ e. IsPartRefused (AtOrBeforeForm known.now.leaves.kept) 64 text.now at e) }
{
    let behind = read_word(text, at, b"le ")?;
    let tree = read_tree(alloc, &known.leaves, text, behind, DEPTH, notes)?;
    let between = read_word(text, tree.to, b" ")?;
    let placing = read_name(text, between, b'p', known.placings, notes)?;
    Ok(Found {
        value: Claim::AtOrBefore(tree.value, placing.value),
        to: placing.to,
    })
}

// `no` and a placing.
fn read_lack(
    known: &Known,
    text: &[u8],
    at: usize,
    notes: &mut Notes,
) -> Result<Found<Claim>, CertRefusal>
    requires { at ≤ length text.now }
    ensures read { IfOk result (λ f. IsPartRead LackForm 64 (claim_part known.now f.value) text.now at f.to notes.old notes.new) }
    ensures refused { IfErr result (λ e. IsPartRefused LackForm 64 text.now at e) }
{
    let behind = read_word(text, at, b"no ")?;
    let placing = read_name(text, behind, b'p', known.placings, notes)?;
    Ok(Found {
        value: Claim::Open(placing.value),
        to: placing.to,
    })
}

fn read_claim(
    alloc: Global,
    known: &Known,
    text: &[u8],
    at: usize,
    notes: &mut Notes,
) -> Result<Found<Claim>, CertRefusal>
    requires { at ≤ length text.now }
    ensures read { IfOk result (λ f. IsPartRead (ClaimForm known.now.leaves.kept) 64 (claim_part known.now f.value) text.now at f.to notes.old notes.new) }
    ensures refused { IfErr result (λ e. IsPartRefused (ClaimForm known.now.leaves.kept) 64 text.now at e) }
{
    if !stands_at(text, at, b'l') {
        read_lack(known, text, at, notes)
    } else if stands_at(text, at + 1, b't') {
        let tree = read_order_tree(alloc, known, text, at, b"lt ", notes)?;
        Ok(Found {
            value: Claim::Before(tree.value),
            to: tree.to,
        })
    } else {
        read_at_or_before(alloc, known, text, at, notes)
    }
}

// `place` and positions.
fn read_place(alloc: Global, text: &[u8], at: usize) -> Result<Found<Placing>, CertRefusal>
    requires { at ≤ length text.now }
    ensures read { IfOk result (λ f. IsRead text.now at f.to (codes "place" ++ positions_text f.value)) }
    ensures stands { IfOk result (λ f. IsStanding PlaceForm 64 text.now at f.to) }
    ensures refused { IfErr result (λ e. IsPartRefused PlaceLineForm 64 text.now at e) }
{
    let behind = read_word(text, at, b"place")?;
    let placing = read_positions(alloc, text, behind)?;
    Ok(Found {
        value: placing.value,
        to: placing.to,
    })
}

fn read_pair(
    alloc: Global,
    known: &Known,
    text: &[u8],
    at: usize,
    notes: &mut Notes,
) -> Result<Found<OrderLine>, CertRefusal>
    requires { at ≤ length text.now }
    ensures read { IfOk result (λ f. IsPartRead (PairForm known.now.leaves.kept) 64 (order_line_part known.now f.value) text.now at f.to notes.old notes.new) }
    ensures refused { IfErr result (λ e. IsPartRefused (PairForm known.now.leaves.kept) 64 text.now at e) }
{
    let begun = read_word(text, at, b"pair ")?;
    let question = read_question(text, begun, known.extents, notes)?;
    let behind = read_word(text, question.to, b" ")?;
    let claim = read_claim(alloc, known, text, behind, notes)?;
    Ok(Found {
        value: OrderLine::Pair(question.value, claim.value),
        to: claim.to,
    })
}

// A line without its line feed; what is refused is the line with it.
fn read_order_form(
    alloc: Global,
    known: &Known,
    text: &[u8],
    at: usize,
    notes: &mut Notes,
) -> Result<Found<OrderLine>, CertRefusal>
    requires { at ≤ length text.now }
    ensures read { IfOk result (λ f. IsPartRead (OrderForm known.now.leaves.kept) 64 (order_line_part known.now f.value) text.now at f.to notes.old notes.new) }
    ensures refused { IfErr result (λ e. IsPartRefused (OrderLineForm known.now.leaves.kept) 64 text.now at e) }
{
    if stands_at(text, at, b'p') {
        if stands_at(text, at + 1, b'l') {
            let placing = read_place(alloc, text, at)?;
            Ok(Found {
                value: OrderLine::Place(placing.value),
                to: placing.to,
            })
        } else {
            read_pair(alloc, known, text, at, notes)
        }
    } else if stands_at(text, at, b'c') {
        let tree = read_order_tree(alloc, known, text, at, b"cycle ", notes)?;
        Ok(Found {
            value: OrderLine::Cycle(tree.value),
            to: tree.to,
        })
    } else if known.leaves.kept.is_some() && stands_at(text, at, b'l') {
        let tree = read_order_tree(alloc, known, text, at, b"let ", notes)?;
        Ok(Found {
            value: OrderLine::Let(tree.value),
            to: tree.to,
        })
    } else {
        let to = read_word(text, at, b"end")?;
        Ok(Found {
            value: OrderLine::End,
            to,
        })
    }
}

/// The line that begins here, with its line feed. Where it names what isn't there, the first such name is noted.
pub fn read_order_line(
    alloc: Global,
    known: &Known,
    text: &[u8],
    at: usize,
    notes: &mut Notes,
) -> Result<Found<OrderLine>, CertRefusal>
    requires { at ≤ length text.now }
    ensures moves { IfOk result (λ f. (at + order_line_nodes f.value < f.to) × (f.to ≤ length text.now)) }
    ensures read { IfOk result (λ f. IsRead text.now at f.to (order_line_text f.value ++ 10 ∷ [])) }
    ensures line { IfOk result (λ f. IsPartRead (OrderLineForm known.now.leaves.kept) 64 (both_parts (order_line_part known.now f.value) (word_part (10 ∷ []))) text.now at f.to notes.old notes.new) }
    ensures refused { IfErr result (λ e. IsPartRefused (OrderLineForm known.now.leaves.kept) 64 text.now at e) }
{
    let line = read_order_form(alloc, known, text, at, notes)?;
    let to = read_word(text, line.to, b"\n")?;
    Ok(Found {
        value: line.value,
        to,
    })
}
