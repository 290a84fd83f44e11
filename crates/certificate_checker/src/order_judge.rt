// The judgement of a certificate of orders, line by line.
ghost use Rattle.std.specs.Prelude.{◌≡◌, ◌<◌, ◌≤◌, ◌+◌, ◌-◌, ◌*◌, ◌^◌, ◌++◌, ◌∷◌, ◌↔◌, [], List, ℤ, true, false, cond, drop, IfOk, IfErr, OnOk, IfSome, Some, None, All, ℕ, length, vec_len, slice_get};
ghost use Rattle.order_laws.specs.Placings.{IsSatisfied, position_at};
ghost use Rattle.order_laws.specs.Positions.{IsBefore};
ghost use Rattle.proof_core.specs.Proofs.{node_count};
ghost use Rattle.certificate_reader.specs.declared.order_lines.OrderLine.{OrderLine as Line};
ghost use Rattle.certificate_reader.specs.OrderTexts.{claim_nodes, order_line_nodes};
ghost use Rattle.certificate_checker.specs.Questions.{left_of, right_of, questions, questions_left, IsSettled};
ghost use Rattle.certificate_checker.specs.OrderClaims.{fact_of, placing_at, IsOfSet, IsTrueFact, IsClaimTrue, IsJudged, IsLast, IsNext, IsRefuted};
ghost use Rattle.certificate_checker.specs.Verified.{verdict_of, IsOrdersShown};
ghost use Rattle.certificate_checker.specs.Texts.{Body, ClaimLine, IsAccepted, IsOfLine, IsRefusedAs};

use crate::cursor::Cursor;
use crate::trees::{bad_node, check_names, concluded, ended, misfit, renew};
use crate::{CertRefusal, OrderFact, OrderTheory, Verdict};
use certificate_reader::{
    Claim, Known, Notes, OrderLeaves, OrderLine, OrderProof, Question, read_order_line,
};
use order_core::{OrderSet, Placing, Point, Position, holds_at};
use proof_core::{KeepFault, Shared};
use std::alloc::Global;

fn left(question: Question) -> Point
    ensures { result ≡ left_of question }
{
    question.side.left(question.first)
}

fn right(question: Question) -> Point
    ensures { result ≡ right_of question }
{
    question.side.right(question.second)
}

fn is_before(p: Position, q: Position) -> bool
    ensures { (result ≡ true) ↔ IsBefore p q }
{
    p.instant < q.instant || (p.instant == q.instant && p.rank < q.rank)
}

// Where a boundary stands; None of a date, and where the placing is too short.
fn position(placing: &Placing, point: Point) -> Option<Position>
    ensures { IfSome result (λ p. (dates : List ℤ) → position_at dates placing.now point ≡ p) }
{
    match point {
        Point::Start(k) => placing.get(2 * k as usize).copied(),
        Point::End(k) => placing.get(2 * k as usize + 1).copied(),
        Point::Date(_) => None,
    }
}

// Whether the placing has the first of two boundaries before the second; None where it lacks one.
fn has_before(placing: &Placing, first: Point, second: Point) -> Option<bool>
    ensures { IfSome result (λ b. (dates : List ℤ) →
        (b ≡ true) ↔ IsBefore (position_at dates placing.now first) (position_at dates placing.now second)) }
{
    let p = position(placing, first)?;
    let q = position(placing, second)?;
    Some(is_before(p, q))
}

fn satisfies(orders: &OrderSet, placing: &Placing) -> bool
    requires { length placing.now ≡ 2 * orders.now.extents }
    ensures { (result ≡ true) ↔ IsSatisfied orders.now.list orders.now.dates placing.now }
{
    for n in 0..orders.len() {
        if !holds_at(orders, n, placing) {
            return false;
        }
    }
    true
}

/// What the lines so far leave: what they keep and how much, their placings, the next question, and whether a
/// line came behind which no placing may come, or a cycle.
#[derive(Drop)]
struct OrderJudge<'a> {
    shared: Shared<OrderTheory<'a>>,
    kept: u32,
    placings: Vec<Placing>,
    next: Cursor,
    begun: bool,
    cycled: bool,
}

impl<'a> OrderJudge<'a> {
    fn new(alloc: Global, orders: &'a OrderSet, periods: &[u32]) -> OrderJudge<'a>
        ensures kept { (result.kept ≡ 0) × (result.shared.kept ≡ []) }
        ensures placings { (result.placings.items ≡ []) × (vec_len result.placings ≡ 0) }
        ensures next { IsSettled periods.now result.next × (questions_left periods.now result.next ≡ questions periods.now) }
        ensures cycled { result.cycled ≡ false }
        ensures same { result.shared.theory.orders.now ≡ orders.now }
    {
        OrderJudge {
            shared: Shared::new(alloc, OrderTheory { orders }),
            kept: 0,
            placings: Vec::new(alloc),
            next: Cursor::new(periods),
            begun: false,
            cycled: false,
        }
    }

    fn known(&self, orders: &OrderSet, shares: bool) -> Known
        requires { vec_len self.now.placings < 2 ^ 32 }
        ensures { result.leaves.kept ≡ cond shares (Some self.now.kept) None }
    {
        Known {
            leaves: OrderLeaves {
                orders: orders.len(),
                kept: if shares { Some(self.kept) } else { None },
            },
            extents: orders.extents(),
            placings: self.placings.len() as u32,
        }
    }

    fn is_answered(&self, periods: &[u32]) -> bool
        requires { IsSettled periods.now self.now.next }
        ensures { result ≡ true → questions_left periods.now self.now.next ≡ [] }
    {
        self.next.question(periods).is_none()
    }

    fn is_due(&self, periods: &[u32], line: &OrderLine) -> bool
        requires { IsSettled periods.now self.now.next }
        ensures next { result ≡ true → IsNext periods.now self.now.next line.now }
        ensures end { result ≡ true → IsLast periods.now self.now.next self.now.cycled line.now }
    {
        let placed = !self.placings.is_empty();
        match line {
            OrderLine::Place(_) => !self.begun && !self.cycled,
            OrderLine::Let(_) => !self.cycled && !(placed && self.is_answered(periods)),
            OrderLine::Pair(question, _) => {
                placed && self.next.question(periods) == Some(*question)
            }
            OrderLine::Cycle(_) => !placed && !self.cycled,
            OrderLine::End => self.cycled || (placed && self.is_answered(periods)),
        }
    }

    // That the tree concludes the fact of the question.
    fn check_fact(
        &self,
        question: Question,
        strict: bool,
        proof: &OrderProof,
        notes: &Notes,
    ) -> Result<(), CertRefusal>
        requires { node_count proof.now < 2 ^ 32 }
        ensures fact { OnOk result (All (IsTrueFact self.now.shared.theory.orders.now) self.now.shared.kept →
            IsTrueFact self.now.shared.theory.orders.now (fact_of question strict)) }
        ensures refused { IfErr result (λ e. (at : ℕ) → IsOfLine at e) }
    {
        let asked = OrderFact {
            low: left(question),
            high: right(question),
            strict,
        };
        if concluded(&self.shared, proof, notes.places.as_slice())? == asked {
            Ok(())
        } else {
            Err(misfit(notes.places.as_slice()))
        }
    }

    // Whether the placing of a number has the first of two boundaries before the second.
    fn shows(&self, n: u32, first: Point, second: Point) -> Option<bool>
        ensures { IfSome result (λ b. (n < length self.now.placings.items) × ((dates : List ℤ) → (b ≡ true)
            ↔ IsBefore (position_at dates (placing_at self.now.placings.items n) first) (position_at dates (placing_at self.now.placings.items n) second))) }
    {
        let placing = self.placings.get(n as usize)?;
        has_before(placing, first, second)
    }

    fn check_claim(
        &self,
        question: Question,
        claim: &Claim,
        at: usize,
        notes: &Notes,
    ) -> Result<(), CertRefusal>
        requires { claim_nodes claim.now < 2 ^ 32 }
        ensures claim { OnOk result (All (IsTrueFact self.now.shared.theory.orders.now) self.now.shared.kept → IsOfSet self.now.shared.theory.orders.now →
            IsClaimTrue self.now.shared.theory.orders.now self.now.placings.items question claim.now) }
        ensures refused { IfErr result (λ e. IsOfLine at e) }
    {
        match claim {
            Claim::Before(proof) => self.check_fact(question, true, proof, notes),
            Claim::AtOrBefore(proof, n) => {
                self.check_fact(question, false, proof, notes)?;
                match self.shows(*n, left(question), right(question)) {
                    Some(false) => Ok(()),
                    _ => Err(CertRefusal::K5(at as u64)),
                }
            }
            Claim::Open(n) => match self.shows(*n, right(question), left(question)) {
                Some(true) => Ok(()),
                _ => Err(CertRefusal::K5(at as u64)),
            },
        }
    }

    fn check_cycle(&self, proof: &OrderProof, notes: &Notes) -> Result<(), CertRefusal>
        requires { node_count proof.now < 2 ^ 32 }
        ensures cycle { OnOk result (All (IsTrueFact self.now.shared.theory.orders.now) self.now.shared.kept → IsOfSet self.now.shared.theory.orders.now →
            IsRefuted self.now.shared.theory.orders.now) }
        ensures refused { IfErr result (λ e. (at : ℕ) → IsOfLine at e) }
    {
        let fact = concluded(&self.shared, proof, notes.places.as_slice())?;
        if fact.low == fact.high && fact.strict {
            Ok(())
        } else {
            Err(misfit(notes.places.as_slice()))
        }
    }

    // Judges a line that is due and whose names all name something.
    fn take(
        &mut self,
        orders: &OrderSet,
        periods: &[u32],
        line: OrderLine,
        at: usize,
        notes: &Notes,
    ) -> Result<(), CertRefusal>
        requires settled { IsSettled periods.now self.old.next }
        requires same { self.old.shared.theory.orders.now ≡ orders.now }
        requires next { IsNext periods.now self.old.next line }
        requires count { length self.old.shared.kept ≡ self.old.kept }
        requires room { self.old.kept < 2 ^ 32 - 1 }
        requires small { order_line_nodes line < 2 ^ 32 }
        ensures settled { IsSettled periods.now self.new.next }
        ensures count { length self.new.shared.kept ≡ self.new.kept }
        ensures kept { self.new.kept ≤ self.old.kept + 1 }
        ensures placings { vec_len self.new.placings ≤ vec_len self.old.placings + 1 }
        ensures same { self.new.shared.theory.orders.now ≡ orders.now }
        ensures judged { (lines : List Line) →
            IsJudged orders.now periods.now self.old.shared.kept self.old.placings.items self.old.next self.old.cycled lines →
            OnOk result (IsJudged orders.now periods.now self.new.shared.kept self.new.placings.items self.new.next self.new.cycled (lines ++ line ∷ [])) }
        ensures refused { IfErr result (λ e. IsOfLine at e) }
    {
        orders.conditions();
        match line {
            OrderLine::Place(placing) => {
                if placing.len() != 2 * orders.extents() as usize || !satisfies(orders, &placing) {
                    return Err(CertRefusal::K5(at as u64));
                }
                self.placings.push(placing)?;
                Ok(())
            }
            OrderLine::Let(proof) => match self.shared.keep(&proof) {
                Ok(_) => {
                    self.kept += 1;
                    self.begun = true;
                    Ok(())
                }
                Err(KeepFault::Bad(bad)) => Err(bad_node(notes.places.as_slice(), bad)),
                Err(KeepFault::Memory) => Err(CertRefusal::Memory),
            },
            OrderLine::Pair(question, claim) => {
                self.check_claim(question, &claim, at, notes)?;
                self.next = self.next.next(periods);
                self.begun = true;
                Ok(())
            }
            OrderLine::Cycle(proof) => {
                self.check_cycle(&proof, notes)?;
                self.cycled = true;
                Ok(())
            }
            OrderLine::End => Ok(()),
        }
    }

    fn verdict(&self) -> Verdict
        ensures { result ≡ verdict_of self.now.cycled }
    {
        if self.cycled {
            Verdict::Inconsistent
        } else {
            Verdict::Consistent
        }
    }
}

/// Judges the lines from a place on; `let` lines may come where the certificate shares.
pub(crate) fn judge_orders(
    alloc: Global,
    orders: &OrderSet,
    periods: &[u32],
    shares: bool,
    text: &[u8],
    from: usize,
) -> Result<Verdict, CertRefusal>
    requires within { from ≤ length text.now }
    requires short { length text.now < 2 ^ 32 }
    ensures shown { IfOk result (λ v. IsOrdersShown orders.now periods.now (drop from text.now) v) }
    ensures accepted { OnOk result (IsAccepted (Body (ClaimLine (cond shares (Some 0) None))) 64 text.now from) }
    ensures refused { IfErr result (λ e. IsRefusedAs (Body (ClaimLine (cond shares (Some 0) None))) 64 text.now from e) }
{
    let mut judge = OrderJudge::new(alloc, orders, periods);
    let mut notes = Notes::new(alloc);
    let mut at = from;
    'lines: loop {
        renew(&mut notes);
        let known = judge.known(orders, shares);
        let line = read_order_line(alloc, &known, text, at, &mut notes)?;
        if !judge.is_due(periods, &line.value) {
            return Err(CertRefusal::K6(at as u64));
        }
        check_names(&notes)?;
        if let OrderLine::End = line.value {
            return ended(text, line.to, judge.verdict());
        }
        judge.take(orders, periods, line.value, at, &notes)?;
        at = line.to;
    }
}
