// Certificates of orders.
ghost use Rattle.std.specs.Prelude.{◌≡◌, ◌++◌, ◌<◌, ◌≤◌, ◌^◌, OnOk, IfOk, length, false};
ghost use Rattle.order_laws.specs.Tables.{IsPoint};
ghost use Rattle.order_certificates.specs.OrderCertificates as spec;
ghost use Rattle.order_certificates.specs.Sharing.{LetSteps, no_lets};
ghost use Rattle.order_certificates.specs.Stages.{IsRowOf, IsStageOf, text_left, rows_from, row_from};

use crate::lines::append_place;
use crate::pairs::{Row, append_pair};
use crate::pieces::Pieces;
use crate::shared_routes::build_shared;
use crate::sharing::Lets;
use order_analysis::Analysis;
use order_core::Point;
use placing_witness::Placings;
use std::alloc::{AllocError, Global};

/// What comes next of a certificate of consistent orders.
#[derive(Drop)]
pub(crate) enum Stage {
    /// The first line.
    Head,
    /// The plain placing.
    Plain,
    /// The placings that delay the boundaries of the period at a place.
    Delays(usize),
    /// The row of the period at a place, or the last line behind all.
    Rows(usize),
    /// The next pair of a row.
    Pairs(Row),
    /// Nothing.
    Over,
}

fn append_plain(alloc: Global, placings: &Placings, line: &mut Vec<u8>) -> Result<(), AllocError>
    ensures { OnOk result (line.new.items ≡ line.old.items ++ spec.plain_place placings.now) }
{
    let placing = placings.plain(alloc)?;
    append_place(&placing, line)
}

fn append_delay(
    alloc: Global,
    placings: &Placings,
    x: Point,
    line: &mut Vec<u8>,
) -> Result<(), AllocError>
    requires { IsPoint placings.now.extents (length placings.now.dates) x }
    ensures { OnOk result (line.new.items ≡ line.old.items ++ spec.delay_place placings.now x) }
{
    let placing = placings.delaying(alloc, x)?;
    append_place(&placing, line)
}

fn append_delays(
    alloc: Global,
    placings: &Placings,
    k: u32,
    line: &mut Vec<u8>,
) -> Result<(), AllocError>
    requires { k < placings.now.extents }
    ensures { OnOk result (line.new.items ≡ line.old.items ++ spec.delay_places placings.now k) }
{
    append_delay(alloc, placings, Point::Start(k), line)?;
    append_delay(alloc, placings, Point::End(k), line)
}

// The row of the period at a place, with all pairs still to come.
fn row_of(analysis: &Analysis, place: usize, a: u32) -> Result<Row, AllocError>
    requires within { a < analysis.now.set.extents }
    requires few { place < 2 ^ 20 }
    ensures row { IfOk result (λ r. (lets : LetSteps) → IsRowOf analysis.now.set lets r) }
    ensures period { IfOk result (λ r. r.period ≡ a) }
    ensures place { IfOk result (λ r. r.place ≡ place) }
    ensures next { IfOk result (λ r. r.next ≡ 0) }
{
    let from_start = build_shared(analysis, Point::Start(a))?;
    let from_end = build_shared(analysis, Point::End(a))?;
    Ok(Row {
        period: a,
        place,
        next: 0,
        from_start,
        from_end,
    })
}

// The first line.
#[tactic(auto, using(crate::proofs::Going::head_more))]
fn next_head(analysis: &Analysis, line: &mut Vec<u8>) -> Result<Stage, AllocError>
    ensures stage { IfOk result (λ s. IsStageOf analysis.now.set no_lets s) }
    ensures text { IfOk result (λ s. line.new.items ++ text_left analysis.now.set analysis.now.periods no_lets s
        ≡ line.old.items ++ text_left analysis.now.set analysis.now.periods no_lets Stage.Head) }
{
    line.extend_from_slice(b"crmtime 2 orders\n")?;
    Ok(Stage::Plain)
}

// The placings of the period at a place, or nothing behind all.
fn next_delays(
    analysis: &Analysis,
    placings: &Placings,
    i: usize,
    line: &mut Vec<u8>,
) -> Result<Stage, AllocError>
    requires same { placings.now ≡ analysis.now.set }
    ensures stage { IfOk result (λ s. IsStageOf analysis.now.set no_lets s) }
    ensures text { IfOk result (λ s. line.new.items ++ text_left analysis.now.set analysis.now.periods no_lets s
        ≡ line.old.items ++ text_left analysis.now.set analysis.now.periods no_lets (Stage.Delays i)) }
{
    match analysis.period(i) {
        Some(k) => {
            append_delays(analysis.alloc(), placings, k, line)?;
            Ok(Stage::Delays(i + 1))
        }
        None => Ok(Stage::Rows(0)),
    }
}

// The row of the period at a place, or the last line behind all.
fn next_row(
    analysis: &Analysis,
    i: usize,
    lets: &mut Lets,
    line: &mut Vec<u8>,
) -> Result<Stage, AllocError>
    ensures stage { IfOk result (λ s. IsStageOf analysis.now.set lets.new s) }
    ensures text { IfOk result (λ s. line.new.items ++ text_left analysis.now.set analysis.now.periods lets.new s
        ≡ line.old.items ++ rows_from analysis.now.set analysis.now.periods i lets.old) }
{
    match analysis.period(i) {
        Some(a) => {
            let row = row_of(analysis, i, a)?;
            lets.turn()?;
            Ok(Stage::Pairs(row))
        }
        None => {
            line.extend_from_slice(b"end\n")?;
            Ok(Stage::Over)
        }
    }
}

// The next pair of a row, or nothing behind all.
fn next_pair(
    analysis: &Analysis,
    mut row: Row,
    lets: &mut Lets,
    line: &mut Vec<u8>,
) -> Result<Stage, AllocError>
    requires { IsRowOf analysis.now.set lets.old row }
    ensures stage { IfOk result (λ s. IsStageOf analysis.now.set lets.new s) }
    ensures text { IfOk result (λ s. line.new.items ++ text_left analysis.now.set analysis.now.periods lets.new s
        ≡ line.old.items ++ row_from analysis.now.set analysis.now.periods row lets.old) }
{
    match analysis.period(row.next) {
        Some(b) => {
            append_pair(analysis, &mut row, b, lets, line)?;
            row.next += 1;
            Ok(Stage::Pairs(row))
        }
        None => Ok(Stage::Rows(row.place + 1)),
    }
}

/// A certificate of consistent orders, of which a part may be printed.
#[derive(Drop)]
pub struct OrderPieces<'a> {
    analysis: &'a Analysis<'a>,
    placings: &'a Placings<'a>,
    lets: Lets,
    stage: Stage,
}

// What comes behind a stage.
fn next_stage(
    analysis: &Analysis,
    placings: &Placings,
    stage: Stage,
    lets: &mut Lets,
    line: &mut Vec<u8>,
) -> Result<Stage, AllocError>
    requires same { placings.now ≡ analysis.now.set }
    requires stage { IsStageOf analysis.now.set lets.old stage }
    ensures stage { IfOk result (λ s. IsStageOf analysis.now.set lets.new s) }
    ensures text { IfOk result (λ s. line.new.items ++ text_left analysis.now.set analysis.now.periods lets.new s
        ≡ line.old.items ++ text_left analysis.now.set analysis.now.periods lets.old stage) }
{
    match stage {
        Stage::Head => next_head(analysis, line),
        Stage::Plain => {
            append_plain(analysis.alloc(), placings, line)?;
            Ok(Stage::Delays(0))
        }
        Stage::Delays(i) => next_delays(analysis, placings, i, line),
        Stage::Rows(i) => next_row(analysis, i, lets, line),
        Stage::Pairs(row) => next_pair(analysis, row, lets, line),
        Stage::Over => Ok(Stage::Over),
    }
}

fn is_going_on(stage: &Stage) -> bool
    ensures { result ≡ false → stage.now ≡ Stage.Over }
{
    match stage {
        Stage::Over => false,
        _ => true,
    }
}

impl<'a> OrderPieces<'a> {
    /// The certificate of the orders that the placings are of, of which nothing is printed.
    pub fn new(analysis: &'a Analysis<'a>, placings: &'a Placings<'a>) -> OrderPieces<'a>
        requires { placings.now ≡ analysis.now.set }
        ensures sound { ⟦<OrderPieces<'a> as Pieces>⟧.IsSound result }
        ensures text { ⟦<OrderPieces<'a> as Pieces>⟧.rest result ≡ spec.consistent_text analysis.now.set analysis.now.periods }
    {
        OrderPieces {
            analysis,
            placings,
            lets: Lets::new(analysis.alloc()),
            stage: Stage::Head,
        }
    }
}

impl<'a> Pieces for OrderPieces<'a> {
    ghost use Rattle.std.specs.Prelude.{◌≡◌};
    ghost use Rattle.order_certificates.specs.Stages.{IsStageOf, text_left};

    ghost rest = { λ p. text_left p.analysis.now.set p.analysis.now.periods p.lets p.stage };

    ghost IsSound = { λ p. (p.placings.now ≡ p.analysis.now.set) × IsStageOf p.analysis.now.set p.lets p.stage };

    fn append_next(&mut self, line: &mut Vec<u8>) -> Result<bool, AllocError> {
        let stage = std::mem::replace(&mut self.stage, Stage::Over);
        let next = next_stage(self.analysis, self.placings, stage, &mut self.lets, line)?;
        let more = is_going_on(&next);
        self.stage = next;
        Ok(more)
    }
}
