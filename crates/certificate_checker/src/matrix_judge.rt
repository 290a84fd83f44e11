// The judgement of a certificate of a matrix.
ghost use Rattle.std.specs.Prelude.{◌≡◌, ◌<◌, ◌≤◌, ◌^◌, ◌+◌, IfOk, IfErr, OnOk, ℕ, drop, length};
ghost use Rattle.proof_core.specs.Proofs.{node_count};
ghost use Rattle.certificate_reader.specs.MatrixTexts.{matrix_line_nodes, HasExtents};
ghost use Rattle.certificate_checker.specs.MatrixClaims.{AreCovers, EndsBefore, IsMatrixTrue};
ghost use Rattle.certificate_checker.specs.Verified.{IsMatrixShown};
ghost use Rattle.certificate_checker.specs.Texts.{Body, CellLine, IsAccepted, IsOfLine, IsRefusedAs};

use crate::trees::{check_names, concluded, ended, misfit};
use crate::{
    CertRefusal, Cover, Covers, MatrixFact, MatrixTheory, OrderFact, OrderTheory, Verdict,
};
use certificate_reader::{Counts, MatrixLine, Notes, OrderProof, WalkProof, read_matrix_line};
use order_core::{OrderSet, Point};
use proof_core::Shared;
use std::alloc::Global;

fn check_cover(
    alloc: Global,
    orders: &OrderSet,
    cover: Cover,
    proof: &OrderProof,
    notes: &Notes,
) -> Result<(), CertRefusal>
    requires { node_count proof.now < 2 ^ 32 }
    ensures cover { OnOk result (EndsBefore orders.now cover) }
    ensures refused { IfErr result (λ e. (at : ℕ) → IsOfLine at e) }
{
    orders.conditions();
    let theory = Shared::new(alloc, OrderTheory { orders });
    let asked = OrderFact {
        low: Point::End(cover.first),
        high: Point::Start(cover.second),
        strict: false,
    };
    if concluded(&theory, proof, notes.places.as_slice())? == asked {
        Ok(())
    } else {
        Err(misfit(notes.places.as_slice()))
    }
}

fn check_walk(
    orders: &OrderSet,
    covers: &Covers,
    walk: Cover,
    proof: &WalkProof,
    notes: &Notes,
) -> Result<(), CertRefusal>
    requires small { node_count proof.now < 2 ^ 32 }
    requires covers { AreCovers orders.now covers.now }
    ensures walk { OnOk result (EndsBefore orders.now walk) }
    ensures refused { IfErr result (λ e. (at : ℕ) → IsOfLine at e) }
{
    orders.conditions();
    let theory = MatrixTheory { orders, covers };
    let asked = MatrixFact {
        first: walk.first,
        second: walk.second,
        apart: true,
    };
    if concluded(&theory, proof, notes.places.as_slice())? == asked {
        Ok(())
    } else {
        Err(misfit(notes.places.as_slice()))
    }
}

// Judges a line that is due and whose names all name something.
#[tactic(auto, using(crate::proofs::MatrixSteps::cover_push))]
fn take(
    alloc: Global,
    orders: &OrderSet,
    covers: &mut Covers,
    line: &MatrixLine,
    notes: &Notes,
) -> Result<(), CertRefusal>
    requires small { matrix_line_nodes line.now < 2 ^ 32 }
    requires known { HasExtents orders.now.extents line.now }
    requires covers { AreCovers orders.now covers.old }
    ensures covers { OnOk result (AreCovers orders.now covers.new) }
    ensures count { OnOk result (length covers.new ≤ length covers.old + 1) }
    ensures line { OnOk result (IsMatrixTrue orders.now line.now) }
    ensures refused { IfErr result (λ e. (at : ℕ) → IsOfLine at e) }
{
    match line {
        MatrixLine::Cover(cover, proof) => {
            check_cover(alloc, orders, *cover, proof, notes)?;
            covers.push(*cover)?;
            Ok(())
        }
        MatrixLine::Walk(walk, proof) => check_walk(orders, covers, *walk, proof, notes),
        MatrixLine::End => Ok(()),
    }
}

/// Judges the lines from a place on.
pub(crate) fn judge_matrix(
    alloc: Global,
    orders: &OrderSet,
    text: &[u8],
    from: usize,
) -> Result<Verdict, CertRefusal>
    requires within { from ≤ length text.now }
    requires short { length text.now < 2 ^ 32 }
    ensures shown { IfOk result (λ v. (v ≡ Verdict.Matrix) × IsMatrixShown orders.now (drop from text.now)) }
    ensures accepted { OnOk result (IsAccepted (Body CellLine) 64 text.now from) }
    ensures refused { IfErr result (λ e. IsRefusedAs (Body CellLine) 64 text.now from e) }
{
    let mut covers = Covers::new(alloc);
    let mut walked = false;
    let mut at = from;
    'lines: loop {
        let mut notes = Notes::new(alloc);
        let known = Counts {
            orders: orders.len(),
            extents: orders.extents(),
            covers: covers.len() as u32,
        };
        let line = read_matrix_line(alloc, &known, text, at, &mut notes)?;
        if walked && matches!(line.value, MatrixLine::Cover(_, _)) {
            return Err(CertRefusal::K6(at as u64));
        }
        check_names(&notes)?;
        if let MatrixLine::End = line.value {
            return ended(text, line.to, Verdict::Matrix);
        }
        walked = walked || matches!(line.value, MatrixLine::Walk(_, _));
        take(alloc, orders, &mut covers, &line.value, &notes)?;
        at = line.to;
    }
}
