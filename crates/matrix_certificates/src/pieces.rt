// Certificates of a matrix.
ghost use Rattle.std.specs.Prelude.{◌≡◌, ◌<◌, OnOk, IfOk, IfSome, length};
ghost use Rattle.order_laws.specs.declared.Point.TheVariants.{End};
ghost use Rattle.chain_certificate.specs.Routes.{IsRoutesOf};
ghost use Rattle.matrix_certificates.specs.MatrixStages.{IsMatrixStage, IsReadyFrom, IsFrom};

use chain_certificate::Routes;
use harris_matrix::{CellPair, Matrix, WalksTo};
use order_analysis::Analysis;
use order_certificates::{Drafts, append_balanced, append_name};
use order_closure::Reach;
use order_core::Point;
use std::alloc::{AllocError, Global};

/// The chains from the end of an extent.
#[derive(Drop)]
pub(crate) struct From {
    pub extent: u32,
    pub routes: Routes,
}

/// What comes next of a certificate of a matrix.
#[derive(Drop)]
pub(crate) enum MatrixStage {
    /// The first line.
    Head,
    /// The cover of a number, with the chains for the one before.
    Covers(usize, Option<From>),
    /// The walk from a cell to another, or the last line behind all.
    Walks(u32, u32),
    /// Nothing.
    Over,
}

// The least extent of a cell.
fn representative(analysis: &Analysis, matrix: &Matrix, cell: u32) -> Option<u32>
    ensures { IfSome result (λ a. a < analysis.now.set.extents) }
{
    let Some(cell) = matrix.cells().get(cell as usize) else {
        return None;
    };
    let Some(least) = cell.extents.get(0) else {
        return None;
    };
    let a = *least;
    if a < analysis.set().extents() {
        Some(a)
    } else {
        None
    }
}

fn append_extents(word: &[u8], a: u32, b: u32, line: &mut Vec<u8>) -> Result<(), AllocError> {
    line.extend_from_slice(word)?;
    append_name(b'x', a as u64, line)?;
    line.push(b' ')?;
    append_name(b'x', b as u64, line)?;
    line.push(b' ')?;
    Ok(())
}

// Appends the balanced chain from the end of one extent to the start of another, weakened where it shows `<`.
fn append_chain(
    analysis: &Analysis,
    from: &From,
    b: u32,
    line: &mut Vec<u8>,
) -> Result<(), AllocError>
    requires from { IsFrom analysis.now.set from.now }
    requires to { b < analysis.now.set.extents }
{
    let strict = analysis.between(Point::End(from.extent), Point::Start(b)) == Reach::Lt;
    let Some(chain) = from
        .routes
        .chain(analysis.alloc(), Point::Start(b), strict)?
    else {
        return Ok(());
    };
    if strict {
        line.extend_from_slice(b"w(")?;
        append_balanced(b'o', chain.as_slice(), line)?;
        line.extend_from_slice(b")")
    } else {
        append_balanced(b'o', chain.as_slice(), line)
    }
}

fn append_cover(
    analysis: &Analysis,
    from: &From,
    b: u32,
    line: &mut Vec<u8>,
) -> Result<(), AllocError>
    requires from { IsFrom analysis.now.set from.now }
    requires to { b < analysis.now.set.extents }
{
    append_extents(b"cover ", from.extent, b, line)?;
    append_chain(analysis, from, b, line)?;
    line.push(b'\n')?;
    Ok(())
}

fn build_from(analysis: &Analysis, a: u32) -> Result<From, AllocError>
    requires { a < analysis.now.set.extents }
    ensures { IfOk result (λ f. IsFrom analysis.now.set f) }
{
    let routes = analysis.routes(Point::End(a))?;
    Ok(From { extent: a, routes })
}

// The chains from the end of an extent, those at hand where they are these.
fn chains_from(analysis: &Analysis, from: Option<From>, a: u32) -> Result<From, AllocError>
    requires from { IsReadyFrom analysis.now.set from }
    requires within { a < analysis.now.set.extents }
    ensures { IfOk result (λ f. IsFrom analysis.now.set f) }
{
    match from {
        Some(kept) if kept.extent == a => Ok(kept),
        _ => build_from(analysis, a),
    }
}

// Appends the line of a cover, and keeps the chains from its first cell.
fn next_cover(
    analysis: &Analysis,
    matrix: &Matrix,
    pair: CellPair,
    from: Option<From>,
    line: &mut Vec<u8>,
) -> Result<Option<From>, AllocError>
    requires { IsReadyFrom analysis.now.set from }
    ensures { IfOk result (λ f. IsReadyFrom analysis.now.set f) }
{
    let Some(a) = representative(analysis, matrix, pair.first) else {
        return Ok(None);
    };
    let Some(b) = representative(analysis, matrix, pair.second) else {
        return Ok(None);
    };
    let chains = chains_from(analysis, from, a)?;
    append_cover(analysis, &chains, b, line)?;
    Ok(Some(chains))
}

// Appends the line of the walk from a cell to another, where there is one.
fn append_walk(
    analysis: &Analysis,
    matrix: &Matrix,
    walks: &WalksTo,
    i: u32,
    j: u32,
    line: &mut Vec<u8>,
) -> Result<(), AllocError> {
    let Some(a) = representative(analysis, matrix, i) else {
        return Ok(());
    };
    let Some(b) = representative(analysis, matrix, j) else {
        return Ok(());
    };
    if analysis.between(Point::End(a), Point::Start(b)) == Reach::None {
        return Ok(());
    }
    let Some(walk) = walks.from(analysis.alloc(), i)? else {
        return Ok(());
    };
    append_extents(b"walk ", a, b, line)?;
    append_balanced(b'c', walk.as_slice(), line)?;
    line.push(b'\n')?;
    Ok(())
}

fn next_covers(
    analysis: &Analysis,
    matrix: &Matrix,
    at: usize,
    from: Option<From>,
    line: &mut Vec<u8>,
) -> Result<MatrixStage, AllocError>
    requires { IsReadyFrom analysis.now.set from }
    ensures { IfOk result (λ s. IsMatrixStage analysis.now.set s) }
{
    let pairs = matrix.covers().as_slice();
    if at >= pairs.len() {
        return Ok(MatrixStage::Walks(0, 0));
    }
    let kept = next_cover(analysis, matrix, pairs[at], from, line)?;
    Ok(MatrixStage::Covers(at + 1, kept))
}

// How many cells there are; no matrix has more than 65,536.
fn cell_count(matrix: &Matrix) -> u32 {
    let count = matrix.cells().len();
    if count <= 65_536 {
        count as u32
    } else {
        65_536
    }
}

/// The walks to each cell, by its number.
pub fn walks_of<'a>(alloc: Global, matrix: &'a Matrix) -> Result<Vec<WalksTo<'a>>, AllocError> {
    let mut all = Vec::new(alloc);
    for j in 0..cell_count(matrix) {
        let Some(walks) = matrix.walks_to(alloc, j)? else {
            return Ok(all);
        };
        all.push(walks)?;
    }
    Ok(all)
}

fn next_walk(
    analysis: &Analysis,
    matrix: &Matrix,
    walks: &[WalksTo],
    i: u32,
    j: u32,
    line: &mut Vec<u8>,
) -> Result<MatrixStage, AllocError>
    ensures { IfOk result (λ s. IsMatrixStage analysis.now.set s) }
{
    let count = cell_count(matrix);
    if i >= count {
        line.extend_from_slice(b"end\n")?;
        return Ok(MatrixStage::Over);
    }
    if j >= count {
        return Ok(MatrixStage::Walks(i + 1, 0));
    }
    let Some(walks_to) = walks.get(j as usize) else {
        return Ok(MatrixStage::Walks(i + 1, 0));
    };
    append_walk(analysis, matrix, walks_to, i, j, line)?;
    Ok(MatrixStage::Walks(i, j + 1))
}

fn next_stage(
    analysis: &Analysis,
    matrix: &Matrix,
    walks: &[WalksTo],
    stage: MatrixStage,
    line: &mut Vec<u8>,
) -> Result<MatrixStage, AllocError>
    requires { IsMatrixStage analysis.now.set stage }
    ensures { IfOk result (λ s. IsMatrixStage analysis.now.set s) }
{
    match stage {
        MatrixStage::Head => {
            line.extend_from_slice(b"crmtime 1 matrix\n")?;
            Ok(MatrixStage::Covers(0, None))
        }
        MatrixStage::Covers(at, from) => next_covers(analysis, matrix, at, from, line),
        MatrixStage::Walks(i, j) => next_walk(analysis, matrix, walks, i, j, line),
        MatrixStage::Over => Ok(MatrixStage::Over),
    }
}

fn is_going_on(stage: &MatrixStage) -> bool {
    match stage {
        MatrixStage::Over => false,
        _ => true,
    }
}

/// A certificate of a matrix, of which a part may be printed.
#[derive(Drop)]
pub struct MatrixPieces<'a> {
    analysis: &'a Analysis<'a>,
    matrix: &'a Matrix,
    walks: &'a [WalksTo<'a>],
    stage: MatrixStage,
}

impl<'a> MatrixPieces<'a> {
    /// The certificate of the matrix of the periods, of which nothing is printed.
    pub fn new(
        analysis: &'a Analysis<'a>,
        matrix: &'a Matrix,
        walks: &'a [WalksTo<'a>],
    ) -> MatrixPieces<'a>
        ensures { ⟦<MatrixPieces<'a> as Drafts>⟧.IsReady result }
    {
        MatrixPieces {
            analysis,
            matrix,
            walks,
            stage: MatrixStage::Head,
        }
    }
}

impl<'a> Drafts for MatrixPieces<'a> {
    ghost use Rattle.matrix_certificates.specs.MatrixStages.{IsMatrixStage};

    ghost IsReady = { λ p. IsMatrixStage p.analysis.now.set p.stage };

    fn append_draft(&mut self, line: &mut Vec<u8>) -> Result<bool, AllocError> {
        let stage = std::mem::replace(&mut self.stage, MatrixStage::Over);
        let next = next_stage(self.analysis, self.matrix, self.walks, stage, line)?;
        let more = is_going_on(&next);
        self.stage = next;
        Ok(more)
    }
}
