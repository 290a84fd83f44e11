// The Harris matrix.
ghost use Rattle.std.specs.Prelude.{◌≡◌, ◌<◌, ◌≤◌, ◌^◌, ◌*◌, ℕ, IfOk, MatchOption, None, length, slice_index_or};
ghost use Rattle.order_laws.specs.Chains.{HasCycle};
ghost use Rattle.order_laws.specs.Closure.{reach_between};
ghost use Rattle.order_closure.specs.Closures.{IsClosureOf};
ghost use Rattle.order_core.specs.Sets.{AreExtents};
ghost use Rattle.harris_matrix.specs.Cells.{ends_before, comes_before};
ghost use Rattle.harris_matrix.specs.Matrices.{IsMatrixOf, cells_below};
ghost use Rattle.harris_matrix.specs.Walks.{AreDistances, IsWalkBetween};
ghost use Rattle.harris_matrix.specs.Rows.{AreRows, IsMarked, IsStrictOrder, mark_at};

use crate::covering::find_covers;
use crate::finding::{mark_rows, members, representatives};
use crate::levels::{find_levels, order_cells};
use crate::rows::Rows;
use crate::targets::WalksTo;
use crate::walking::{measure, read_walk};
use crate::{Cell, CellList, PairList};
use crm_outside::Numbers;
use order_closure::Closure;
use order_core::OrderSet;
use order_laws::laws::{base_is_orderly, closure_is_what_follows};
use std::alloc::{AllocError, Global};
use std::marker::Model;

// What is before what of the extents, in rows; for orders without a cycle it is a strict order.
fn order_rows(
    alloc: Global,
    set: &OrderSet,
    closure: &Closure,
    least: &[u32],
) -> Result<Rows, AllocError>
    requires closure { IsClosureOf set.now closure.now }
    requires consistent { ¬ HasCycle set.now.list }
    requires least { AreExtents set.now.extents least.now }
    requires few { length least.now ≤ 2 ^ 16 }
    ensures count { IfOk result (λ r. r.count ≡ length least.now) }
    ensures rows { IfOk result (λ r. AreRows r.count r.words.items) }
    ensures orderly { IfOk result (λ r. IsStrictOrder (mark_at r.count r.words.items) r.count) }
    ensures marked { IfOk result (λ r. (i j : ℕ) → i < r.count → j < r.count →
        mark_at r.count r.words.items i j ≡ comes_before (reach_between set.now.list) least.now i j) }
{
    set.conditions();
    closure_is_what_follows();
    base_is_orderly();
    let rows = mark_rows(alloc, set, closure, least)?;
    Ok(rows)
}

fn make_cells(
    alloc: Global,
    set: &OrderSet,
    closure: &Closure,
    periods: &[u32],
    least: &[u32],
    levels: &[u32],
) -> Result<CellList, AllocError>
    requires closure { IsClosureOf set.now closure.now }
    requires consistent { ¬ HasCycle set.now.list }
    requires periods { AreExtents set.now.extents periods.now }
    requires least { AreExtents set.now.extents least.now }
    requires levels { length levels.now ≡ length least.now }
    ensures { IfOk result (λ v. v ≡ cells_below (reach_between set.now.list) periods.now least.now levels.now (length least.now)) }
{
    let mut cells = CellList::new(alloc);
    for c in 0..least.len() {
        let extents = members(alloc, set, closure, periods, least[c])?;
        cells.push(Cell {
            extents,
            level: levels[c],
        })?;
    }
    Ok(cells)
}

/// The cells of periods, in which periods that start together and end together are one, and the covers
/// between them.
///
/// Contracts see the cells and the covers.
#[derive(Drop)]
pub struct Matrix {
    cells: CellList,
    covers: PairList,
    starts: Vec<usize>,
    order: Vec<u32>,
}

impl Model for Matrix {
    ghost use Rattle.std.specs.Prelude.{length};
    ghost use Rattle.harris_matrix.specs.Matrices.{Cells};
    ghost use Rattle.harris_matrix.specs.Walks.{IsLaidOut};

    ghost Value = { Cells };

    ghost view = { λ m. record { cells = m.cells; covers = m.covers } };

    ghost invariant = { λ m. IsLaidOut (length m.cells) m.covers m.starts.items m.order.items };
}

impl Matrix {
    /// The matrix of ascending periods over consistent orders and their closure.
    pub fn build(
        alloc: Global,
        set: &OrderSet,
        closure: &Closure,
        periods: &Numbers,
    ) -> Result<Matrix, AllocError>
        requires closure { IsClosureOf set.now closure.now }
        requires consistent { ¬ HasCycle set.now.list }
        requires periods { AreExtents set.now.extents periods.now }
        requires few { length periods.now ≤ 2 ^ 16 }
        ensures { IfOk result (IsMatrixOf set.now.list periods.now) }
    {
        let periods = periods.as_slice();
        let least = representatives(alloc, set, closure, periods)?;
        let rows = order_rows(alloc, set, closure, &least)?;
        let order = order_cells(alloc, &rows)?;
        let levels = find_levels(alloc, &rows, &order)?;
        let covered = find_covers(alloc, &rows, &order)?;
        let cells = make_cells(alloc, set, closure, periods, &least, &levels)?;
        Ok(Matrix {
            cells,
            covers: covered.pairs,
            starts: covered.starts,
            order,
        })
    }

    /// The cells, by number: each with its periods in their order, and its level.
    pub fn cells(&self) -> &CellList
        ensures { result.now ≡ self.now.cells }
    {
        &self.cells
    }

    /// The covers, ascending.
    pub fn covers(&self) -> &PairList
        ensures { result.now ≡ self.now.covers }
    {
        &self.covers
    }

    /// The walks to cell j; None exactly where there is no such cell, to which no walk leads.
    pub fn walks_to(&self, alloc: Global, j: u32) -> Result<Option<WalksTo<'_>>, AllocError>
        ensures { IfOk result (λ o. MatchOption o ((length self.now.cells ≤ j) × ((i : ℕ) → IsWalkBetween self.now.covers i j None))
            (λ w. w ≡ record { covers = self.now.covers; target = j })) }
    {
        let count = self.cells.len() as u32;
        if j >= count {
            return Ok(None);
        }
        let pairs = self.covers.as_slice();
        let lengths = measure(alloc, pairs, &self.starts, &self.order, count, j)?;
        Ok(Some(WalksTo {
            matrix: self,
            target: j,
            lengths,
        }))
    }

    // The walk from cell i to the cell that the lengths are of.
    pub(crate) fn walk_by(
        &self,
        alloc: Global,
        lengths: &[Option<usize>],
        i: u32,
        j: u32,
    ) -> Result<Option<Numbers>, AllocError>
        requires { AreDistances (length self.now.cells) self.now.covers j lengths.now }
        ensures { IfOk result (IsWalkBetween self.now.covers i j) }
    {
        let count = self.cells.len() as u32;
        if i >= count || i == j {
            return Ok(None);
        }
        match lengths[i as usize] {
            None => Ok(None),
            Some(size) => {
                let pairs = self.covers.as_slice();
                let walk = read_walk(alloc, pairs, &self.starts, lengths, count, i, size)?;
                Ok(Some(walk))
            }
        }
    }

    /// The walk from cell i to cell j along the fewest covers, and among these the one with the least list of
    /// cover numbers; None exactly where cell i is not before cell j.
    pub fn walk(&self, alloc: Global, i: u32, j: u32) -> Result<Option<Numbers>, AllocError>
        ensures { IfOk result (IsWalkBetween self.now.covers i j) }
    {
        match self.walks_to(alloc, j)? {
            None => Ok(None),
            Some(walks) => walks.from(alloc, i),
        }
    }
}
