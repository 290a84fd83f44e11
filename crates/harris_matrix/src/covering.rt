// The covers of cells, a row at a time.
ghost use Rattle.std.specs.Prelude.{◌≡◌, ◌<◌, ◌≤◌, ◌||◌, ◌&&◌, ◌++◌, ◌^◌, ℕ, OnOk, IfOk, length, slice_index_or, slice_set, true, false, cond};
ghost use Rattle.order_closure.specs.Rows.{row_width as width_of, bit_of};
ghost use Rattle.harris_matrix.specs.Covers.{covers, is_direct, pairs_with, all_covers, starts_of};
ghost use Rattle.harris_matrix.specs.Levels.{IsOrdering};
ghost use Rattle.harris_matrix.specs.Rows.{mark_at, AreRows, IsStrictOrder};

use crate::rows::{Rows, has_bit, is_before, row_of, row_width};
use crate::{CellPair, PairList};
use std::alloc::{AllocError, Global};

// Sets no bit of a row of so many.
fn clear(count: u32, words: &mut [u64])
    requires few { count ≤ 2 ^ 16 }
    requires size { length words.old ≡ width_of count }
    ensures { (j : ℕ) → j < count → bit_of words.new 0 j ≡ false }
{
    for k in 0..row_width(count) {
        words[k] = 0;
    }
}

// Strikes the cells that cell i is before.
fn strike(rows: &Rows, i: u32, struck: &mut [u64])
    requires rows { AreRows rows.now.count rows.now.words.items }
    requires in_range { i < rows.now.count }
    requires size { length struck.old ≡ width_of rows.now.count }
    ensures { (j : ℕ) → j < rows.now.count →
        bit_of struck.new 0 j ≡ (bit_of struck.old 0 j || mark_at rows.now.count rows.now.words.items i j) }
{
    let row = row_of(rows, i);
    for k in 0..row.len() {
        struck[k] |= row[k];
    }
}

// Marks cell j if cell i is before it and it is not struck, and then strikes the cells that it is before.
fn mark_cell(rows: &Rows, i: u32, j: u32, struck: &mut [u64], marks: &mut [bool])
    requires rows { AreRows rows.now.count rows.now.words.items }
    requires first { i < rows.now.count }
    requires second { j < rows.now.count }
    requires struck { length struck.old ≡ width_of rows.now.count }
    requires marks { length marks.old ≡ rows.now.count }
    ensures marked { marks.new ≡ cond (is_direct (mark_at rows.now.count rows.now.words.items) (bit_of struck.old 0) i j) (slice_set marks.old j true) marks.old }
    ensures struck { (m : ℕ) → m < rows.now.count → bit_of struck.new 0 m ≡ (bit_of struck.old 0 m
        || (is_direct (mark_at rows.now.count rows.now.words.items) (bit_of struck.old 0) i j && mark_at rows.now.count rows.now.words.items j m)) }
{
    if is_before(rows, i, j) && !has_bit(struck, 0, j as usize) {
        marks[j as usize] = true;
        strike(rows, j, struck);
    }
}

// Marks the cells that cell i covers: of the cells that it is before, in an order in which each stands
// behind all that are before it, those that no cover ahead of them is before.
fn mark_covers(rows: &Rows, cells: &[u32], i: u32, struck: &mut [u64], marks: &mut [bool])
    requires rows { AreRows rows.now.count rows.now.words.items }
    requires orderly { IsStrictOrder (mark_at rows.now.count rows.now.words.items) rows.now.count }
    requires ordering { IsOrdering (mark_at rows.now.count rows.now.words.items) rows.now.count cells.now }
    requires in_range { i < rows.now.count }
    requires struck { length struck.old ≡ width_of rows.now.count }
    requires marks { length marks.old ≡ rows.now.count }
    ensures { (j : ℕ) → j < rows.now.count →
        slice_index_or marks.new j false ≡ covers (mark_at rows.now.count rows.now.words.items) rows.now.count i j }
{
    clear(rows.count, struck);
    marks.fill(false);
    for j in cells {
        mark_cell(rows, i, *j, struck, marks);
    }
}

// Adds the covers of cell i, which are marked.
fn push_covers(marks: &[bool], i: u32, pairs: &mut PairList) -> Result<(), AllocError>
    requires { length marks.now < 2 ^ 32 }
    ensures { OnOk result (pairs.new ≡ pairs.old ++ pairs_with i (λ j. slice_index_or marks.now j false) (length marks.now)) }
{
    for j in 0..marks.len() as u32 {
        if marks[j as usize] {
            pairs.push(CellPair {
                first: i,
                second: j,
            })?;
        }
    }
    Ok(())
}

/// Covers, ascending, and where those of each cell begin.
#[derive(Drop)]
pub struct Covered {
    pub pairs: PairList,
    pub starts: Vec<usize>,
}

/// The covers of all cells.
pub fn find_covers(alloc: Global, rows: &Rows, cells: &[u32]) -> Result<Covered, AllocError>
    requires rows { AreRows rows.now.count rows.now.words.items }
    requires orderly { IsStrictOrder (mark_at rows.now.count rows.now.words.items) rows.now.count }
    requires ordering { IsOrdering (mark_at rows.now.count rows.now.words.items) rows.now.count cells.now }
    ensures pairs { IfOk result (λ c. c.pairs ≡ all_covers (mark_at rows.now.count rows.now.words.items) rows.now.count) }
    ensures starts { IfOk result (λ c. c.starts.items ≡ starts_of (mark_at rows.now.count rows.now.words.items) rows.now.count rows.now.count) }
{
    let count = rows.count as usize;
    let mut struck_kept = vec![in alloc; 0; row_width(rows.count)]?;
    let struck = struck_kept.as_mut_slice();
    let mut marks_kept = vec![in alloc; false; count]?;
    let marks = marks_kept.as_mut_slice();
    let mut pairs = PairList::new(alloc);
    let mut starts = vec![in alloc; 0usize; 1]?;
    for i in 0..rows.count {
        mark_covers(rows, cells, i, struck, marks);
        push_covers(marks, i, &mut pairs)?;
        starts.push(pairs.len())?;
    }
    Ok(Covered { pairs, starts })
}
