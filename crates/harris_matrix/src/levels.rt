// The levels of cells, in an order in which each cell stands behind all that are before it.
ghost use Rattle.std.specs.Prelude.{◌≡◌, ◌<◌, ℕ, OnOk, IfOk, length, slice_index_or};
ghost use Rattle.std.specs.List.Sorted.{IsNonDecreasingBy, IsPermutation};
ghost use Rattle.harris_matrix.specs.Levels.{AreLevels, IsOrdering, count_below, above_all};
ghost use Rattle.harris_matrix.specs.Ranks.{ranked_below};
ghost use Rattle.harris_matrix.specs.Rows.{mark_at, AreRows, IsStrictOrder};

use crate::rows::{Rows, is_before};
use std::alloc::{AllocError, Global};

/// A cell with the number of cells that are before it.
#[derive(Clone, Copy)]
pub struct Ranked {
    pub rank: u32,
    pub cell: u32,
}

// How many cells are before cell j.
fn rank(rows: &Rows, j: u32) -> u32
    requires rows { AreRows rows.now.count rows.now.words.items }
    requires in_range { j < rows.now.count }
    ensures { result ≡ count_below rows.now.count (λ k. mark_at rows.now.count rows.now.words.items k j) }
{
    let mut count = 0;
    for k in 0..rows.count {
        if is_before(rows, k, j) {
            count += 1;
        }
    }
    count
}

// One more than the greatest level of the cells before cell j, or 0 where there are none.
fn above(rows: &Rows, levels: &[u32], j: u32) -> u32
    requires rows { AreRows rows.now.count rows.now.words.items }
    requires in_range { j < rows.now.count }
    requires size { length levels.now ≡ rows.now.count }
    requires low { (k : ℕ) → k < rows.now.count → slice_index_or levels.now k 0 < rows.now.count }
    ensures { result ≡ above_all rows.now.count (λ k. mark_at rows.now.count rows.now.words.items k j) levels.now }
{
    let mut level = 0;
    for k in 0..rows.count {
        if is_before(rows, k, j) {
            level = level.max(levels[k as usize] + 1);
        }
    }
    level
}

fn rank_cells(alloc: Global, rows: &Rows) -> Result<Vec<Ranked>, AllocError>
    requires rows { AreRows rows.now.count rows.now.words.items }
    ensures { IfOk result (λ v. v.items ≡ ranked_below (mark_at rows.now.count rows.now.words.items) rows.now.count rows.now.count) }
{
    let mut ranked = Vec::with_capacity(alloc, rows.count as usize)?;
    for cell in 0..rows.count {
        ranked.push(Ranked {
            rank: rank(rows, cell),
            cell,
        })?;
    }
    Ok(ranked)
}

fn sort_ranked(ranked: &mut Vec<Ranked>) -> Result<(), AllocError>
    ensures moved { IsPermutation ranked.old.items ranked.new.items }
    ensures sorted { OnOk result (IsNonDecreasingBy (λ r. r.rank) ranked.new.items) }
{
    ranked.sort_by_key(|r| r.rank)?;
    Ok(())
}

/// The cells in an order in which each stands behind all that are before it: by the number of these, since
/// a cell has more cells before it than any of those.
pub fn order_cells(alloc: Global, rows: &Rows) -> Result<Vec<u32>, AllocError>
    requires rows { AreRows rows.now.count rows.now.words.items }
    requires orderly { IsStrictOrder (mark_at rows.now.count rows.now.words.items) rows.now.count }
    ensures { IfOk result (λ v. IsOrdering (mark_at rows.now.count rows.now.words.items) rows.now.count v.items) }
{
    let mut ranked = rank_cells(alloc, rows)?;
    sort_ranked(&mut ranked)?;
    let mut cells = Vec::with_capacity(alloc, ranked.len())?;
    for r in &ranked {
        cells.push(r.cell)?;
    }
    Ok(cells)
}

/// The level of each cell.
pub fn find_levels(alloc: Global, rows: &Rows, cells: &[u32]) -> Result<Vec<u32>, AllocError>
    requires rows { AreRows rows.now.count rows.now.words.items }
    requires orderly { IsStrictOrder (mark_at rows.now.count rows.now.words.items) rows.now.count }
    requires ordering { IsOrdering (mark_at rows.now.count rows.now.words.items) rows.now.count cells.now }
    ensures { IfOk result (λ v. AreLevels (mark_at rows.now.count rows.now.words.items) rows.now.count v.items) }
{
    let mut levels = vec![in alloc; 0; rows.count as usize]?;
    for j in cells {
        let level = above(rows, &levels, *j);
        levels[*j as usize] = level;
    }
    Ok(levels)
}
