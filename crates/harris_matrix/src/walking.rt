// Walks along covers with the fewest covers.
ghost use Rattle.std.specs.Prelude.{◌≡◌, ◌<◌, ◌≤◌, ◌+◌, ◌^◌, ℕ, IfOk, IfSome, Option, Some, None, length, slice_index_or};
ghost use Rattle.harris_matrix.specs.Walks.{AreStarts, IsForward, AreDistances, closer as closer_of, IsNearest, IsFirstStep, IsShortestWalk, pair_at};

use crate::CellPair;
use crm_outside::Numbers;
use std::alloc::{AllocError, Global};

// The better of a length and of one more than another.
fn closer(best: Option<usize>, other: Option<usize>) -> Option<usize>
    requires { IfSome other (λ e. e < 2 ^ 63) }
    ensures { result ≡ closer_of best other }
{
    match other {
        None => best,
        Some(e) => match best {
            None => Some(e + 1),
            Some(d) => { if e + 1 < d { Some(e + 1) } else { Some(d) } }
        },
    }
}

// One more than the least length from the second cells of the pairs.
fn nearest(pairs: &[CellPair], from: usize, to: usize, lengths: &[Option<usize>]) -> Option<usize>
    requires ascending { from ≤ to }
    requires pairs { to ≤ length pairs.now }
    requires in_range { (c : ℕ) → c < length pairs.now → (pair_at pairs.now c).second < length lengths.now }
    requires low { (k e : ℕ) → slice_index_or lengths.now k None ≡ Some e → e < 2 ^ 63 }
    ensures { IsNearest pairs.now lengths.now from to result }
{
    let mut best = None;
    for c in from..to {
        best = closer(best, lengths[pairs[c].second as usize]);
    }
    best
}

// The first of the pairs from whose second cell the length is the wanted one.
fn first_step(
    pairs: &[CellPair],
    from: usize,
    to: usize,
    lengths: &[Option<usize>],
    wanted: usize,
) -> Option<usize>
    requires pairs { to ≤ length pairs.now }
    requires in_range { (c : ℕ) → c < length pairs.now → (pair_at pairs.now c).second < length lengths.now }
    ensures { IsFirstStep pairs.now lengths.now from to wanted result }
{
    for c in from..to {
        if lengths[pairs[c].second as usize] == Some(wanted) {
            return Some(c);
        }
    }
    None
}

/// How many covers a walk from each cell to the target has at least: cell by cell against the order, in
/// which the first cell of each cover stands ahead of the second.
pub fn measure(
    alloc: Global,
    pairs: &[CellPair],
    starts: &[usize],
    cells: &[u32],
    count: u32,
    target: u32,
) -> Result<Vec<Option<usize>>, AllocError>
    requires starts { AreStarts count pairs.now starts.now }
    requires forward { IsForward count pairs.now cells.now }
    requires in_range { target < count }
    ensures { IfOk result (λ v. AreDistances count pairs.now target v.items) }
{
    let mut lengths = vec![in alloc; None; count as usize]?;
    let mut p = cells.len();
    while p > 0 {
        p -= 1;
        let k = cells[p];
        let from = starts[k as usize];
        let to = starts[k as usize + 1];
        let found = if k == target {
            Some(0)
        } else {
            nearest(pairs, from, to, &lengths)
        };
        lengths[k as usize] = found;
    }
    Ok(lengths)
}

/// The first of the walks with the fewest covers from cell i, which are so many.
pub fn read_walk(
    alloc: Global,
    pairs: &[CellPair],
    starts: &[usize],
    lengths: &[Option<usize>],
    count: u32,
    i: u32,
    size: usize,
) -> Result<Numbers, AllocError>
    requires starts { AreStarts count pairs.now starts.now }
    requires in_range { i < count }
    requires known { slice_index_or lengths.now i None ≡ Some size }
    requires lengths { length lengths.now ≡ count }
    ensures { IfOk result (λ cs. (target : ℕ) → AreDistances count pairs.now target lengths.now → IsShortestWalk pairs.now i target size cs) }
{
    let mut walk = Numbers::new(alloc);
    let mut at = i;
    let mut left = size;
    while left > 0 {
        left -= 1;
        match first_step(
            pairs,
            starts[at as usize],
            starts[at as usize + 1],
            lengths,
            left,
        ) {
            None => return Ok(walk),
            Some(c) => {
                walk.push(c as u32)?;
                at = pairs[c].second;
            }
        }
    }
    Ok(walk)
}
