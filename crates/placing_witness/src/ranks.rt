// Counts of the points that stand below another.
ghost use Rattle.std.specs.Prelude.{◌≡◌, ℕ, ◌<◌, ◌≤◌, ◌^◌, ◌&&◌, ◌==◌, not, length, slice_index_or, IfOk};
ghost use Rattle.order_laws.specs.Tables.{is_known, is_strict, all_points};
ghost use Rattle.order_closure.specs.Closures.{between};
ghost use Rattle.placing_witness.specs.Bits.{count_to, entry_at};
ghost use Rattle.placing_witness.specs.Prepared.{below_to, between_to};

use crate::floors::{is_known, is_strict};
use crate::tallies::{tally_level, tally_where};
use order_closure::Closure;
use order_laws::{Point, Reach};
use std::alloc::{AllocError, Global};

/// Of each boundary, how many points with its floor are before it.
pub fn count_below(
    alloc: Global,
    closure: &Closure,
    points: &[Point],
    boundaries: usize,
    floors: &[u32],
) -> Result<Vec<u32>, AllocError>
    requires points { points.now ≡ all_points closure.now.extents closure.now.dates }
    requires few { length points.now ≤ 2 ^ 22 }
    requires boundaries { boundaries ≤ length points.now }
    requires floors { length floors.now ≡ length points.now }
    ensures size { IfOk result (λ counts. length counts.items ≡ boundaries) }
    ensures counts { IfOk result (λ counts. (n : ℕ) → n < boundaries → slice_index_or counts.items n 0 ≡ below_to (between closure.now) points.now floors.now n (length points.now)) }
{
    let mut kept = vec![in alloc; 0; boundaries]?;
    let counts = kept.as_mut_slice();
    for q in 0..points.len() {
        tally_level(counts, closure.lt_row(points[q]), floors, floors[q]);
    }
    Ok(kept)
}

/// Of each boundary, how many of the points that are strict in the row are before it.
pub fn count_between(
    alloc: Global,
    closure: &Closure,
    points: &[Point],
    boundaries: usize,
    row: &[Reach],
) -> Result<Vec<u32>, AllocError>
    requires points { points.now ≡ all_points closure.now.extents closure.now.dates }
    requires few { length points.now ≤ 2 ^ 22 }
    requires boundaries { boundaries ≤ length points.now }
    requires row { length row.now ≡ length points.now }
    ensures size { IfOk result (λ counts. length counts.items ≡ boundaries) }
    ensures counts { IfOk result (λ counts. (n : ℕ) → n < boundaries → slice_index_or counts.items n 0 ≡ between_to (between closure.now) points.now row.now n (length points.now)) }
    ensures few { IfOk result (λ counts. (n : ℕ) → n < boundaries → slice_index_or counts.items n 0 ≤ length points.now) }
{
    let mut kept = vec![in alloc; 0; boundaries]?;
    let counts = kept.as_mut_slice();
    for q in 0..points.len() {
        tally_where(counts, closure.lt_row(points[q]), is_strict(row[q]));
    }
    Ok(kept)
}

/// How many entries of the row say nothing, of points with the floor.
pub fn count_apart(row: &[Reach], floors: &[u32], floor: u32) -> u32
    requires lengths { length floors.now ≡ length row.now }
    requires few { length row.now ≤ 2 ^ 22 }
    ensures value { result ≡ count_to (λ n. not (is_known (entry_at row.now n)) && (slice_index_or floors.now n 0 == floor)) (length row.now) }
    ensures bound { result ≤ length row.now }
{
    let mut count = 0;
    for n in 0..row.len() {
        if !is_known(row[n]) && floors[n] == floor {
            count += 1;
        }
    }
    count
}

/// How many entries of the row are known and not strict.
pub fn count_level(row: &[Reach]) -> u32
    requires few { length row.now ≤ 2 ^ 22 }
    ensures value { result ≡ count_to (λ n. is_known (entry_at row.now n) && not (is_strict (entry_at row.now n))) (length row.now) }
    ensures bound { result ≤ length row.now }
{
    let mut count = 0;
    for n in 0..row.len() {
        if is_known(row[n]) && !is_strict(row[n]) {
            count += 1;
        }
    }
    count
}
