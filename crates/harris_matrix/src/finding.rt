// The cells of periods, and what is before what, read from the rows of the closure.
ghost use Rattle.std.specs.Prelude.{◌≡◌, ◌<◌, ◌≤◌, ◌^◌, ◌+◌, ◌*◌, ◌/◌, ℕ, IfOk, length, slice_index_or};
ghost use Rattle.order_laws.specs.declared.Point.TheVariants.{Start, End};
ghost use Rattle.order_laws.specs.Chains.{HasCycle};
ghost use Rattle.order_laws.specs.Closure.{reach_between};
ghost use Rattle.order_laws.specs.Tables.{IsPoint};
ghost use Rattle.order_closure.specs.Closures.{IsClosureOf};
ghost use Rattle.order_closure.specs.Rows.{row_width as width_of, bit_of};
ghost use Rattle.order_core.specs.Sets.{AreExtents};
ghost use Rattle.harris_matrix.specs.Cells.{shares_cell as share_cell, ends_before as end_before, is_least as is_least_of, representatives as representatives_of, members as members_of};
ghost use Rattle.harris_matrix.specs.Rows.{AreRows, IsMarked, IsRowMarked, IsKnownFrom, IsApartFrom};

use crate::rows::{Rows, add_bit, has_bit, row_width};
use crm_outside::Numbers;
use order_closure::Closure;
use order_core::OrderSet;
use order_laws::Point;
use order_laws::laws::{base_is_orderly, closure_is_what_follows};
use std::alloc::{AllocError, Global};

// The row of what x is known to be before or at.
fn known_row<'a>(set: &OrderSet, closure: &'a Closure, x: Point) -> &'a [u64]
    requires closure { IsClosureOf set.now closure.now }
    requires in_range { IsPoint set.now.extents (length set.now.dates) x }
    ensures { IsKnownFrom set.now x result.now }
{
    closure_is_what_follows();
    closure.le_row(x)
}

// Whether the row of a point says that it is before or at the point of number k.
fn follows(row: &[u64], k: u32) -> bool
    requires { k / 64 < length row.now }
    ensures { result ≡ bit_of row.now 0 k }
{
    has_bit(row, 0, k as usize)
}

// The row of what the start of a is before: an extent that starts there does not share the cell of a.
fn apart_row<'a>(set: &OrderSet, closure: &'a Closure, a: u32) -> &'a [u64]
    requires closure { IsClosureOf set.now closure.now }
    requires consistent { ¬ HasCycle set.now.list }
    requires in_range { a < set.now.extents }
    ensures { IsApartFrom set.now a result.now }
{
    set.conditions();
    closure_is_what_follows();
    base_is_orderly();
    closure.lt_row(Point::Start(a))
}

// The rows of an extent that say with which others it shares a cell.
#[derive(Drop)]
struct ExtentRows<'a> {
    starts: &'a [u64],
    apart: &'a [u64],
    ends: &'a [u64],
}

fn extent_rows<'a>(set: &OrderSet, closure: &'a Closure, a: u32) -> ExtentRows<'a>
    requires closure { IsClosureOf set.now closure.now }
    requires consistent { ¬ HasCycle set.now.list }
    requires in_range { a < set.now.extents }
    ensures starts { IsKnownFrom set.now (Start a) result.starts.now }
    ensures apart { IsApartFrom set.now a result.apart.now }
    ensures ends { IsKnownFrom set.now (End a) result.ends.now }
{
    ExtentRows {
        starts: known_row(set, closure, Point::Start(a)),
        apart: apart_row(set, closure, a),
        ends: known_row(set, closure, Point::End(a)),
    }
}

// Whether the extents start together and end together. The rows of b are looked up only where those of a
// say the half of it.
fn is_together(
    set: &OrderSet,
    closure: &Closure,
    starts: &[u64],
    ends: &[u64],
    a: u32,
    b: u32,
) -> bool
    requires closure { IsClosureOf set.now closure.now }
    requires first { a < set.now.extents }
    requires second { b < set.now.extents }
    requires starts { IsKnownFrom set.now (Start a) starts.now }
    requires ends { IsKnownFrom set.now (End a) ends.now }
    ensures shares { result ≡ share_cell (reach_between set.now.list) a b }
    ensures turned { result ≡ share_cell (reach_between set.now.list) b a }
{
    set.conditions();
    follows(starts, 2 * b)
        && follows(ends, 2 * b + 1)
        && follows(known_row(set, closure, Point::Start(b)), 2 * a)
        && follows(known_row(set, closure, Point::End(b)), 2 * a + 1)
}

// Whether the extents start together and end together, by the rows of a. The two bits are read without a
// branch between them, since either alone is as likely as not.
fn shares_cell(set: &OrderSet, closure: &Closure, rows: &ExtentRows<'_>, a: u32, b: u32) -> bool
    requires closure { IsClosureOf set.now closure.now }
    requires first { a < set.now.extents }
    requires second { b < set.now.extents }
    requires starts { IsKnownFrom set.now (Start a) rows.now.starts.now }
    requires apart { IsApartFrom set.now a rows.now.apart.now }
    requires ends { IsKnownFrom set.now (End a) rows.now.ends.now }
    ensures shares { result ≡ share_cell (reach_between set.now.list) a b }
    ensures turned { result ≡ share_cell (reach_between set.now.list) b a }
{
    set.conditions();
    let is_near = follows(rows.starts, 2 * b) & !follows(rows.apart, 2 * b);
    is_near && is_together(set, closure, rows.starts, rows.ends, a, b)
}

fn is_least(set: &OrderSet, closure: &Closure, periods: &[u32], a: u32) -> bool
    requires closure { IsClosureOf set.now closure.now }
    requires consistent { ¬ HasCycle set.now.list }
    requires periods { AreExtents set.now.extents periods.now }
    requires in_range { a < set.now.extents }
    ensures { result ≡ is_least_of (reach_between set.now.list) periods.now a }
{
    let rows = extent_rows(set, closure, a);
    for b in periods {
        if *b < a && shares_cell(set, closure, &rows, a, *b) {
            return false;
        }
    }
    true
}

/// The least period of each cell.
pub fn representatives(
    alloc: Global,
    set: &OrderSet,
    closure: &Closure,
    periods: &[u32],
) -> Result<Vec<u32>, AllocError>
    requires closure { IsClosureOf set.now closure.now }
    requires consistent { ¬ HasCycle set.now.list }
    requires periods { AreExtents set.now.extents periods.now }
    ensures { IfOk result (λ v. v.items ≡ representatives_of (reach_between set.now.list) periods.now) }
{
    let mut least = Vec::new(alloc);
    for a in periods {
        if is_least(set, closure, periods, *a) {
            least.push(*a)?;
        }
    }
    Ok(least)
}

/// The periods of the cell of a.
pub fn members(
    alloc: Global,
    set: &OrderSet,
    closure: &Closure,
    periods: &[u32],
    a: u32,
) -> Result<Numbers, AllocError>
    requires closure { IsClosureOf set.now closure.now }
    requires consistent { ¬ HasCycle set.now.list }
    requires periods { AreExtents set.now.extents periods.now }
    requires in_range { a < set.now.extents }
    ensures { IfOk result (λ v. v ≡ members_of (reach_between set.now.list) periods.now a) }
{
    let rows = extent_rows(set, closure, a);
    let mut extents = Numbers::new(alloc);
    for b in periods {
        if shares_cell(set, closure, &rows, a, *b) {
            extents.push(*b)?;
        }
    }
    Ok(extents)
}

// Sets the bits of row i at the extents whose starts the row of a point names.
fn mark_row(row: &[u64], least: &[u32], i: usize, words: &mut [u64])
    requires few { length least.now ≤ 2 ^ 16 }
    requires in_range { i < length least.now }
    requires extents { AreExtents (2 ^ 20) least.now }
    requires wide { (j : ℕ) → j < length least.now → 2 * slice_index_or least.now j 0 / 64 < length row.now }
    requires size { length words.old ≡ length least.now * width_of (length least.now) }
    ensures { IsRowMarked (λ j. bit_of row.now 0 (2 * slice_index_or least.now j 0)) (length least.now) i (length least.now) words.old words.new }
{
    let count = least.len();
    let first = i * row_width(count as u32);
    for j in 0..count {
        add_bit(words, first, j, follows(row, 2 * least[j]));
    }
}

/// What is before what of the extents, in rows.
pub fn mark_rows(
    alloc: Global,
    set: &OrderSet,
    closure: &Closure,
    least: &[u32],
) -> Result<Rows, AllocError>
    requires closure { IsClosureOf set.now closure.now }
    requires least { AreExtents set.now.extents least.now }
    requires few { length least.now ≤ 2 ^ 16 }
    ensures count { IfOk result (λ r. r.count ≡ length least.now) }
    ensures rows { IfOk result (λ r. AreRows (length least.now) r.words.items) }
    ensures marked { IfOk result (λ r. IsMarked (end_before (reach_between set.now.list)) least.now (length least.now) r.words.items) }
{
    set.conditions();
    let count = least.len();
    let width = row_width(count as u32);
    let mut words_kept = vec![in alloc; 0; count * width]?;
    let words = words_kept.as_mut_slice();
    for i in 0..count {
        let row = known_row(set, closure, Point::End(least[i]));
        mark_row(row, least, i, words);
    }
    Ok(Rows {
        count: count as u32,
        words: words_kept,
    })
}
