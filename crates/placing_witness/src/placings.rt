// The plain placing and the delaying placings of a set of orders.
ghost use Rattle.std.specs.Prelude.{◌≡◌, ℕ, ◌≤◌, ◌<◌, ◌+◌, ◌*◌, ◌^◌, IfOk, cond, flat_map, take, length, slice_index_or, slice_range};
ghost use Rattle.order_laws.specs.Chains.{HasCycle};
ghost use Rattle.order_laws.specs.Tables.{IsPoint, is_strict, all_points};
ghost use Rattle.order_laws.specs.Wider.{plain_placing, delaying_placing};
ghost use Rattle.order_closure.specs.Closures.{IsClosureOf, between};
ghost use Rattle.placing_witness.specs.Bits.{entry_at, words_of, set_in_both};
ghost use Rattle.placing_witness.specs.Prepared.{lower_row};

use crate::base::{Base, delay_from, prepare};
use crate::bits::{pack, share};
use crate::ranks::count_between;
use crate::rows::{column_to, row_from};
use order_closure::Closure;
use order_core::{OrderSet, Placing};
use order_laws::{Point, Reach};
use std::alloc::{AllocError, Global};
use std::marker::Model;

// The points below each boundary, as bits.
fn lower_rows(
    alloc: Global,
    closure: &Closure,
    points: &[Point],
    boundaries: usize,
    words: usize,
) -> Result<Vec<u64>, AllocError>
    requires points { points.now ≡ all_points closure.now.extents closure.now.dates }
    requires boundaries { boundaries ≤ length points.now }
    requires words { words ≤ 2 ^ 20 }
    ensures { IfOk result (λ lower. lower.items ≡ flat_map (lower_row (between closure.now) points.now words) (take boundaries points.now)) }
{
    let mut lower = Vec::new(alloc);
    for n in 0..boundaries {
        let column = column_to(alloc, closure, points, points[n])?;
        pack(&column, words, &mut lower)?;
    }
    Ok(lower)
}

/// What the placings of one set share, made once for all of them.
///
/// Contracts see the set.
#[derive(Drop)]
pub struct Placings<'a> {
    set: &'a OrderSet,
    closure: &'a Closure,
    base: Base,
    words: usize,
    lower: Vec<u64>,
}

impl<'a> Model for Placings<'a> {
    ghost use Rattle.order_core.specs.Sets.{Orders};
    ghost use Rattle.placing_witness.specs.Prepared.{IsPrepared};

    ghost Value = { Orders };

    ghost view = { λ p. p.set.now };

    ghost invariant = { λ p. IsPrepared p.set.now p.closure.now p.base.points.items p.base.floors.items p.words p.lower.items p.base.positions.items };
}

// The counts of the points between x and each boundary behind x, from the points below each.
fn shared_counts(
    alloc: Global,
    row: &[Reach],
    boundaries: usize,
    words: usize,
    lower: &[u64],
) -> Result<Vec<u32>, AllocError>
    requires row { boundaries ≤ length row.now }
    requires few { boundaries ≤ 2 ^ 22 }
    requires words { words ≤ 2 ^ 20 }
    requires lower { length lower.now ≡ boundaries * words }
    ensures size { IfOk result (λ counts. length counts.items ≡ boundaries) }
    ensures shared { IfOk result (λ counts. (n : ℕ) → n < boundaries → slice_index_or counts.items n 0 ≡ cond (is_strict (entry_at row.now n)) (set_in_both (words_of row.now words) (slice_range lower.now (n * words) ((n + 1) * words)) words) 0) }
    ensures few { IfOk result (λ counts. (n : ℕ) → n < boundaries → slice_index_or counts.items n 0 ≤ 64 * words) }
{
    let mut after = Vec::with_capacity(alloc, words)?;
    pack(row, words, &mut after)?;
    let mut kept = vec![in alloc; 0; boundaries]?;
    share(kept.as_mut_slice(), row, &after, lower, words);
    Ok(kept)
}

impl<'a> Placings<'a> {
    /// Prepares the placings of a set of orders, which have no cycle, from their closure.
    pub fn build(
        alloc: Global,
        set: &'a OrderSet,
        closure: &'a Closure,
    ) -> Result<Placings<'a>, AllocError>
        requires closure { IsClosureOf set.now closure.now }
        requires consistent { ¬ HasCycle set.now.list }
        ensures { IfOk result (λ p. p ≡ set.now) }
    {
        set.conditions();
        let base = prepare(alloc, set, closure)?;
        let words = base.points.len().div_ceil(64);
        let boundaries = 2 * set.extents() as usize;
        let lower = lower_rows(alloc, closure, &base.points, boundaries, words)?;
        Ok(Placings {
            set,
            closure,
            base,
            words,
            lower,
        })
    }

    /// The plain placing.
    pub fn plain(&self, alloc: Global) -> Result<Placing, AllocError>
        ensures { IfOk result (λ p. p ≡ plain_placing self.now.list self.now.extents self.now.dates) }
    {
        Ok(Placing::from_vec(Vec::from_slice(alloc, &self.base.positions)?))
    }

    /// The delaying placing of the boundary x.
    pub fn delaying(&self, alloc: Global, x: Point) -> Result<Placing, AllocError>
        requires in_range { IsPoint self.now.extents (length self.now.dates) x }
        ensures { IfOk result (λ p. p ≡ delaying_placing self.now.list self.now.extents self.now.dates x) }
    {
        let base = &self.base;
        self.set.conditions();
        let row = row_from(alloc, self.closure, &base.points, x)?;
        let counts = shared_counts(alloc, &row, base.positions.len(), self.words, &self.lower)?;
        delay_from(alloc, self.set, self.closure, base, &row, &counts, x)
    }
}

/// The plain placing of a set of orders, which have no cycle, from their closure.
pub fn plain(alloc: Global, set: &OrderSet, closure: &Closure) -> Result<Placing, AllocError>
    requires closure { IsClosureOf set.now closure.now }
    requires consistent { ¬ HasCycle set.now.list }
    ensures { IfOk result (λ p. p ≡ plain_placing set.now.list set.now.extents set.now.dates) }
{
    let base = prepare(alloc, set, closure)?;
    Ok(Placing::from_vec(base.positions))
}

/// The delaying placing of the boundary x of a set of orders, which have no cycle, from their closure: for
/// a caller that asks for one or two.
pub fn delaying(
    alloc: Global,
    set: &OrderSet,
    closure: &Closure,
    x: Point,
) -> Result<Placing, AllocError>
    requires closure { IsClosureOf set.now closure.now }
    requires consistent { ¬ HasCycle set.now.list }
    requires in_range { IsPoint set.now.extents (length set.now.dates) x }
    ensures { IfOk result (λ p. p ≡ delaying_placing set.now.list set.now.extents set.now.dates x) }
{
    set.conditions();
    let base = prepare(alloc, set, closure)?;
    let row = row_from(alloc, closure, &base.points, x)?;
    let counts = count_between(alloc, closure, &base.points, base.positions.len(), &row)?;
    delay_from(alloc, set, closure, &base, &row, &counts, x)
}
