// Whether some path leads from a point to another.
ghost use Rattle.std.specs.Prelude.{◌≡◌, ◌<◌, ◌≤◌, ◌↔◌, ◌++◌, ◌∷◌, [], ℕ, true, length, slice_set, IfOk, OnOk};
ghost use Rattle.order_closure.specs.Edges.{IsEdgesOf};
ghost use Rattle.chain_certificate.specs.Routes.{points_of};
ghost use Rattle.order_core.specs.Sets.{Orders};
ghost use Rattle.order_laws.specs.Chains.{order_at};
ghost use Rattle.order_conflicts.specs.Suspects as spec;
ghost use Rattle.order_conflicts.specs.Paths.{IsKept, Leads, high_of, low_of};
ghost use Rattle.order_conflicts.specs.Found.{IsFound, IsExpanding, IsSearching, Grows, is_seen, room};

use crate::layers::is_made_by;
use order_closure::{Edges, Steps, number, point_at};
use order_core::OrderSet;
use std::alloc::{AllocError, Global};
use std::sync::ledger::Ledger;

/// The points that a search has reached.
#[derive(Drop)]
pub struct Found {
    /// Whether each point is reached, by number.
    pub seen: Vec<bool>,
    /// The numbers of the points, as they were reached.
    pub reached: Vec<u32>,
}

// Adds a point.
fn add(found: &mut Found, point: u32) -> Result<(), AllocError>
    requires { point < length found.old.seen.items }
    ensures seen { OnOk result (found.new.seen.items ≡ slice_set found.old.seen.items point true) }
    ensures reached { OnOk result (found.new.reached.items ≡ found.old.reached.items ++ point ∷ []) }
{
    found.seen[point as usize] = true;
    found.reached.push(point)?;
    Ok(())
}

// Whether a point is kept.
fn has(found: &Found, point: u32) -> bool
    requires { point < length found.now.seen.items }
    ensures { result ≡ is_seen found.now point }
{
    found.seen[point as usize]
}

// Keeps a point that is led to, where it is not kept yet.
fn keep(found: &mut Found, point: u32) -> Result<(), AllocError>
    requires { point < length found.old.seen.items }
    ensures size { OnOk result (length found.new.seen.items ≡ length found.old.seen.items) }
    ensures grows { OnOk result (Grows found.old found.new) }
    ensures seen { OnOk result (is_seen found.new point ≡ true) }
    ensures room { OnOk result (room found.new ≤ room found.old) }
    ensures found { OnOk result ((set : Orders) (t points from : ℕ) → IsFound set t points from found.old → Leads set t from point →
        IsFound set t points from found.new) }
{
    if has(found, point) {
        return Ok(());
    }
    add(found, point)
}

// Keeps the point to which an order leads that the triple does not make.
fn step(set: &OrderSet, triple: u32, found: &mut Found, n: u32) -> Result<(), AllocError>
    requires kept { IsKept set.now triple n }
    requires size { length found.old.seen.items ≡ points_of set.now }
    ensures grows { OnOk result (Grows found.old found.new) }
    ensures size { OnOk result (length found.new.seen.items ≡ points_of set.now) }
    ensures seen { OnOk result (is_seen found.new (high_of set.now n) ≡ true) }
    ensures room { OnOk result (room found.new ≤ room found.old) }
    ensures found { OnOk result ((from : ℕ) → IsFound set.now triple (points_of set.now) from found.old → Leads set.now triple from (low_of set.now n) →
        IsFound set.now triple (points_of set.now) from found.new) }
{
    let _triple = triple;
    let ends = ends_of(set, n as usize);
    keep(found, ends.high)
}

// Whether the triple makes an order of the set.
fn makes(set: &OrderSet, triple: u32, n: u32) -> bool
    requires { n < length set.now.list }
    ensures { result ≡ spec.is_made_by triple (order_at set.now.list n) }
{
    is_made_by(set.orders().as_slice()[n as usize], triple)
}

// Keeps the point to which an order leads, where the triple does not make the order.
fn take(set: &OrderSet, triple: u32, found: &mut Found, n: u32) -> Result<(), AllocError>
    requires n { n < length set.now.list }
    requires size { length found.old.seen.items ≡ points_of set.now }
    ensures grows { OnOk result (Grows found.old found.new) }
    ensures size { OnOk result (length found.new.seen.items ≡ points_of set.now) }
    ensures seen { OnOk result (IsKept set.now triple n → is_seen found.new (high_of set.now n) ≡ true) }
    ensures room { OnOk result (room found.new ≤ room found.old) }
    ensures found { OnOk result ((from : ℕ) → IsFound set.now triple (points_of set.now) from found.old → Leads set.now triple from (low_of set.now n) →
        IsFound set.now triple (points_of set.now) from found.new) }
{
    if makes(set, triple, n) {
        return Ok(());
    }
    step(set, triple, found, n)
}

// Keeps the points to which the orders of a point lead.
fn expand<L: Ledger>(
    set: &OrderSet,
    edges: &Edges,
    triple: u32,
    found: &mut Found,
    point: u32,
    steps: &mut Steps<L>,
) -> Result<(), AllocError>
    requires edges { IsEdgesOf set.now edges.now }
    requires size { length found.old.seen.items ≡ points_of set.now }
    requires point { point < points_of set.now }
    ensures { OnOk result (IsExpanding set.now triple (points_of set.now) point found.old found.new (length set.now.list)) }
{
    set.conditions();
    let mut walk = edges.at(point_at(set.extents(), set.dates().len() as u32, point));
    while let Some(n) = walk.next(edges, steps) {
        take(set, triple, found, n)?;
    }
    Ok(())
}

// A search that has reached its first point.
fn start(alloc: Global, set: &OrderSet, from: u32) -> Result<Found, AllocError>
    requires { from < points_of set.now }
    ensures { IfOk result (λ f. (t : ℕ) → IsSearching set.now t (points_of set.now) from f 0) }
{
    set.conditions();
    let points = 2 * set.extents() as usize + set.dates().len();
    let seen = vec![in alloc; false; points]?;
    let mut found = Found {
        seen,
        reached: Vec::new(alloc),
    };
    keep(&mut found, from)?;
    Ok(found)
}

// The points to which orders that the triple does not make lead from a point.
fn search<L: Ledger>(
    alloc: Global,
    set: &OrderSet,
    edges: &Edges,
    triple: u32,
    from: u32,
    steps: &mut Steps<L>,
) -> Result<Found, AllocError>
    requires edges { IsEdgesOf set.now edges.now }
    requires from { from < points_of set.now }
    ensures { IfOk result (λ f. IsSearching set.now triple (points_of set.now) from f (length f.reached.items)) }
{
    let mut found = start(alloc, set, from)?;
    let mut at = 0;
    while at < found.reached.len() {
        let point = found.reached[at];
        expand(set, edges, triple, &mut found, point, steps)?;
        at += 1;
    }
    Ok(found)
}

/// The ends of an order, by number.
#[derive(Clone, Copy)]
pub struct Ends {
    pub low: u32,
    pub high: u32,
}

/// The ends of an order of the set.
pub fn ends_of(set: &OrderSet, n: usize) -> Ends
    requires { n < length set.now.list }
    ensures low { result.low ≡ low_of set.now n }
    ensures high { result.high ≡ high_of set.now n }
    ensures low_in_range { result.low < points_of set.now }
    ensures high_in_range { result.high < points_of set.now }
{
    set.conditions();
    let extents = set.extents();
    let dates = set.dates().len() as u32;
    let order = set.orders().as_slice()[n];
    let low = number(extents, dates, order.low);
    let high = number(extents, dates, order.high);
    Ends { low, high }
}

/// Whether orders that the triple does not make lead from the high end to the low end, or the two are one.
pub fn leads_back<L: Ledger>(
    alloc: Global,
    set: &OrderSet,
    edges: &Edges,
    triple: u32,
    ends: Ends,
    steps: &mut Steps<L>,
) -> Result<bool, AllocError>
    requires edges { IsEdgesOf set.now edges.now }
    requires low { ends.low < points_of set.now }
    requires high { ends.high < points_of set.now }
    ensures { IfOk result (λ b. (b ≡ true) ↔ Leads set.now triple ends.high ends.low) }
{
    let found = search(alloc, set, edges, triple, ends.high, steps)?;
    Ok(has(&found, ends.low))
}
