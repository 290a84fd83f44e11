// Suspects.
ghost use Rattle.std.specs.Prelude.{◌≡◌, ◌<◌, ◌≤◌, ◌^◌, ◌||◌, ℕ, false, map, max, length, slice_index_or, IfOk};
ghost use Rattle.std.specs.List.{All, filter, range_with_len};
ghost use Rattle.order_conflicts.specs.Numbers.{numbers_where};
ghost use Rattle.order_conflicts.specs.Suspects as spec;
ghost use Rattle.order_conflicts.specs.Suspects.{above, is_from, triple_bound, suspect_of, suspects_in, is_suspect};
ghost use Rattle.order_conflicts.specs.Rings.{IsCycle, is_on, AreMarked};

use crate::layers::is_made_by;
use crate::numbers::push_where;
use crate::without::has_cycle_without;
use chain_certificate::Chain;
use crm_outside::{Items, Numbers};
use order_analysis::Analysis;
use order_laws::{By, Order};
use std::alloc::{AllocError, Global};

/// A triple without whose orders the others have no cycle, with the numbers of its orders, ascending.
#[derive(Drop)]
pub struct Suspect {
    pub triple: u32,
    pub orders: Numbers,
}

// A number above that of the triple that makes an order; 0 where none does.
fn above(by: By) -> usize
    ensures value { result ≡ above by }
    ensures few { result ≤ 2 ^ 32 }
{
    match by {
        By::Triple(t) => t as usize + 1,
        By::Extent(_) => 0,
        By::Dates => 0,
    }
}

fn greater(a: usize, b: usize) -> usize
    ensures { result ≡ max a b }
{
    if a < b { b } else { a }
}

// A number above those of all triples that make orders.
fn triple_bound(orders: &[Order]) -> usize
    ensures value { result ≡ triple_bound orders.now }
    ensures few { result ≤ 2 ^ 32 }
{
    let mut bound = 0;
    let mut n = orders.len();
    while n > 0 {
        n -= 1;
        bound = greater(above(orders[n].by), bound);
    }
    bound
}

// Marks the triple that makes an order.
fn mark(on: &mut [bool], by: By)
    requires { above by ≤ length on.old }
    ensures size { length on.new ≡ length on.old }
    ensures marks { (t : ℕ) → t < length on.old → slice_index_or on.new t false ≡ (slice_index_or on.old t false || is_from t by) }
{
    if let By::Triple(t) = by {
        on[t as usize] = true;
    }
}

// Marks the triples that make orders of a chain.
fn mark_triples(alloc: Global, orders: &[Order], chain: &[u32]) -> Result<Vec<bool>, AllocError>
    requires { All (λ n. n < length orders.now) chain.now }
    ensures marked { IfOk result (λ v. AreMarked orders.now chain.now v.items (triple_bound orders.now)) }
    ensures few { IfOk result (λ v. length v.items ≤ 2 ^ 32) }
{
    let mut kept = vec![in alloc; false; triple_bound(orders)]?;
    let on = kept.as_mut_slice();
    for k in 0..chain.len() {
        mark(on, orders[chain[k] as usize].by);
    }
    Ok(kept)
}

// The numbers of the orders that a triple makes.
fn numbers_by(alloc: Global, orders: &[Order], triple: u32) -> Result<Vec<u32>, AllocError>
    requires { length orders.now < 2 ^ 32 }
    ensures { IfOk result (λ v. v.items ≡ numbers_where (spec.is_made_by triple) orders.now) }
{
    let mut numbers = Vec::new(alloc);
    for n in 0..orders.len() {
        push_where(&mut numbers, n as u32, is_made_by(orders[n], triple))?;
    }
    Ok(numbers)
}

// A suspect with its orders.
fn suspect_of(alloc: Global, orders: &[Order], triple: u32) -> Result<Suspect, AllocError>
    requires { length orders.now < 2 ^ 32 }
    ensures { IfOk result (λ s. s ≡ suspect_of orders.now triple) }
{
    let numbers = numbers_by(alloc, orders, triple)?;
    Ok(Suspect {
        triple,
        orders: Numbers::from_vec(numbers),
    })
}

// The suspects with their orders.
fn suspects_of(alloc: Global, orders: &[Order], triples: &[u32]) -> Result<Vec<Suspect>, AllocError>
    requires { length orders.now < 2 ^ 32 }
    ensures { IfOk result (λ v. v.items ≡ map (suspect_of orders.now) triples.now) }
{
    let mut suspects = Vec::new(alloc);
    for k in 0..triples.len() {
        suspects.push(suspect_of(alloc, orders, triples[k])?)?;
    }
    Ok(suspects)
}

// Whether a triple is a suspect, given whether it makes an order of the cycle.
fn is_suspect(
    analysis: &Analysis,
    cycle: &[u32],
    marked: bool,
    triple: u32,
) -> Result<bool, AllocError>
    requires cycle { IsCycle analysis.now.set.list cycle.now }
    requires marked { marked ≡ is_on analysis.now.set.list triple cycle.now }
    ensures { IfOk result (λ b. b ≡ is_suspect analysis.now.set triple) }
{
    let set = analysis.set();
    set.conditions();
    let _cycle = cycle;
    if !marked {
        return Ok(false);
    }
    let other = has_cycle_without(analysis.alloc(), set, analysis.edges(), triple)?;
    Ok(!other)
}

// The triples that are suspects, ascending; those of the cycle are marked.
fn suspect_triples(
    analysis: &Analysis,
    cycle: &[u32],
    marked: &[bool],
) -> Result<Vec<u32>, AllocError>
    requires cycle { IsCycle analysis.now.set.list cycle.now }
    requires marked { AreMarked analysis.now.set.list cycle.now marked.now (triple_bound analysis.now.set.list) }
    requires few { length marked.now ≤ 2 ^ 32 }
    ensures { IfOk result (λ v. v.items ≡ filter (is_suspect analysis.now.set) (range_with_len 0 (triple_bound analysis.now.set.list))) }
{
    let mut triples = Vec::new(analysis.alloc());
    for t in 0..marked.len() {
        let passes = is_suspect(analysis, cycle, marked[t], t as u32)?;
        push_where(&mut triples, t as u32, passes)?;
    }
    Ok(triples)
}

/// The suspects of orders with a cycle, by triple. A suspect makes an order of each cycle, so only the triples of the
/// given one are tried.
pub fn find_suspects(analysis: &Analysis, cycle: &Chain) -> Result<Items<Suspect>, AllocError>
    requires { IsCycle analysis.now.set.list cycle.now }
    ensures { IfOk result (λ v. v ≡ suspects_in analysis.now.set) }
{
    let set = analysis.set();
    set.conditions();
    let orders = set.orders().as_slice();
    let marked = mark_triples(analysis.alloc(), orders, cycle.as_slice())?;
    let triples = suspect_triples(analysis, cycle.as_slice(), marked.as_slice())?;
    let suspects = suspects_of(analysis.alloc(), orders, triples.as_slice())?;
    Ok(Items::from_vec(suspects))
}
