// Whether the orders that a triple does not make have a cycle.
ghost use Rattle.std.specs.Prelude.{◌≡◌, ◌<◌, ◌↔◌, ℕ, true, false, length, IfOk};
ghost use Rattle.order_laws.specs.Chains.{order_at};
ghost use Rattle.order_laws.specs.Closure.{has_strict_loop};
ghost use Rattle.order_closure.specs.Edges.{IsEdgesOf};
ghost use Rattle.chain_certificate.specs.Routes.{points_of};
ghost use Rattle.order_conflicts.specs.Paths.{AreLayers, IsKept, IsReturn};
ghost use Rattle.order_conflicts.specs.Suspects.{without};

use crate::layers::{is_made_by, layers};
use crate::leading::{ends_of, leads_back};
use order_closure::{Edges, Steps};
use order_core::OrderSet;
use std::alloc::{AllocError, Global};
use std::marker::Brand;
use std::sync::ledger::{Blank, Ledger};

// Whether the ends of an order have one layer.
fn is_level(set: &OrderSet, layers: &[u32], triple: u32, n: usize) -> bool
    requires layers { AreLayers set.now triple (points_of set.now) layers.now }
    requires n { n < length set.now.list }
    ensures { result ≡ false → ¬ IsReturn set.now triple n }
{
    let ends = ends_of(set, n);
    layers[ends.low as usize] == layers[ends.high as usize]
}

// Whether an order may be one of a cycle: it is strict, the triple does not make it, and its ends have one layer.
fn may_return(set: &OrderSet, layers: &[u32], triple: u32, n: usize) -> bool
    requires layers { AreLayers set.now triple (points_of set.now) layers.now }
    requires n { n < length set.now.list }
    ensures may { result ≡ true → IsKept set.now triple n × ((order_at set.now.list n).strict ≡ true) }
    ensures never { result ≡ false → ¬ IsReturn set.now triple n }
{
    let order = set.orders().as_slice()[n];
    order.strict && !is_made_by(order, triple) && is_level(set, layers, triple, n)
}

// Whether some strict order that the triple does not make has a way back.
fn find_return<L: Ledger>(
    alloc: Global,
    set: &OrderSet,
    edges: &Edges,
    triple: u32,
    blank: Blank,
) -> Result<bool, AllocError>
    requires name { blank.name ≡ L.name }
    requires parts { blank.parts ≡ L.parts }
    requires some { 0 < blank.parts }
    requires edges { IsEdgesOf set.now edges.now }
    ensures { IfOk result (λ b. (b ≡ true) ↔ ((n : ℕ) × IsReturn set.now triple n)) }
{
    let mut steps = Steps::<L>::open(blank);
    let layers = layers(alloc, set, edges, triple, &mut steps)?;
    for n in 0..set.orders().len() {
        if may_return(set, layers.as_slice(), triple, n)
            && leads_back(alloc, set, edges, triple, ends_of(set, n), &mut steps)?
        {
            return Ok(true);
        }
    }
    Ok(false)
}

/// Whether the orders that the triple does not make have a cycle.
pub fn has_cycle_without(
    alloc: Global,
    set: &OrderSet,
    edges: &Edges,
    triple: u32,
) -> Result<bool, AllocError>
    requires { IsEdgesOf set.now edges.now }
    ensures { IfOk result (λ b. b ≡ has_strict_loop (without triple set.now.list) set.now.extents (length set.now.dates)) }
{
    set.conditions();
    find_return::<Brand>(alloc, set, edges, triple, Blank::new(1))
}
