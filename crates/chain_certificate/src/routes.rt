// Routes from a source, the first chains that they hold, and the first cycle.
ghost use Rattle.std.specs.Prelude.{◌≡◌, ℕ, ◌+◌, ◌*◌, ◌<◌, ◌≤◌, ◌++◌, ◌∷◌, [], length, List, true, slice_index_or, IfOk, IfSome, IfNone};
ghost use Rattle.order_laws.specs.declared.Point.{Point};
ghost use Rattle.order_laws.specs.Chains.{IsChain, shows_strict, HasCycle};
ghost use Rattle.order_laws.specs.ChainSearch.{first_chain, first_cycle};
ghost use Rattle.order_laws.specs.FirstChains.{IsFirstChain, IsFirstCycle};
ghost use Rattle.order_laws.specs.Points.{number_of};
ghost use Rattle.order_laws.specs.Tables.{IsPoint};
ghost use Rattle.order_core.specs.Sets.{Orders};
ghost use Rattle.order_closure.specs.Closures.{IsClosureOf};
ghost use Rattle.order_closure.specs.Edges.{IsEdgesOf};
ghost use Rattle.chain_certificate.specs.Routes.{points_of, IsRoutesOf, IsPicked};
ghost use Rattle.chain_certificate.specs.Tree.{node_at, chain_of};
ghost use Rattle.chain_certificate.specs.Ends.{chain_at};

use crate::tree::{Node, read_chain, search};
use crm_outside::Items;
use order_closure::{Closure, Edges, Steps, number};
use order_core::OrderSet;
use order_laws::Point;
use std::alloc::{AllocError, Global};
use std::marker::{Brand, Model};
use std::sync::ledger::{Blank, Ledger};

/// The numbers of the orders of a chain, in its sequence.
pub type Chain = Items<u32>;

/// The first chains from a source to each point.
///
/// Contracts see the counts of extents and dates, and the tree of the search from the source.
#[derive(Drop)]
pub struct Routes {
    extents: u32,
    dates: u32,
    nodes: Vec<Node>,
    node_of: Vec<u32>,
}

impl Model for Routes {
    ghost use Rattle.std.specs.Prelude.{◌+◌, ◌*◌, ◌≤◌, ◌^◌};
    ghost use Rattle.chain_certificate.specs.Routes.{Routing, IsReadable};

    ghost Value = { Routing };

    ghost view = { λ r. record { extents = r.extents; dates = r.dates; nodes = r.nodes.items; node_of = r.node_of.items } };

    ghost invariant = { λ r. (r.extents ≤ 2 ^ 20) × (r.dates ≤ 2 ^ 20) × IsReadable (2 * r.extents + r.dates) r.nodes.items r.node_of.items };
}

/// The last order of a chain, and the node at which the chain before it ends: 0 where it is the only order.
#[derive(Clone, Copy)]
pub struct LastStep {
    pub before: u32,
    pub order: u32,
}

// Of the nodes of a target's plain and strict pair: the strict one where `strict` is set, else the lesser.
fn pick(plain: u32, shown: u32, strict: bool) -> u32
    ensures { IsPicked plain shown strict result }
{
    if strict || plain == 0 {
        shown
    } else if shown == 0 || plain <= shown {
        plain
    } else {
        shown
    }
}

// Searches with a count that nobody reads.
fn build_counted<L: Ledger>(
    alloc: Global,
    set: &OrderSet,
    edges: &Edges,
    source: Point,
    blank: Blank,
) -> Result<Routes, AllocError>
    requires name { blank.name ≡ L.name }
    requires parts { blank.parts ≡ L.parts }
    requires some { 0 < blank.parts }
    requires edges { IsEdgesOf set.now edges.now }
    requires source { IsPoint set.now.extents (length set.now.dates) source }
    ensures { IfOk result (IsRoutesOf set.now source) }
{
    let mut steps = Steps::<L>::open(blank);
    Routes::build(alloc, set, edges, source, &mut steps)
}

impl Routes {
    /// Searches the set's orders from the source along the edges of the set. `steps` counts the calls of
    /// `EdgeWalk::next`: at most two for each order and two for each point.
    pub fn build<L: Ledger>(
        alloc: Global,
        set: &OrderSet,
        edges: &Edges,
        source: Point,
        steps: &mut Steps<L>,
    ) -> Result<Routes, AllocError>
        requires edges { IsEdgesOf set.now edges.now }
        requires source { IsPoint set.now.extents (length set.now.dates) source }
        ensures routes { IfOk result (IsRoutesOf set.now source) }
        ensures bound { steps.new ≤ steps.old + (2 * length set.now.list + 2 * points_of set.now) }
    {
        set.conditions();
        let extents = set.extents();
        let dates = set.dates().len() as u32;
        let start = number(extents, dates, source);
        let (nodes, node_of) = search(alloc, set, edges, start, steps)?;
        Ok(Routes {
            extents,
            dates,
            nodes,
            node_of,
        })
    }

    /// As `build`, for a caller that counts no steps.
    pub fn build_uncounted(
        alloc: Global,
        set: &OrderSet,
        edges: &Edges,
        source: Point,
    ) -> Result<Routes, AllocError>
        requires edges { IsEdgesOf set.now edges.now }
        requires source { IsPoint set.now.extents (length set.now.dates) source }
        ensures { IfOk result (IsRoutesOf set.now source) }
    {
        build_counted::<Brand>(alloc, set, edges, source, Blank::new(1))
    }

    /// The first chain from the source to the target, of those that show `<` where `strict` is set: the
    /// one with the fewest orders, and among these the one with the least list of numbers. None where
    /// there is no such chain.
    pub fn chain(
        &self,
        alloc: Global,
        target: Point,
        strict: bool,
    ) -> Result<Option<Chain>, AllocError>
        requires { IsPoint self.now.extents self.now.dates target }
        ensures some { IfOk result (λ o. IfSome o (λ c. (set : Orders) (source : Point) → IsRoutesOf set source self.now →
            IsFirstChain set.list source target strict c)) }
        ensures none { IfOk result (λ o. IfNone o ((set : Orders) (source : Point) → IsRoutesOf set source self.now →
            (ns : List ℕ) → IsChain set.list source target ns → ¬ (strict ≡ true → shows_strict set.list ns ≡ true))) }
        ensures computed { IfOk result (λ o. (set : Orders) (source : Point) → IsRoutesOf set source self.now →
            o ≡ first_chain set.list source target strict) }
    {
        let node = self.end(target, strict);
        if node == 0 {
            return Ok(None);
        }
        let orders = read_chain(alloc, &self.nodes, node)?;
        Ok(Some(Chain::from_vec(orders)))
    }

    /// The node at which the first chain to the target ends, of those that show `<` where `strict` is set;
    /// 0 where there is no such chain.
    pub fn end(&self, target: Point, strict: bool) -> u32
        requires { IsPoint self.now.extents self.now.dates target }
        ensures within { result < length self.now.nodes }
        ensures chain { (set : Orders) (source : Point) → IsRoutesOf set source self.now →
            first_chain set.list source target strict ≡ chain_at self.now.nodes result }
    {
        self.node(target, strict)
    }

    /// The last step of the chain that ends at a node. Chains that begin alike pass the same nodes, so what is
    /// known of a node serves all chains through it.
    pub fn last_step(&self, node: u32) -> LastStep
        requires some { 0 < node }
        requires within { node < length self.now.nodes }
        ensures before { result.before ≡ (node_at self.now.nodes node).parent }
        ensures order { result.order ≡ (node_at self.now.nodes node).order }
        ensures earlier { result.before < node }
        ensures chain { chain_of self.now.nodes node ≡ chain_of self.now.nodes result.before ++ result.order ∷ [] }
    {
        let last = self.nodes[node as usize];
        LastStep {
            before: last.parent,
            order: last.order,
        }
    }

    /// How many nodes the tree of the search has.
    pub fn node_count(&self) -> usize
        ensures { result ≡ length self.now.nodes }
    {
        self.nodes.len()
    }

    // Of the nodes of the target's two pairs, the one at which the first chain ends, or 0.
    fn node(&self, target: Point, strict: bool) -> u32
        requires { IsPoint self.now.extents self.now.dates target }
        ensures within { result < length self.now.nodes }
        ensures picked { IsPicked (slice_index_or self.now.node_of (2 * number_of self.now.extents target) 0)
            (slice_index_or self.now.node_of (2 * number_of self.now.extents target + 1) 0) strict result }
    {
        let place = 2 * number(self.extents, self.dates, target) as usize;
        pick(self.node_of[place], self.node_of[place + 1], strict)
    }
}

/// The first cycle of the first point that has one, in the order of points; None where the orders of the
/// set are consistent.
pub fn cycle(
    alloc: Global,
    set: &OrderSet,
    edges: &Edges,
    closure: &Closure,
) -> Result<Option<Chain>, AllocError>
    requires edges { IsEdgesOf set.now edges.now }
    requires closure { IsClosureOf set.now closure.now }
    ensures some { IfOk result (λ o. IfSome o (IsFirstCycle set.now.list set.now.extents (length set.now.dates))) }
    ensures none { IfOk result (λ o. IfNone o (¬ HasCycle set.now.list)) }
    ensures computed { IfOk result (λ o. o ≡ first_cycle set.now.list set.now.extents (length set.now.dates)) }
{
    let Some(point) = closure.strict_loop() else {
        return Ok(None);
    };
    let routes = Routes::build_uncounted(alloc, set, edges, point)?;
    routes.chain(alloc, point, true)
}
