// A set of orders with what is worked out of it.
ghost use Rattle.std.specs.Prelude.{◌≡◌, ◌<◌, ◌≤◌, ◌^◌, length, slice_get, option_map, IfOk, IfSome, IfNone};
ghost use Rattle.order_laws.specs.Chains.{HasCycle};
ghost use Rattle.order_laws.specs.Closure.{reach_between};
ghost use Rattle.order_laws.specs.Tables.{IsPoint};
ghost use Rattle.order_core.specs.Sets.{AreExtents};
ghost use Rattle.order_closure.specs.Closures.{IsClosureOf};
ghost use Rattle.order_closure.specs.Edges.{IsEdgesOf};
ghost use Rattle.chain_certificate.specs.Routes.{IsRoutesOf};
ghost use Rattle.order_analysis.specs.Subjects.{cycle_of};

use chain_certificate::{Chain, Routes, cycle};
use crm_outside::Numbers;
use order_closure::{Closure, Edges, Reach};
use order_core::{OrderSet, Point};
use placing_witness::Placings;
use std::alloc::{AllocError, Global};
use std::marker::Model;

/// A set of orders with its edges, its closure and its first cycle, and the numbers of the periods among
/// its extents.
///
/// Contracts see the set and the periods.
#[derive(Drop)]
pub struct Analysis<'a> {
    alloc: Global,
    set: &'a OrderSet,
    periods: &'a Numbers,
    edges: Edges,
    closure: Closure,
    cycle: Option<Chain>,
}

impl<'a> Model for Analysis<'a> {
    ghost use Rattle.order_analysis.specs.Subjects.{Subject, IsAnalysis};

    ghost Value = { Subject };

    ghost view = { λ a. record { set = a.set.now; periods = a.periods.now } };

    ghost invariant = { λ a. IsAnalysis a.set.now a.periods.now a.edges a.closure a.cycle };
}

impl<'a> Analysis<'a> {
    /// Works out the orders of the set.
    pub fn build(
        alloc: Global,
        set: &'a OrderSet,
        periods: &'a Numbers,
    ) -> Result<Analysis<'a>, AllocError>
        requires within { AreExtents set.now.extents periods.now }
        requires few { length periods.now ≤ 2 ^ 20 }
        ensures { IfOk result (λ a. a ≡ record { set = set.now; periods = periods.now }) }
    {
        let (edges, closure) = Closure::with_edges(alloc, set)?;
        let first = cycle(alloc, set, &edges, &closure)?;
        Ok(Analysis {
            alloc,
            set,
            periods,
            edges,
            closure,
            cycle: first,
        })
    }

    /// The allocator that it was built with.
    pub fn alloc(&self) -> Global {
        self.alloc
    }

    /// The set of orders.
    pub fn set(&self) -> &OrderSet
        ensures { result.now ≡ self.now.set }
    {
        self.set
    }

    /// The numbers of the periods.
    pub fn periods(&self) -> &Numbers
        ensures periods { result.now ≡ self.now.periods }
        ensures within { AreExtents self.now.set.extents self.now.periods }
    {
        self.periods
    }

    /// The edges of the set.
    pub fn edges(&self) -> &Edges
        ensures { IsEdgesOf self.now.set result.now }
    {
        &self.edges
    }

    /// The closure of the set.
    pub fn closure(&self) -> &Closure
        ensures { IsClosureOf self.now.set result.now }
    {
        &self.closure
    }

    /// The first cycle of the first point that has one; None where the orders are consistent.
    pub fn cycle(&self) -> Option<&Chain>
        ensures cycle { option_map (λ c. c.now) result ≡ cycle_of self.now.set }
        ensures none { IfNone result (¬ HasCycle self.now.set.list) }
    {
        match &self.cycle {
            Some(chain) => Some(chain),
            None => None,
        }
    }

    /// What follows from a point to another.
    pub fn between(&self, x: Point, y: Point) -> Reach
        requires x_in_range { IsPoint self.now.set.extents (length self.now.set.dates) x }
        requires y_in_range { IsPoint self.now.set.extents (length self.now.set.dates) y }
        ensures { result ≡ reach_between self.now.set.list x y }
    {
        self.closure.between(x, y)
    }

    /// The first chains from a point to each.
    pub fn routes(&self, source: Point) -> Result<Routes, AllocError>
        requires { IsPoint self.now.set.extents (length self.now.set.dates) source }
        ensures { IfOk result (IsRoutesOf self.now.set source) }
    {
        Routes::build_uncounted(self.alloc, self.set, &self.edges, source)
    }

    /// The placings of the set.
    pub fn placings(&self) -> Result<Placings<'_>, AllocError>
        requires { ¬ HasCycle self.now.set.list }
        ensures { IfOk result (λ p. p ≡ self.now.set) }
    {
        Placings::build(self.alloc, self.set, &self.closure)
    }

    /// The count of periods.
    pub fn len(&self) -> usize
        ensures count { result ≡ length self.now.periods }
        ensures few { result ≤ 2 ^ 20 }
    {
        self.periods.len()
    }

    /// The number of a period.
    pub fn period(&self, i: usize) -> Option<u32>
        ensures period { result ≡ slice_get self.now.periods i }
        ensures within { IfSome result (λ k. k < self.now.set.extents) }
        ensures few { IfSome result (λ k. i < 2 ^ 20) }
    {
        self.periods.get(i).copied()
    }
}
