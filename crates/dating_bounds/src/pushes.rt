// The plain placing of a set with one more order between a boundary and a date.
ghost use Rattle.std.specs.Prelude.{◌≡◌, ◌<◌, ◌≤◌, ◌+◌, ◌*◌, ◌^◌, ◌∷◌, [], suc, not, leb, length, map, IfOk};
ghost use Rattle.order_laws.specs.Chains.{HasCycle};
ghost use Rattle.order_laws.specs.Closure.{reach_between};
ghost use Rattle.order_laws.specs.Tables.{IsPoint, IsOrderSet, floor_of, built_at};
ghost use Rattle.order_closure.specs.Closures.{IsClosureOf};
ghost use Rattle.dating_bounds.specs.Around.{IsBoundary};
ghost use Rattle.dating_bounds.specs.Moment.{plain_with};
ghost use Rattle.dating_bounds.specs.Pushed as spec;

use crate::counting::{Rows, count_passed};
use crate::following::follows;
use order_closure::{Closure, Columns};
use order_core::{Order, OrderSet, Placing, Point};
use order_laws::Position;
use placing_witness::plain;
use std::alloc::{AllocError, Global};
use std::marker::Model;

/// What the plain placings of a set with one more order share, made once for all of them, in the time of the closure and of the
/// plain placing.
///
/// Contracts see the set.
#[derive(Drop)]
pub struct Shares<'a> {
    set: &'a OrderSet,
    closure: &'a Closure,
    columns: Columns,
    plain: Placing,
}

impl<'a> Model for Shares<'a> {
    ghost use Rattle.order_core.specs.Sets.{Orders};
    ghost use Rattle.dating_bounds.specs.Pushed.{AreShares};

    ghost Value = { Orders };

    ghost view = { λ s. s.set.now };

    ghost invariant = { λ s. AreShares s.set.now s.closure.now s.columns s.plain };
}

impl<'a> Shares<'a> {
    /// Prepares the placings of a set of orders, which have no cycle, from their closure.
    pub fn build(
        alloc: Global,
        set: &'a OrderSet,
        closure: &'a Closure,
    ) -> Result<Shares<'a>, AllocError>
        requires closure { IsClosureOf set.now closure.now }
        requires consistent { ¬ HasCycle set.now.list }
        ensures { IfOk result (λ s. s ≡ set.now) }
    {
        let columns = Columns::build(alloc, set)?;
        let plain = plain(alloc, set, closure)?;
        Ok(Shares {
            set,
            closure,
            columns,
            plain,
        })
    }

    /// Does nothing; its contract says what the set keeps.
    pub fn conditions(&self)
        ensures orders { IsOrderSet self.now.list self.now.extents self.now.dates }
        ensures consistent { ¬ HasCycle self.now.list }
    {
        self.set.conditions();
    }

    /// Whether `x <= y` follows, or `x < y` where that is asked.
    pub fn follows(&self, x: Point, y: Point, strict: bool) -> bool
        requires x { IsPoint self.now.extents (length self.now.dates) x }
        requires y { IsPoint self.now.extents (length self.now.dates) y }
        ensures { result ≡ spec.is_told self.now.list x y strict }
    {
        follows(self.closure, x, y, strict)
    }

    // Whether p is known to be at or after a later date.
    fn is_later(&self, date: u32, p: Point) -> bool
        requires date { date < length self.now.dates }
        requires p { IsPoint self.now.extents (length self.now.dates) p }
        ensures { result ≡ not (leb (floor_of (reach_between self.now.list) (length self.now.dates) p) (suc date)) }
    {
        self.set.conditions();
        date + 1 < self.set.dates().len() as u32 && self.follows(Point::Date(date + 1), p, false)
    }

    // Whether p is behind the order, and gets the date's instant.
    fn is_pushed(&self, date: u32, order: &Order, p: Point) -> bool
        requires date { date < length self.now.dates }
        requires high { IsPoint self.now.extents (length self.now.dates) order.now.high }
        requires p { IsPoint self.now.extents (length self.now.dates) p }
        ensures { result ≡ spec.is_pushed (reach_between self.now.list) (length self.now.dates) date order.now p }
    {
        self.follows(order.high, p, !order.strict) && !self.is_later(date, p)
    }

    // The count of points at the date's instant that are before p, which is pushed.
    fn passed_rank(&self, date: u32, order: &Order, p: Point) -> u32
        requires date { date < length self.now.dates }
        requires low { IsPoint self.now.extents (length self.now.dates) order.now.low }
        requires high { IsPoint self.now.extents (length self.now.dates) order.now.high }
        requires p { IsPoint self.now.extents (length self.now.dates) p }
        ensures { result ≡ spec.passed_rank self.now.extents (length self.now.dates) (reach_between self.now.list) date order.now p }
    {
        self.set.conditions();
        let rows = Rows {
            level: self.closure.le_row(Point::Date(date)),
            below: self.columns.le_column(order.low),
            ahead: self.closure.le_row(order.high),
            before: self.columns.lt_column(p),
        };
        let points = 2 * self.set.extents() as usize + self.set.dates().len();
        count_passed(&rows, points)
    }

    // Where the plain placing has a boundary.
    fn plain_at(&self, p: Point) -> Position
        requires { IsBoundary self.now.extents p }
        ensures { result ≡ built_at self.now.extents self.now.dates (reach_between self.now.list) p }
    {
        self.set.conditions();
        let positions = self.plain.as_slice();
        match p {
            Point::Start(k) => positions[2 * k as usize],
            Point::End(k) => positions[2 * k as usize + 1],
            Point::Date(_) => unreachable!(),
        }
    }

    fn position(&self, date: u32, order: &Order, p: Point) -> Position
        requires date { date < length self.now.dates }
        requires low { IsPoint self.now.extents (length self.now.dates) order.now.low }
        requires high { IsPoint self.now.extents (length self.now.dates) order.now.high }
        requires boundary { IsBoundary self.now.extents p }
        ensures { result ≡ spec.pushed_at self.now.extents self.now.dates (reach_between self.now.list) date order.now p }
    {
        if !self.is_pushed(date, order, p) {
            return self.plain_at(p);
        }
        Position {
            instant: self.set.dates().as_slice()[date as usize],
            rank: self.passed_rank(date, order, p),
        }
    }

    fn positions(
        &self,
        alloc: Global,
        date: u32,
        order: &Order,
    ) -> Result<Vec<Position>, AllocError>
        requires date { date < length self.now.dates }
        requires low { IsPoint self.now.extents (length self.now.dates) order.now.low }
        requires high { IsPoint self.now.extents (length self.now.dates) order.now.high }
        ensures { IfOk result (λ v. v.items ≡ spec.pushed self.now.extents self.now.dates (reach_between self.now.list) date order.now) }
    {
        self.set.conditions();
        let extents = self.set.extents();
        let mut positions = Vec::with_capacity(alloc, 2 * extents as usize)?;
        for k in 0..extents {
            positions.push(self.position(date, order, Point::Start(k)))?;
            positions.push(self.position(date, order, Point::End(k)))?;
        }
        Ok(positions)
    }

    /// The plain placing with one more order: that a boundary, which need not be at or before a date, is after it, or that one
    /// which need not be after a date is at or before it.
    pub fn with_order(&self, alloc: Global, date: u32, order: &Order) -> Result<Placing, AllocError>
        requires date { date < length self.now.dates }
        requires low { IsPoint self.now.extents (length self.now.dates) order.now.low }
        requires high { IsPoint self.now.extents (length self.now.dates) order.now.high }
        requires push { spec.IsPush (reach_between self.now.list) date order.now }
        ensures { IfOk result (λ p. p ≡ plain_with self.now (order.now ∷ [])) }
    {
        self.conditions();
        Ok(Placing::from_vec(self.positions(alloc, date, order)?))
    }
}
