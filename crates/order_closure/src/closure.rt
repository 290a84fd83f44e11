// The rows of what follows from each point.
ghost use Rattle.std.specs.Prelude.{◌≡◌, ℕ, ◌+◌, ◌*◌, ◌^◌, ◌<◌, ◌≤◌, ◌↔◌, length, IfOk, IfSome, IfNone, true, false, not};
ghost use Rattle.order_laws.specs.declared.Point.{Point};
ghost use Rattle.order_laws.specs.declared.Reach.TheVariants.{Lt};
ghost use Rattle.order_laws.specs.Chains.{HasCycle};
ghost use Rattle.order_laws.specs.Closure.{reach_between, first_strict_loop, has_strict_loop};
ghost use Rattle.order_laws.specs.FirstChains.{IsFirstLoop};
ghost use Rattle.order_laws.specs.Points.{number_of};
ghost use Rattle.order_laws.specs.Tables.{IsPoint};
ghost use Rattle.order_core.specs.Sets.{Orders};
ghost use Rattle.order_closure.specs.Closures.{IsClosureOf, IsReach, between, IsRowOf, IsRowFrom, IsColumnOf, IsColumnTo};
ghost use Rattle.order_closure.specs.Edges.{IsEdgesOf};
ghost use Rattle.order_closure.specs.Links.{IsLinked};
ghost use Rattle.order_closure.specs.Rows.{row_width, row_of};
ghost use Rattle.order_closure.specs.Filling.{IsFilled};

use crate::edges::Edges;
use crate::filling::{begin, column, fill};
use crate::links::{Links, link_orders};
use crate::numbers::{number, point_at};
use crate::rows::{has_bit, row_at, row_of, row_width};
use crate::turns::turns;
use order_core::OrderSet;
use order_laws::{Point, Reach};
use std::alloc::{AllocError, Global};
use std::marker::Model;

// The rows of what follows from each point.
pub fn close(alloc: Global, points: u32, edges: &Links) -> Result<Vec<u64>, AllocError>
    requires few { points ≤ 2 ^ 22 }
    requires linked { IsLinked points edges.now.links.items edges.now.first.items }
    ensures { IfOk result (λ words. IsFilled points edges.now.links.items words.items) }
{
    let turns = turns(alloc, points, edges)?;
    let mut words = vec![in alloc; 0; 2 * points as usize * row_width(points)]?;
    let rows = words.as_mut_slice();
    begin(rows, points);
    fill(rows, points, edges, turns.as_slice());
    Ok(words)
}

/// The closure of a set of orders: what follows between any two points, in two bits a pair of points.
///
/// Contracts see the counts of extents and dates, and the words of the rows of each point.
#[derive(Drop)]
pub struct Closure {
    extents: u32,
    dates: u32,
    words: Vec<u64>,
}

impl Model for Closure {
    ghost use Rattle.std.specs.Prelude.{◌≡◌, ◌+◌, ◌*◌, ◌≤◌, ◌^◌, length};
    ghost use Rattle.order_closure.specs.Closures.{Closed};
    ghost use Rattle.order_closure.specs.Rows.{row_width};

    ghost Value = { Closed };

    ghost view = { λ c. record { extents = c.extents; dates = c.dates; words = c.words.items } };

    ghost invariant = { λ c. (c.extents ≤ 2 ^ 20) × (c.dates ≤ 2 ^ 20)
        × (length c.words.items ≡ 2 * (2 * c.extents + c.dates) * row_width (2 * c.extents + c.dates)) };
}

impl Closure {
    /// Closes the orders of the set.
    pub fn build(alloc: Global, set: &OrderSet) -> Result<Closure, AllocError>
        ensures { IfOk result (IsClosureOf set.now) }
    {
        let (_edges, closure) = Closure::with_edges(alloc, set)?;
        Ok(closure)
    }

    /// Links the orders of the set, and closes them along the links.
    pub fn with_edges(alloc: Global, set: &OrderSet) -> Result<(Edges, Closure), AllocError>
        ensures edges { IfOk result (λ r. IsEdgesOf set.now r.0) }
        ensures closure { IfOk result (λ r. IsClosureOf set.now r.1) }
    {
        set.conditions();
        let extents = set.extents();
        let dates = set.dates().len() as u32;
        let linked = link_orders(alloc, extents, dates, set.orders().as_slice())?;
        let words = close(alloc, 2 * extents + dates, &linked)?;
        let closure = Closure {
            extents,
            dates,
            words,
        };
        let edges = Edges {
            extents,
            dates,
            linked,
        };
        Ok((edges, closure))
    }

    /// What follows from x to y: Lt where `x < y` does, else Le where `x <= y` does, else None.
    pub fn between(&self, x: Point, y: Point) -> Reach
        requires x_in_range { IsPoint self.now.extents self.now.dates x }
        requires y_in_range { IsPoint self.now.extents self.now.dates y }
        ensures entry { result ≡ between self.now x y }
        ensures follows { (set : Orders) → IsClosureOf set self.now → IsReach set.list x y result }
        ensures computed { (set : Orders) → IsClosureOf set self.now → result ≡ reach_between set.list x y }
    {
        self.entry(x, y)
    }

    // What the rows of x say of y.
    fn entry(&self, x: Point, y: Point) -> Reach
        requires x_in_range { IsPoint self.now.extents self.now.dates x }
        requires y_in_range { IsPoint self.now.extents self.now.dates y }
        ensures { result ≡ between self.now x y }
    {
        let points = 2 * self.extents + self.dates;
        let row = number(self.extents, self.dates, x);
        let k = number(self.extents, self.dates, y) as usize;
        if has_bit(self.words.as_slice(), row_of(points, row, true), k) {
            Reach::Lt
        } else if has_bit(self.words.as_slice(), row_of(points, row, false), k) {
            Reach::Le
        } else {
            Reach::None
        }
    }

    /// How many words a row has, with a bit for each point.
    pub fn row_words(&self) -> usize
        ensures { result ≡ row_width (2 * self.now.extents + self.now.dates) }
    {
        row_width(2 * self.extents + self.dates)
    }

    // The row of what follows from x, weakly or strictly.
    fn row(&self, x: Point, strict: bool) -> &[u64]
        requires { IsPoint self.now.extents self.now.dates x }
        ensures size { length result.now ≡ row_width (2 * self.now.extents + self.now.dates) }
        ensures bits { IsRowOf self.now x strict result.now }
    {
        let points = 2 * self.extents + self.dates;
        let first = row_of(points, number(self.extents, self.dates, x), strict);
        row_at(self.words.as_slice(), first, row_width(points))
    }

    /// The row of `x <= y`: bit k says whether it follows for the point y of number k.
    pub fn le_row(&self, x: Point) -> &[u64]
        requires { IsPoint self.now.extents self.now.dates x }
        ensures size { length result.now ≡ row_width (2 * self.now.extents + self.now.dates) }
        ensures bits { IsRowOf self.now x false result.now }
        ensures follows { (set : Orders) → IsClosureOf set self.now → IsRowFrom set x false result.now }
    {
        self.row(x, false)
    }

    /// The row of `x < y`: bit k says whether it follows for the point y of number k.
    pub fn lt_row(&self, x: Point) -> &[u64]
        requires { IsPoint self.now.extents self.now.dates x }
        ensures size { length result.now ≡ row_width (2 * self.now.extents + self.now.dates) }
        ensures bits { IsRowOf self.now x true result.now }
        ensures follows { (set : Orders) → IsClosureOf set self.now → IsRowFrom set x true result.now }
    {
        self.row(x, true)
    }

    // The column of what y follows from, weakly or strictly.
    fn column(&self, alloc: Global, y: Point, strict: bool) -> Result<Vec<u64>, AllocError>
        requires { IsPoint self.now.extents self.now.dates y }
        ensures size { IfOk result (λ column. length column.items ≡ row_width (2 * self.now.extents + self.now.dates)) }
        ensures bits { IfOk result (λ column. IsColumnOf self.now y strict column.items) }
    {
        let points = 2 * self.extents + self.dates;
        let number = number(self.extents, self.dates, y);
        column(alloc, self.words.as_slice(), points, number, strict)
    }

    /// The column of `x <= y`, made in the time of a point's look-up each: bit k says whether it follows
    /// for the point x of number k.
    pub fn le_column(&self, alloc: Global, y: Point) -> Result<Vec<u64>, AllocError>
        requires { IsPoint self.now.extents self.now.dates y }
        ensures size { IfOk result (λ column. length column.items ≡ row_width (2 * self.now.extents + self.now.dates)) }
        ensures bits { IfOk result (λ column. IsColumnOf self.now y false column.items) }
        ensures follows { (set : Orders) → IsClosureOf set self.now → IfOk result (λ column. IsColumnTo set y false column.items) }
    {
        self.column(alloc, y, false)
    }

    /// The column of `x < y`, made in the time of a point's look-up each: bit k says whether it follows
    /// for the point x of number k.
    pub fn lt_column(&self, alloc: Global, y: Point) -> Result<Vec<u64>, AllocError>
        requires { IsPoint self.now.extents self.now.dates y }
        ensures size { IfOk result (λ column. length column.items ≡ row_width (2 * self.now.extents + self.now.dates)) }
        ensures bits { IfOk result (λ column. IsColumnOf self.now y true column.items) }
        ensures follows { (set : Orders) → IsClosureOf set self.now → IfOk result (λ column. IsColumnTo set y true column.items) }
    {
        self.column(alloc, y, true)
    }

    // Whether a strict chain leads from the point to itself.
    fn is_looped(&self, point: Point) -> bool
        requires { IsPoint self.now.extents self.now.dates point }
        ensures { (result ≡ true) ↔ (between self.now point point ≡ Lt) }
    {
        self.between(point, point) == Reach::Lt
    }

    /// The first point that has a cycle, in the order of points: s0, e0, s1, e1 and so on, then d0, d1 and so on.
    pub fn strict_loop(&self) -> Option<Point>
        ensures some { IfSome result (λ x. (set : Orders) → IsClosureOf set self.now → IsFirstLoop set.list set.extents (length set.dates) x) }
        ensures none { IfNone result ((set : Orders) → IsClosureOf set self.now → ¬ HasCycle set.list) }
        ensures computed { (set : Orders) → IsClosureOf set self.now → result ≡ first_strict_loop set.list set.extents (length set.dates) }
    {
        self.find_loop()
    }

    // Tries the points in their order.
    fn find_loop(&self) -> Option<Point>
        ensures some { IfSome result (λ x. (set : Orders) → IsClosureOf set self.now → IsFirstLoop set.list set.extents (length set.dates) x) }
        ensures none { IfNone result ((set : Orders) → IsClosureOf set self.now → ¬ HasCycle set.list) }
    {
        let (extents, dates) = (self.extents, self.dates);
        for k in 0..2 * extents + dates {
            let point = point_at(extents, dates, k);
            if self.is_looped(point) {
                return Some(point);
            }
        }
        None
    }

    /// Whether the orders have no cycle.
    pub fn is_consistent(&self) -> bool
        ensures yes { result ≡ true → (set : Orders) → IsClosureOf set self.now → ¬ HasCycle set.list }
        ensures no { ¬ (result ≡ true) → (set : Orders) → IsClosureOf set self.now → HasCycle set.list }
        ensures computed { (set : Orders) → IsClosureOf set self.now → result ≡ not (has_strict_loop set.list set.extents (length set.dates)) }
    {
        self.strict_loop().is_none()
    }
}
