// Tangles.
ghost use Rattle.std.specs.Prelude.{◌≡◌, ◌<◌, ◌≤◌, ◌^◌, length, map, take, IfOk};
ghost use Rattle.std.specs.List.{All, filter, list_any};
ghost use Rattle.order_laws.specs.Closure.{reach_between};
ghost use Rattle.order_laws.specs.Points.{number_of};
ghost use Rattle.order_laws.specs.Tables.{IsPoint, all_points, is_strict};
ghost use Rattle.order_core.specs.Sets.{AreInRange};
ghost use Rattle.order_conflicts.specs.Cycles.{cycle_from};
ghost use Rattle.order_conflicts.specs.Numbers.{numbers_where};
ghost use Rattle.order_conflicts.specs.Tangles.{is_least, is_tied_in, least_points, tied_points, tangle_at, tangles_in};
ghost use Rattle.order_conflicts.specs.Tangles as spec;

use crate::cycles::first_cycle;
use crate::numbers::push_where;
use crate::points::list_points;
use chain_certificate::Chain;
use crm_outside::{Items, Numbers};
use order_analysis::Analysis;
use order_laws::{Order, Point, Reach};
use std::alloc::AllocError;

/// Orders that contradict each other, by number, ascending, and the first cycle of all along them.
#[derive(Drop)]
pub struct Tangle {
    pub orders: Numbers,
    pub cycle: Chain,
}

fn is_known(reach: Reach) -> bool
    ensures { result ≡ Rattle.order_laws.specs.Tables.is_known reach }
{
    match reach {
        Reach::None => false,
        Reach::Le => true,
        Reach::Lt => true,
    }
}

fn is_looped(analysis: &Analysis, x: Point) -> bool
    requires { IsPoint analysis.now.set.extents (length analysis.now.set.dates) x }
    ensures { result ≡ is_strict (reach_between analysis.now.set.list x x) }
{
    match analysis.between(x, x) {
        Reach::None => false,
        Reach::Le => false,
        Reach::Lt => true,
    }
}

fn are_tied(analysis: &Analysis, x: Point, y: Point) -> bool
    requires x { IsPoint analysis.now.set.extents (length analysis.now.set.dates) x }
    requires y { IsPoint analysis.now.set.extents (length analysis.now.set.dates) y }
    ensures { result ≡ spec.are_tied analysis.now.set.list x y }
{
    is_known(analysis.between(x, y)) && is_known(analysis.between(y, x))
}

// Whether one of the first points is tied to a point.
fn has_tied(analysis: &Analysis, x: Point, points: &[Point], count: usize) -> bool
    requires x { IsPoint analysis.now.set.extents (length analysis.now.set.dates) x }
    requires count { count ≤ length points.now }
    requires within { All (IsPoint analysis.now.set.extents (length analysis.now.set.dates)) points.now }
    ensures { result ≡ list_any (spec.are_tied analysis.now.set.list x) (take count points.now) }
{
    for k in 0..count {
        if are_tied(analysis, x, points[k]) {
            return true;
        }
    }
    false
}

// Whether a point is the least of a tangle.
fn is_least(analysis: &Analysis, x: Point, number: usize, points: &[Point]) -> bool
    requires x { IsPoint analysis.now.set.extents (length analysis.now.set.dates) x }
    requires number { number_of analysis.now.set.extents x ≡ number }
    requires count { number ≤ length points.now }
    requires points { points.now ≡ all_points analysis.now.set.extents (length analysis.now.set.dates) }
    requires within { All (IsPoint analysis.now.set.extents (length analysis.now.set.dates)) points.now }
    ensures { result ≡ is_least analysis.now.set x }
{
    is_looped(analysis, x) && !has_tied(analysis, x, points, number)
}

fn least_points(analysis: &Analysis, points: &[Point]) -> Result<Vec<Point>, AllocError>
    requires points { points.now ≡ all_points analysis.now.set.extents (length analysis.now.set.dates) }
    requires within { All (IsPoint analysis.now.set.extents (length analysis.now.set.dates)) points.now }
    ensures value { IfOk result (λ v. v.items ≡ least_points analysis.now.set) }
    ensures within { IfOk result (λ v. All (IsPoint analysis.now.set.extents (length analysis.now.set.dates)) v.items) }
{
    let mut least = Vec::new(analysis.alloc());
    for k in 0..points.len() {
        if is_least(analysis, points[k], k, points) {
            least.push(points[k])?;
        }
    }
    Ok(least)
}

fn tied_points(analysis: &Analysis, x: Point, points: &[Point]) -> Result<Vec<Point>, AllocError>
    requires x { IsPoint analysis.now.set.extents (length analysis.now.set.dates) x }
    requires points { points.now ≡ all_points analysis.now.set.extents (length analysis.now.set.dates) }
    requires within { All (IsPoint analysis.now.set.extents (length analysis.now.set.dates)) points.now }
    ensures value { IfOk result (λ v. v.items ≡ tied_points analysis.now.set x) }
    ensures within { IfOk result (λ v. All (IsPoint analysis.now.set.extents (length analysis.now.set.dates)) v.items) }
{
    let mut tied = Vec::new(analysis.alloc());
    for k in 0..points.len() {
        if are_tied(analysis, x, points[k]) {
            tied.push(points[k])?;
        }
    }
    Ok(tied)
}

fn is_tied_in(analysis: &Analysis, x: Point, order: Order) -> bool
    requires x { IsPoint analysis.now.set.extents (length analysis.now.set.dates) x }
    requires low { IsPoint analysis.now.set.extents (length analysis.now.set.dates) order.low }
    requires high { IsPoint analysis.now.set.extents (length analysis.now.set.dates) order.high }
    ensures { result ≡ is_tied_in analysis.now.set.list x order }
{
    are_tied(analysis, x, order.low) && are_tied(analysis, x, order.high)
}

// The numbers of the orders whose ends are tied to a point.
fn tied_numbers(analysis: &Analysis, x: Point, orders: &[Order]) -> Result<Vec<u32>, AllocError>
    requires x { IsPoint analysis.now.set.extents (length analysis.now.set.dates) x }
    requires few { length orders.now < 2 ^ 32 }
    requires in_range { AreInRange analysis.now.set.extents (length analysis.now.set.dates) orders.now }
    ensures { IfOk result (λ v. v.items ≡ numbers_where (is_tied_in analysis.now.set.list x) orders.now) }
{
    let mut tied = Vec::new(analysis.alloc());
    for n in 0..orders.len() {
        let passes = is_tied_in(analysis, x, orders[n]);
        push_where(&mut tied, n as u32, passes)?;
    }
    Ok(tied)
}

fn tied_orders(analysis: &Analysis, x: Point) -> Result<Numbers, AllocError>
    requires { IsPoint analysis.now.set.extents (length analysis.now.set.dates) x }
    ensures { IfOk result (λ v. v ≡ numbers_where (is_tied_in analysis.now.set.list x) analysis.now.set.list) }
{
    let set = analysis.set();
    set.conditions();
    let tied = tied_numbers(analysis, x, set.orders().as_slice())?;
    Ok(Numbers::from_vec(tied))
}

fn tied_cycle(analysis: &Analysis, x: Point, points: &[Point]) -> Result<Chain, AllocError>
    requires x { IsPoint analysis.now.set.extents (length analysis.now.set.dates) x }
    requires points { points.now ≡ all_points analysis.now.set.extents (length analysis.now.set.dates) }
    requires within { All (IsPoint analysis.now.set.extents (length analysis.now.set.dates)) points.now }
    ensures { IfOk result (λ c. c ≡ cycle_from analysis.now.set.list (tied_points analysis.now.set x)) }
{
    let tied = tied_points(analysis, x, points)?;
    match first_cycle(analysis, tied.as_slice())? {
        Some(cycle) => Ok(cycle),
        None => Ok(Chain::new(analysis.alloc())),
    }
}

// The tangle of a point.
fn tangle_at(analysis: &Analysis, x: Point, points: &[Point]) -> Result<Tangle, AllocError>
    requires x { IsPoint analysis.now.set.extents (length analysis.now.set.dates) x }
    requires points { points.now ≡ all_points analysis.now.set.extents (length analysis.now.set.dates) }
    requires within { All (IsPoint analysis.now.set.extents (length analysis.now.set.dates)) points.now }
    ensures { IfOk result (λ t. t ≡ tangle_at analysis.now.set x) }
{
    let orders = tied_orders(analysis, x)?;
    let cycle = tied_cycle(analysis, x, points)?;
    Ok(Tangle { orders, cycle })
}

// The tangle of each point.
fn tangles_at(
    analysis: &Analysis,
    least: &[Point],
    points: &[Point],
) -> Result<Vec<Tangle>, AllocError>
    requires least { All (IsPoint analysis.now.set.extents (length analysis.now.set.dates)) least.now }
    requires points { points.now ≡ all_points analysis.now.set.extents (length analysis.now.set.dates) }
    requires within { All (IsPoint analysis.now.set.extents (length analysis.now.set.dates)) points.now }
    ensures { IfOk result (λ ts. ts.items ≡ map (tangle_at analysis.now.set) least.now) }
{
    let mut tangles = Vec::new(analysis.alloc());
    for k in 0..least.len() {
        let tangle = tangle_at(analysis, least[k], points)?;
        tangles.push(tangle)?;
    }
    Ok(tangles)
}

/// The tangles, in the order of their least points.
pub fn find_tangles(analysis: &Analysis) -> Result<Items<Tangle>, AllocError>
    ensures { IfOk result (λ ts. ts ≡ tangles_in analysis.now.set) }
{
    analysis.set().conditions();
    let dates = analysis.set().dates().len() as u32;
    let points = list_points(analysis.alloc(), analysis.set().extents(), dates)?;
    let least = least_points(analysis, points.as_slice())?;
    let tangles = tangles_at(analysis, least.as_slice(), points.as_slice())?;
    Ok(Items::from_vec(tangles))
}
