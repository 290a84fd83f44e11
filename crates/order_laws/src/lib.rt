// Points, orders and placings, and what follows from a list of orders.
#![tactic(auto)]

pub mod laws;

/// A point in time: the start or the end of an extent, or a date, by number.
#[derive(Clone, Copy, PartialEq, Eq, Debug)]
pub enum Point {
    Start(u32),
    End(u32),
    Date(u32),
}

/// Where an order comes from.
#[derive(Clone, Copy, PartialEq, Eq, Debug)]
pub enum By {
    Triple(u32),
    Extent(u32),
    Dates,
}

/// `low` is before or at `high`, or before it where the order is strict.
#[derive(Clone, Copy, PartialEq, Eq, Debug)]
pub struct Order {
    pub low: Point,
    pub high: Point,
    pub strict: bool,
    pub by: By,
}

/// A place on the time line; positions are compared by instant, then by rank.
#[derive(Clone, Copy, PartialEq, Eq, Debug)]
pub struct Position {
    pub instant: i128,
    pub rank: u32,
}

/// What follows from a point to another.
#[derive(Clone, Copy, PartialEq, Eq, Debug)]
pub enum Reach {
    None,
    Le,
    Lt,
}
