// The bounds of a boundary.

/// A date by its number that bounds a boundary, strictly where the boundary is never on the date.
#[derive(Clone, Copy, PartialEq, Eq, Debug)]
pub struct DateBound {
    pub date: u32,
    pub strict: bool,
}

/// The last date that a boundary is never before, and the first that it is never after.
#[derive(Clone, Copy, PartialEq, Eq, Debug)]
pub struct Bound {
    pub low: Option<DateBound>,
    pub high: Option<DateBound>,
}
