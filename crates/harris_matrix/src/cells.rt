// Cells and pairs of cells.
use crm_outside::{Items, Numbers};

/// Periods that start together and end together, ascending, with the level of the cell.
#[derive(Drop)]
pub struct Cell {
    pub extents: Numbers,
    pub level: u32,
}

/// Two cells, by number.
#[derive(Clone, Copy, PartialEq, Eq, Debug)]
pub struct CellPair {
    pub first: u32,
    pub second: u32,
}

/// Cells, by number.
pub type CellList = Items<Cell>;

/// Pairs of cells.
pub type PairList = Items<CellPair>;
