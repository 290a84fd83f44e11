//! The Harris matrix of periods: cells, levels, covers, and walks along covers.
#![tactic(auto)]

mod cells;
mod covering;
mod finding;
pub mod laws;
mod levels;
mod matrix;
mod rows;
mod targets;
mod walking;

pub use cells::{Cell, CellList, CellPair, PairList};
pub use matrix::Matrix;
pub use targets::WalksTo;
