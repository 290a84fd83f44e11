//! The text of a certificate of a matrix: a line for each cover, and one for the walk along covers between any two cells
//! of which one is before the other.
#![tactic(auto)]

mod pieces;

pub use pieces::{MatrixPieces, walks_of};
