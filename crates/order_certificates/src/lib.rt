//! The certificates of orders, version 2: what follows between any two periods, or the first cycle.
#![tactic(auto)]

mod balanced;
mod cycles;
mod drafts;
mod lines;
mod names;
mod orders;
mod pairs;
mod pieces;
mod shared_routes;
mod sharing;

pub use balanced::append_balanced;
pub use cycles::cycle_certificate;
pub use drafts::{Drafts, count_drafts, print_drafts};
pub use names::append_name;
pub use orders::OrderPieces;
pub use pieces::{Pieces, count_pieces, print_pieces};
