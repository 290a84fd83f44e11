//! Tokens cut from characters that come one by one, for each syntax whose tokens a machine reads.
#![tactic(auto)]

mod cutter;
mod front;
mod place;
mod reading;
mod syntax;

pub use cutter::Cutter;
pub use front::Front;
pub use place::Place;
pub use syntax::Syntax;
