//! What contradicts itself in a set of orders: its tangles with the first cycle of each, and the suspects.
#![tactic(auto)]

mod conflicts;
mod cycles;
pub mod laws;
mod layers;
mod leading;
mod numbers;
mod points;
mod suspects;
mod tangles;
mod walking;
mod without;

pub use conflicts::{Conflicts, find_conflicts};
pub use suspects::Suspect;
pub use tangles::Tangle;
