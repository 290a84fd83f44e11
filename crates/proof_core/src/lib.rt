//! Proof objects: trees of rules, one check of them for every theory, and theories that keep what was concluded.
#![tactic(auto)]

mod balancing;
mod checking;
mod lists;
mod rules;
mod sharing;
mod trees;

pub use balancing::balance;
pub use checking::{BadAt, check};
pub use lists::{FactList, LeafList};
pub use rules::Theory;
pub use sharing::{KeepFault, Shared};
pub use trees::{Proof, SharedLeaf};
