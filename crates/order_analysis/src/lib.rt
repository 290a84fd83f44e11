//! What one set of orders says, worked out once: its edges, its closure and its first cycle.
#![tactic(auto)]

mod analysis;

pub use analysis::Analysis;
