//! Several files as one: their distinct triples in order, with blank nodes kept apart and places counted through.
#![tactic(auto)]

mod faults;
mod joiner;
mod joining;
pub mod laws;
mod refusals;

pub use faults::JoinFault;
pub use joiner::Joiner;
pub use refusals::report_file_refusal;
