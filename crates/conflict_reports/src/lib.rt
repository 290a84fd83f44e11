//! What the command `conflicts` prints of records: their contradictions, and the statements that could be wrong.
#![tactic(auto)]

mod lines;
mod printing;
mod reporting;

pub use reporting::report_conflicts;
