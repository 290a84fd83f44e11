//! The report of a set of orders: whether it is consistent, which relations of periods follow and why,
//! and the placings that break what does not follow.
#![tactic(auto)]

mod answers;
mod counting;
mod delays;
pub mod laws;
mod relations;
mod report;

pub use answers::{Answer, print_answer};
pub use counting::count_relations;
pub use relations::Relation;
pub use report::{print_inconsistent, print_reason};
