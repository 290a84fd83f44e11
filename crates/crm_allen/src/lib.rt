//! Allen's thirteen relations of two intervals: which of them a set of orders leaves open between two extents, and for
//! each of these a placing that has it.
#![tactic(auto)]

mod examples;
pub mod laws;
mod openings;
mod relations;
mod sets;

pub use examples::{example, relation_orders};
pub use openings::possible;
pub use relations::{Allen, all_relations};
pub use sets::AllenSet;
