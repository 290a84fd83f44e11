//! What the commands `bounds` and `when` print of records: the dates around each boundary, and which periods are under way
//! at an instant.
#![tactic(auto)]

mod around;
mod boundaries;
mod dating;
pub mod laws;
mod moments;
mod under_way;

pub use around::report_bounds;
pub use under_way::report_when;
