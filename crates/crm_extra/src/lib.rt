//! The commands on a file beyond the first: the dates around its boundaries, its periods at an instant, its legacy
//! relations in today's properties, the possible relations of its periods, and its triples by line and column.
#![tactic(auto)]

mod calendar;
mod conflicts;
mod dating;
mod listing;
mod relations;

pub use calendar::write_dates;
pub use conflicts::write_conflicts;
pub use dating::{write_bounds, write_when};
pub use listing::write_lines;
pub use relations::{write_allen, write_allen_pair, write_legacy};
