//! What the command `lines` prints: the triples of a file, each with the line and the column of its place.
#![tactic(auto)]

mod lines;

pub use lines::report_lines;
