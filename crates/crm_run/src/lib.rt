//! The words of the command line, and what they do: files are read from a shelf, and a report is printed to a sink.
#![tactic(auto)]

mod joining;
mod laws;
mod listing;
mod reporting;
mod running;
mod telling;
mod verifying;

pub use command_words::{Command, JoinKind, TextList, read_words};
pub use running::run;
