//! The periods of a dossier that words name, their lines in a report, and what is printed where a word names none.
#![tactic(auto)]

mod asking;
mod telling;

pub use asking::{Period, find_period, is_blank_name};
pub use telling::{print_periods, tell_no_period};
