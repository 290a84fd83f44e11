//! What the command `dates` prints of records: between which dates of the calendar each period starts and ends.
#![tactic(auto)]

mod report;
mod rows;

pub use report::report_dates;
