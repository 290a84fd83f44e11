//! The analysis of the orders that are found in records.
#![tactic(auto)]

mod analysing;

pub use analysing::analyse;
