//! Instants as dates and times of the proleptic Gregorian calendar, as ISO 8601 writes them.
#![tactic(auto)]

mod days;
mod texts;

pub use days::{CalendarDate, date_after};
pub use texts::append_instant;
