//! What the commands `check` and `orders` print of a pool of triples and `convert` of records, and what is printed of a
//! refusal.
#![tactic(auto)]

mod codes;
mod faults;
mod printing;
mod reports;

pub use codes::code_name;
pub use reports::{report_check, report_convert, report_orders, report_refusal};
