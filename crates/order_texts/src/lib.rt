//! The texts of points, orders, dates, chains and placings, and their lines in a report.
#![tactic(auto)]

mod lines;
mod printing;

pub use lines::{
    append_chain, append_count, append_date, append_order, append_placing, append_point,
};
pub use printing::{print_count, print_dates, print_orders, print_placing};
