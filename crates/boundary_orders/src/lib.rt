//! What the triples of a document say of time: statements, extents with the periods among them, dates and orders.
#![tactic(auto)]

mod dates;
mod dossier;
mod extents;
mod faults;
mod laws;
mod listing;
mod orders;
mod standings;
mod statements;

pub use dates::{date_in, date_number, find_dates};
pub use dossier::{Dossier, ExtentRow};
pub use extents::{ExtentTable, find_extents, number_extents};
pub use faults::BuildFault;
pub use laws::dates_are_known;
pub use listing::{list_orders, list_statement};
pub use orders::push_orders;
pub use standings::{Marks, StandingList, class_standings, end_standings, mark_all};
pub use statements::{
    Statement, StatementList, faulty_numbers, find_statements, is_date, statement_of,
};
