//! What the commands `legacy` and `allen` print of records: the records in today's properties, and Allen's relations of
//! their periods that some placing has.
#![tactic(auto)]

mod asking;
mod lines;
mod moving;
mod pairs;
mod tables;

pub use asking::report_allen_pair;
pub use moving::report_legacy;
pub use tables::report_allen;
