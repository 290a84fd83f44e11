//! What the reports on records share: how a command ends, the faults of records and what the others of their triples
//! say within the limits, and the lines that tell of both.
#![tactic(auto)]

pub mod laws;
mod lines;
mod names;
mod printing;
mod status;
mod survey;
mod telling;

pub use lines::append_extent;
pub use printing::{print_check, print_dossier, print_extents};
pub use status::{ReportFault, Status};
pub use survey::{Survey, find_faults, survey_pool, take_survey};
pub use telling::{status_of, tell_count, tell_passed};
