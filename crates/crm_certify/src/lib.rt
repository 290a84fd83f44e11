//! The certificates of records: written from what these say, and judged against them.
#![tactic(auto)]

mod judging;
mod kinds;
mod telling;
mod types;
mod utf8;
mod writing;

pub use judging::report_verdict;
pub use kinds::CertKind;
pub use writing::report_certificate;
