//! What the command `matrix` prints of records, their Harris matrix, and what `sample` prints of records of a given size.
#![tactic(auto)]

pub mod laws;
mod lines;
mod matrix_report;
mod sample_counts;
mod sample_report;
mod sampling;

pub use matrix_report::report_matrix;
pub use sample_report::report_sample;
pub use sampling::sample_file;
