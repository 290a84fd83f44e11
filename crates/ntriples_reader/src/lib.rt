//! The lines of N-Triples: names and triples from tokens.
#![tactic(auto)]

mod labels;
mod line;
mod lines;
mod reader;
mod store;

pub use rdf_reading::ReadRefusal;
pub use reader::NtReader;
