//! What a Turtle document keeps as it is read: base and prefixes, blank nodes, names and triples, and the terminals of its tokens.
#![tactic(auto)]

mod base;
mod blanks;
mod environment;
mod store;
mod table;
mod words;

pub use blanks::Blanks;
pub use environment::Environment;
pub use store::Store;
pub use words::{bracket_at, ends_collection, terminal_of};
