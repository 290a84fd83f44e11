//! The tokens of N-Triples, from characters that come one by one.
#![tactic(auto)]

mod classes;
mod kinds;
mod laws;
mod states;
mod syntax;

pub use kinds::Kind;
pub use syntax::NTriples;
