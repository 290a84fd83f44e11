//! Turtle documents: names and triples from tokens that come one by one.
#![tactic(auto)]

mod document;

pub use document::Document;
