//! Triples as lines of N-Triples, in the canonical form.
#![tactic(auto)]

mod lines;

pub use lines::{WriteRefusal, append_term, print_triple, text_of, write_triple};
