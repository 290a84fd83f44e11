//! The terms of RDF by number: IRIs, blank nodes and literals, the names that the numbers stand for, and distinct triples.
#![tactic(auto)]

mod names;
mod terms;
mod triples;

pub use names::{NAME_LIMIT, NameFault, Names};
pub use terms::{Code, Literal, Refusal, Term, Triple};
pub use triples::{Records, TRIPLE_LIMIT, TripleFault, Triples};
