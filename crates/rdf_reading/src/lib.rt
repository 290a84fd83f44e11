//! What the readers of RDF's syntaxes share: the values of tokens, names and triples within the limits, and refusals.
#![tactic(auto)]

mod refusals;
mod room;
mod values;

pub use refusals::ReadRefusal;
pub use room::{add_triple, iri_term, literal_term};
pub use values::{behind, inside, is_excluded, put_chars, put_unescaped};
