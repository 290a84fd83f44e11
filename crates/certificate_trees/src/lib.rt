//! The trees of certificates, written and read, with their leaves and the words between them.
//!
//! Reading goes by places, which are offsets of bytes; a value that was read is spelled by the bytes between
//! two places.
#![tactic(auto)]

mod leaves;
mod refusals;
mod rules;
mod tree_texts;
mod trees;
mod words;

pub use leaves::{
    ClassFact, ClassLeaves, CoverLeaves, LeafForm, Notes, OrderLeaves, read_code, read_name,
};
pub use refusals::CertRefusal;
pub use rules::{Join, Weaken};
pub use tree_texts::{shared_text, tree_text};
pub use trees::{DEPTH, read_tree};
pub use words::{Found, byte_at, read_instant, read_number, read_word, stands_at};
