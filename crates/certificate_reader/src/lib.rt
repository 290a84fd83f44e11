//! The lines of certificates, read.
//!
//! A certificate is a first line, lines of its kind, and the line `end`.
#![tactic(auto)]

mod class_lines;
mod heads;
mod matrix_lines;
mod order_lines;

pub use certificate_trees::{
    CertRefusal, ClassFact, Found, Join, Notes, OrderLeaves, Weaken, byte_at, read_word,
    shared_text, tree_text,
};
pub use class_lines::{ClassLine, ClassProof, MarkedLine, read_class_line};
pub use heads::{Kind, read_head};
pub use matrix_lines::{Counts, Cover, MatrixLine, WalkProof, read_matrix_line};
pub use order_lines::{Claim, Known, OrderLine, OrderProof, Question, read_order_line};
