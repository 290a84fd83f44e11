//! The text of a certificate of classes: for each triple that is due the types of its subject that share no instance, with
//! the ways from both up to the heads of their families.
#![tactic(auto)]

mod classes;
mod families;

pub use classes::{ClassPieces, Types};
