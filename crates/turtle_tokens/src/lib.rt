//! The tokens of Turtle: their terminals, and the machine that reads them.
#![tactic(auto)]

mod kinds;
pub mod laws;
mod states;
mod syntax;
mod table;

pub use kinds::TokenKind;
pub use syntax::{Turtle, begin_three_marks};
