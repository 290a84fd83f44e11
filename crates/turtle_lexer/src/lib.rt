//! The tokens of Turtle, from bytes that come in pieces.
#![tactic(auto)]

pub mod laws;
mod lexer;
mod token;
mod values;

pub use lexer::Lexer;
pub use token::{Next, Token};
pub use turtle_tokens::TokenKind;
