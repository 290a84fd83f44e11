//! What the program says of itself: the forms of words that it takes, and its version.
#![tactic(auto)]

mod pages;
mod printing;

pub use printing::{write_help, write_version};
