//! A sink that gathers what is written to it, and hands it on in large pieces.
#![tactic(auto)]

mod gathered;
mod pieces;

pub use gathered::Gathered;
