//! The first chain of orders between two points, and the first cycle.
#![tactic(auto)]

mod routes;
mod tree;

pub use routes::{Chain, LastStep, Routes, cycle};
