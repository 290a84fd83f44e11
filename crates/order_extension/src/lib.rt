//! Sets of orders with further orders behind their own.
#![tactic(auto)]

mod extension;
pub mod laws;

pub use extension::with_orders;
