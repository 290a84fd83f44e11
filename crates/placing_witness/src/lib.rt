//! Placings that satisfy a set of orders, and for each boundary one that delays it.
//!
//! A placing gives each boundary a position. The plain placing puts each as early as it can: on its floor,
//! the last date that it does not precede, behind what is before it there. The delaying placing of a
//! boundary x puts before x whatever does not have to follow it, and on x whatever may be at x.
#![tactic(auto)]

mod base;
mod bits;
mod delays;
mod floors;
mod placings;
mod ranks;
mod rows;
mod tallies;

pub use placings::{Placings, delaying, plain};
