//! What follows between points in time from a set of orders, in rows of bits.
#![tactic(auto)]

mod closure;
mod columns;
mod edges;
mod filling;
mod links;
mod numbers;
mod rows;
mod steps;
mod turns;

pub use closure::Closure;
pub use columns::Columns;
pub use edges::{EdgeWalk, Edges};
pub use numbers::{number, point_at};
pub use order_laws::Reach;
pub use steps::Steps;
