//! Dates around the boundaries of extents, and where an extent stands at an instant, from a set of consistent orders.
#![tactic(auto)]

mod bounds;
mod counting;
mod dates;
mod extremes;
mod following;
pub mod laws;
mod moments;
mod pushes;

pub use bounds::bound;
pub use dates::{date_place, with_date};
pub use extremes::{Bound, DateBound};
pub use moments::{During, at_date, at_instant};
pub use pushes::Shares;
