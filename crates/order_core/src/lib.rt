//! Sets of orders between points in time, placings of their boundaries, and the eight primitives of CIDOC CRM.
#![tactic(auto)]

mod lists;
mod placing;
mod primitives;
mod set;
mod sides;
mod statements;

pub use lists::{Dates, OrderList, Placing};
pub use order_laws::{By, Order, Point, Position};
pub use placing::holds_at;
pub use primitives::{Primitive, points};
pub use set::OrderSet;
pub use sides::Side;
pub use statements::{are_ascending, are_in_range, are_instants, completed_set, is_in_range};
