// The lists that orders and placings are made of.
use crm_outside::Items;
use order_laws::{Order, Position};

/// The instants of dates, in nanoseconds since 1970-01-01T00:00:00Z, ascending.
pub type Dates = Items<i128>;

/// Orders, by number.
pub type OrderList = Items<Order>;

/// The positions of s0, e0, s1, e1 and so on: of the start and the end of each extent.
pub type Placing = Items<Position>;
