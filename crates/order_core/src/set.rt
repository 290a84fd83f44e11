// Sets of orders between the points of extents and dates.
ghost use Rattle.std.specs.Prelude.{◌≡◌, ℕ, ◌<◌, ◌≤◌, ◌^◌, length, slice_get};
ghost use Rattle.order_laws.specs.Tables.{IsOrderSet};
ghost use Rattle.order_core.specs.Sets.{AreInstants, IsSet};

use crate::{Dates, OrderList};
use order_laws::Order;
use std::marker::Model;

/// A list of orders between the boundaries of extents and the points of ascending dates.
///
/// Contracts see the count of extents, the dates and the orders. Every point is in range, each extent
/// starts before it ends, and each date is before the next one.
#[derive(Drop)]
pub struct OrderSet {
    extents: u32,
    dates: Dates,
    list: OrderList,
}

impl Model for OrderSet {
    ghost use Rattle.order_core.specs.Sets.{Orders, IsSet};

    ghost Value = { Orders };

    ghost view = { λ s. record { extents = s.extents; dates = s.dates; list = s.list } };

    ghost invariant = { λ s. IsSet s.extents s.dates s.list };
}

impl OrderSet {
    /// Keeps the orders; no memory is taken.
    pub fn new(extents: u32, dates: Dates, list: OrderList) -> OrderSet
        requires few_extents { extents ≤ 2 ^ 20 }
        requires few_dates { length dates ≤ 2 ^ 20 }
        requires few_orders { length list < 2 ^ 32 }
        requires instants { AreInstants dates }
        requires orders { IsOrderSet list extents dates }
        ensures { result ≡ record { extents = extents; dates = dates; list = list } }
    {
        OrderSet {
            extents,
            dates,
            list,
        }
    }

    /// The order of a number; None where there are no more than `n` orders.
    pub fn order(&self, n: u32) -> Option<Order>
        ensures { result ≡ slice_get self.now.list n }
    {
        self.list.get(n as usize).copied()
    }

    /// The count of orders.
    pub fn len(&self) -> u32
        ensures { result ≡ length self.now.list }
    {
        self.list.len() as u32
    }

    /// The count of extents.
    pub fn extents(&self) -> u32
        ensures { result ≡ self.now.extents }
    {
        self.extents
    }

    /// The ascending dates.
    pub fn dates(&self) -> &Dates
        ensures { result.now ≡ self.now.dates }
    {
        &self.dates
    }

    /// All orders, by number.
    pub fn orders(&self) -> &OrderList
        ensures { result.now ≡ self.now.list }
    {
        &self.list
    }

    /// Does nothing; its contract says what every set keeps.
    pub fn conditions(&self)
        ensures { IsSet self.now.extents self.now.dates self.now.list }
    {
        let _extents = self.extents;
    }
}
