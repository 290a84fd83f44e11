// Further orders behind those of a set.
ghost use Rattle.std.specs.Prelude.{◌≡◌, ◌+◌, ◌<◌, ◌^◌, ◌++◌, length, IfOk};
ghost use Rattle.order_laws.specs.Tables.{IsOrderSet};
ghost use Rattle.order_core.specs.Sets.{AreInRange};
ghost use Rattle.order_extension.specs.Extended.{extended};

use order_core::{Dates, OrderList, OrderSet};
use order_laws::Order;
use std::alloc::{AllocError, Global};

// The orders of two lists.
fn joined(alloc: Global, list: &[Order], more: &[Order]) -> Result<Vec<Order>, AllocError>
    ensures { IfOk result (λ orders. orders.items ≡ list.now ++ more.now) }
{
    let mut orders = Vec::from_slice(alloc, list)?;
    orders.extend_from_slice(more)?;
    Ok(orders)
}

/// The set with further orders, which are numbered on behind its own.
pub fn with_orders(alloc: Global, set: &OrderSet, more: OrderList) -> Result<OrderSet, AllocError>
    requires few { length set.now.list + length more < 2 ^ 32 }
    requires in_range { AreInRange set.now.extents (length set.now.dates) more }
    ensures { IfOk result (λ s. s ≡ extended set.now more) }
{
    set.conditions();
    let orders = joined(alloc, set.orders().as_slice(), more.as_slice())?;
    let dates = Vec::from_slice(alloc, set.dates().as_slice())?;
    Ok(OrderSet::new(
        set.extents(),
        Dates::from_vec(dates),
        OrderList::from_vec(orders),
    ))
}
