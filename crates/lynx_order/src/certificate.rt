//! Whether an order of chains that was found is one.
ghost use Rattle.std.specs.Prelude.{IsTrue, IfOk};
ghost use Rattle.lynx_order.specs.inner.Certificates.{HoldsOrder};

use crate::ranks::{inverts, ranks_of};
use crate::rising::rise;
use crate::search::ChainTouch;
use lynx_names::Memory;
use std::alloc::Global;

/// Whether the order has each of so many chains once, each before those that touch the same cell
/// later in a way that doesn't commute. The touches stand in order of their cells, those of one
/// cell in order of the list; where they don't, the answer is no. One pass over the touches.
pub(crate) fn order_holds(
    alloc: Global,
    count: usize,
    touches: &[ChainTouch],
    order: &[usize],
) -> Result<bool, Memory>
    ensures { IfOk result (λ holds. IsTrue holds → HoldsOrder count touches.now order.now) }
{
    let ranks = ranks_of(alloc, order, count)?;
    let ranks = ranks.as_slice();
    if !inverts(order, ranks) {
        return Ok(false);
    }
    if !inverts(ranks, order) {
        return Ok(false);
    }
    Ok(rise(ranks, touches))
}
