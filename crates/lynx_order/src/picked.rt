//! Picking chains one after another, each when none that precedes it is left.
ghost use Rattle.std.specs.Prelude.{IfOk};
ghost use Rattle.lynx_order.specs.inner.Picks.{ArePicked, IsSquare, NoneFree};

use crate::picks::first_free;
use lynx_names::{Items, Memory};
use std::alloc::Global;

/// The chains that were picked, in order, and a mark for each that is left.
#[derive(Drop)]
pub(crate) struct Picked {
    pub order: Items<usize>,
    pub left: Items<bool>,
}

/// Picks again and again the first chain that none which is left precedes, until there is none.
pub(crate) fn pick_all(alloc: Global, table: &[Items<bool>]) -> Result<Picked, Memory>
    requires { IsSquare table.now }
    ensures picked { IfOk result (λ picked. ArePicked table.now picked.order picked.left) }
    ensures none_free { IfOk result (λ picked. NoneFree table.now picked.left) }
{
    let mut left = vec![in alloc; true; table.len()]?;
    let mut order = Items::new(alloc);
    let mut hints = vec![in alloc; 0; table.len()]?;
    while let Some(place) = first_free(table, left.as_slice(), &mut hints) {
        order.push(place)?;
        left[place] = false;
    }
    Ok(Picked {
        order,
        left: Items::from_vec(left),
    })
}
