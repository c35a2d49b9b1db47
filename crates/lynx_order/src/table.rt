//! Which chains precede which, each two looked at once.
ghost use Rattle.std.specs.Prelude.{◌≡◌, ◌<◌, length, map, IfOk};
ghost use Rattle.lynx_order.specs.Touchings.{precede_at, row_of, table_of, touchings_of};

use crate::touching::{Touching, meet, touchings_of};
use lynx_names::{ChainId, Items, Memory};
use lynx_set::ChainSet;
use lynx_world::World;
use std::alloc::Global;

/// The touching hops of each chain.
pub(crate) fn all_touchings(
    alloc: Global,
    set: &ChainSet,
    chains: &[ChainId],
    world: &World,
) -> Result<Items<Items<Touching>>, Memory>
    ensures { IfOk result (λ all. all ≡ map (touchings_of set.now world.now.list) chains.now) }
{
    let mut all = Items::new(alloc);
    for chain in chains {
        all.push(touchings_of(alloc, set, chain, world)?)?;
    }
    Ok(all)
}

/// Whether the chain of the one place precedes the one of the other.
fn precede_at(all: &[Items<Touching>], other: usize, one: usize) -> bool
    requires other { other < length all.now }
    requires one { one < length all.now }
    ensures { result ≡ precede_at all.now other one }
{
    one != other && meet(all[one].as_slice(), all[other].as_slice())
}

/// For each chain, whether it precedes the one of that place.
fn row_of(alloc: Global, all: &[Items<Touching>], other: usize) -> Result<Items<bool>, Memory>
    requires { other < length all.now }
    ensures { IfOk result (λ row. row ≡ row_of all.now other) }
{
    let mut row = Items::new(alloc);
    for one in 0..all.len() {
        row.push(precede_at(all, other, one))?;
    }
    Ok(row)
}

/// For each chain, which chains precede it.
pub(crate) fn table_of(alloc: Global, all: &[Items<Touching>]) -> Result<Items<Items<bool>>, Memory>
    ensures { IfOk result (λ table. table ≡ table_of all.now) }
{
    let mut table = Items::new(alloc);
    for other in 0..all.len() {
        table.push(row_of(alloc, all, other)?)?;
    }
    Ok(table)
}
