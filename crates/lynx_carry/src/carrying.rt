//! Carries cells to a new world of a set.
ghost use Rattle.std.specs.Prelude.{◌≡◌, IfErr, IfOk};
ghost use Rattle.lynx_carry.specs.Carried.{IsCarriedWorld};
ghost use Rattle.lynx_carry.specs.Faults.{IsCarryFault};

use crate::checking::check;
use crate::fault::CarryFault;
use crate::naming::NamedCell;
use crate::running::run_all;
use lynx_entry::Request;
use lynx_names::Memory;
use lynx_set::ChainSet;
use lynx_world::{World, empty_keepers};
use std::alloc::Global;

/// A world of the set in which nothing happened yet.
fn new_world(alloc: Global, set: ChainSet) -> Result<World, Memory>
    ensures { IfOk result (λ world. world.set ≡ set) }
{
    let keepers = empty_keepers(alloc, &set)?;
    World::new(alloc, set, keepers)
}

/// The world in which the chains of the requests ran, in order and all their hops, from nothing.
/// Nothing is owed in it, and its nonzero cells are by name those that were given; so these are to
/// have values that aren't 0, and no key of a table twice. Where the chains leave others, or one of
/// them isn't begun or done, it Differs. It takes the memory of the world twice, and n log n steps
/// for n entries and cells.
pub fn carry(
    alloc: Global,
    set: ChainSet,
    requests: Vec<Request>,
    cells: &[NamedCell],
) -> Result<World, CarryFault>
    ensures ok { IfOk result (IsCarriedWorld set cells.now) }
    ensures err { IfErr result (IsCarryFault set cells.now) }
{
    let mut world = new_world(alloc, set)?;
    run_all(alloc, &mut world, requests)?;
    check(alloc, &world, cells)?;
    Ok(world)
}
