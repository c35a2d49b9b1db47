//! Checks what chains left.
ghost use Rattle.std.specs.Prelude.{◌≡◌, [], true, map, IfErr, IfOk, OnOk};
ghost use Rattle.std.specs.List.Sorted.{IsPermutation};
ghost use Rattle.lynx_report.specs.Owed.{AreTheOwed};
ghost use Rattle.lynx_world.specs.Tables.{cells_of};
ghost use Rattle.lynx_carry.specs.Carried.{IsCarriedWorld};
ghost use Rattle.lynx_carry.specs.Faults.{IsCarryFault};
ghost use Rattle.lynx_carry.specs.Naming.{by_name};

use crate::fault::CarryFault;
use crate::naming::{NamedCell, numbered_cells};
use lynx_names::{Memory, TableId, learn};
use lynx_report::owed_hops;
use lynx_set::ChainSet;
use lynx_world::World;
use std::alloc::Global;

/// Whether no chain of the world owes a hop.
fn is_nothing_owed(alloc: Global, world: &World) -> Result<bool, Memory>
    ensures { IfOk result
        (λ none. none ≡ true → AreTheOwed world.now.set world.now.list []) }
{
    let owed = owed_hops(alloc, world)?;
    Ok(owed.is_empty())
}

/// The cells with the numbers of their tables, by table, then key.
fn in_order(
    alloc: Global,
    set: &ChainSet,
    cells: &[NamedCell],
) -> Result<Vec<(TableId, u64, u64)>, CarryFault>
    ensures ok { IfOk result
        (λ sorted. IsPermutation (map (by_name set.now) sorted.items) cells.now) }
    ensures err { IfErr result (IsCarryFault set.now cells.now) }
{
    let mut triples = numbered_cells(alloc, set, cells)?;
    triples.sort_unstable();
    Ok(triples)
}

/// Whether these are the nonzero cells of the world, by table, then key.
fn are_cells(alloc: Global, world: &World, triples: &[(TableId, u64, u64)]) -> Result<bool, Memory>
    ensures { IfOk result (λ same. same ≡ true → IsPermutation (cells_of world.now) triples.now) }
{
    let cells = world.cells(alloc)?;
    Ok(cells.as_slice() == triples)
}

/// The nonzero cells of the world are by name these.
fn check_cells(alloc: Global, world: &World, cells: &[NamedCell]) -> Result<(), CarryFault>
    ensures ok { OnOk result
        (IsPermutation (map (by_name world.now.set) (cells_of world.now)) cells.now) }
    ensures err { IfErr result (IsCarryFault world.now.set cells.now) }
{
    let triples = in_order(alloc, world.set(), cells)?;
    if are_cells(alloc, world, triples.as_slice())? {
        Ok(())
    } else {
        Err(CarryFault::Differs)
    }
}

/// No hop is owed, and the cells are these. It takes n log n steps for n entries and cells.
pub(crate) fn check(alloc: Global, world: &World, cells: &[NamedCell]) -> Result<(), CarryFault>
    ensures ok { OnOk result (IsCarriedWorld world.now.set cells.now world.now) }
    ensures err { IfErr result (IsCarryFault world.now.set cells.now) }
{
    if !is_nothing_owed(alloc, world)? {
        return Err(CarryFault::Differs);
    }
    check_cells(alloc, world, cells)?;
    // The list of a world is legal for its set.
    learn(world.set());
    Ok(())
}
