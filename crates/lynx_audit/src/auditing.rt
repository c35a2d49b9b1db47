//! An audit of stores that nobody has open.
ghost use Rattle.std.specs.Prelude.{◌≡◌, ◌++◌, ℕ, List, IfErr, IfOk, OnOk, length};
ghost use Rattle.std.specs.List.Sorted.{IsPermutation};
ghost use Rattle.lynx_world.specs.Tables.{cells_of};
ghost use Rattle.lynx_audit.specs.Audits.{BlamesRight, HasAudited, IsKeptWorld};
ghost use Rattle.lynx_audit.specs.Sizes.{cells_lines};

use crate::histories::histories_of;
use crate::sizes::{entries_lines, put_cells_lines};
use crate::weaving::woven;
use lynx_keep::Keeper;
use lynx_lines::write_bytes;
use lynx_names::Memory;
use lynx_order::Explained;
use lynx_service::{ServeFault, last_words};
use lynx_set::ChainSet;
use lynx_world::World;
use std::alloc::Global;
use std::io::Write;

/// The world of what these keepers keep, one for each server of the set. The faults are those of
/// [`crate::audit`].
pub fn kept_world<K: Keeper + Drop>(
    alloc: Global,
    set: &ChainSet,
    keepers: Vec<K>,
) -> Result<World, ServeFault>
    requires { length keepers.items ≡ set.now.servers }
    ensures ok { IfOk result (λ world. IsKeptWorld K.terms set.now keepers.items world) }
    ensures err { IfErr result (BlamesRight K.terms set.now keepers.items) }
{
    let histories = histories_of(alloc, set, keepers)?;
    woven(alloc, set, histories)
}

/// Adds the lines of how many cells the tables of a world have.
fn put_cells(alloc: Global, text: &mut Vec<u8>, world: &World) -> Result<(), Memory>
    ensures { OnOk result ((cells : List (ℕ × ℕ × ℕ)) × IsPermutation (cells_of world.now) cells
        × (text.new.items ≡ text.old.items ++ cells_lines world.now.set cells)) }
{
    let cells = world.cells(alloc)?;
    put_cells_lines(alloc, text, world.set(), cells.as_slice())?;
    Ok(())
}

/// Audits what these keepers keep, one for each server of the set, as the end of a service does:
/// opens each server over what its keeper keeps, weaves all histories to one world, looks for the
/// order of whole chains that explains it, and writes `closed` and the line of that order, or of a
/// cycle, a line `entries SERVER COUNT` for each server, and for each table a line
/// `cells TABLE COUNT` of its cells that aren't 0. Nothing is written before all of it is known.
/// The set is not judged.
///
/// A store that no server opens is damaged, and histories that no one run left together are a
/// mismatch. It takes the memory of all histories, and about the time that opening and closing a
/// service over them takes.
pub fn audit<K: Keeper + Drop, W: Write>(
    alloc: Global,
    set: &ChainSet,
    keepers: Vec<K>,
    writer: &mut W,
) -> Result<Explained, ServeFault>
    requires { length keepers.items ≡ set.now.servers }
    ensures ok { IfOk result (HasAudited K.terms set.now keepers.items
        (W.contents writer.old) (W.contents writer.new)) }
    ensures err { IfErr result (BlamesRight K.terms set.now keepers.items) }
{
    let histories = histories_of(alloc, set, keepers)?;
    let mut sizes = entries_lines(alloc, histories.as_slice())?;
    let world = woven(alloc, set, histories)?;
    put_cells(alloc, &mut sizes, &world)?;
    // Nothing but memory is ever wanting there.
    let Ok((explained, mut lines)) = last_words(alloc, &world) else {
        return Err(ServeFault::Memory);
    };
    lines.extend_from_slice(sizes.as_slice())?;
    write_bytes(writer, lines.as_slice())?;
    Ok(explained)
}
