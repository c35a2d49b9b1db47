//! What entries make of the cells of their server, done again.
ghost use Rattle.std.specs.Prelude.{◌≡◌, OnOk, fold};
ghost use Rattle.lynx_cells.specs.Database.{Database, applied};
ghost use Rattle.lynx_rules.specs.Tables.{after_entry};
ghost use Rattle.lynx_follow.specs.Following.{Notes};

use lynx_cells::{Cells, Changes};
use lynx_entry::Entry;
use lynx_names::Memory;
use lynx_resting::changes_of;
use lynx_set::ChainSet;
use std::alloc::Global;

/// Notes more changes behind those that are noted.
fn note(changes: &mut Changes, more: &Changes) -> Result<(), Memory>
    ensures { OnOk result ((db : Database) → applied changes.new db
        ≡ applied more.now (applied changes.old db)) }
{
    for &(table, key, value) in more.list() {
        changes.put(table, key, value)?;
    }
    Ok(())
}

/// Writes the changes, and notes them behind those that are noted.
fn write(cells: &mut Cells, changes: &mut Changes, more: &Changes) -> Result<(), Memory>
    ensures cells { OnOk result (cells.new.database ≡ applied more.now cells.old.database) }
    ensures noted { OnOk result (Notes changes.old changes.new cells.old.database
        cells.new.database) }
{
    note(changes, more)?;
    cells.stage(more)?;
    cells.apply(more);
    Ok(())
}

/// Does again what the entry did.
fn redo(
    alloc: Global,
    set: &ChainSet,
    entry: &Entry,
    cells: &mut Cells,
    changes: &mut Changes,
) -> Result<(), Memory>
    ensures cells { OnOk result (cells.new.database
        ≡ after_entry set.now cells.old.database entry.now) }
    ensures noted { OnOk result (Notes changes.old changes.new cells.old.database
        cells.new.database) }
{
    let more = changes_of(alloc, set, entry, cells)?;
    write(cells, changes, &more)
}

/// Does again what the entries did, one after another, over the cells that they found. What they
/// change is noted behind what is noted. After an error both may have some of it. Each entry takes
/// the work of its hop.
pub(crate) fn redo_all(
    alloc: Global,
    set: &ChainSet,
    entries: &[Entry],
    cells: &mut Cells,
    changes: &mut Changes,
) -> Result<(), Memory>
    ensures cells { OnOk result (cells.new.database
        ≡ fold (after_entry set.now) cells.old.database entries.now) }
    ensures noted { OnOk result (Notes changes.old changes.new cells.old.database
        cells.new.database) }
{
    for entry in entries {
        redo(alloc, set, entry, cells, changes)?;
    }
    Ok(())
}
