//! Copies of cells.
ghost use Rattle.std.specs.Prelude.{◌≡◌, IfOk};
ghost use Rattle.lynx_cells.specs.Database.{Database, applied, written};
ghost use Rattle.lynx_cells.specs.Triples.{entries_of};

use lynx_cells::{Cells, Changes};
use lynx_names::{Memory, TableId};
use std::alloc::Global;

/// Changes that write these values, one after another.
fn changes_of(alloc: Global, writes: &[(TableId, u64, u64)]) -> Result<Changes, Memory>
    ensures { IfOk result (λ changes. (db : Database) → applied changes db
        ≡ written (entries_of writes.now) db) }
{
    let mut changes = Changes::new(alloc);
    for &(table, key, value) in writes {
        changes.put(table, key, value)?;
    }
    Ok(changes)
}

/// Cells that hold the same.
pub(crate) fn copy_cells(alloc: Global, cells: &Cells) -> Result<Cells, Memory>
    ensures { IfOk result (λ copied. copied.database ≡ cells.now.database) }
{
    let list = cells.list(alloc)?;
    let changes = changes_of(alloc, list.as_slice())?;
    let mut copied = Cells::new(alloc);
    copied.stage(&changes)?;
    copied.apply(&changes);
    Ok(copied)
}
