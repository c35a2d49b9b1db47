//! Rows as entries and cells.
ghost use Rattle.std.specs.Prelude.{◌≡◌, ◌≢◌, ◌∷◌, ◌<◌, ◌^◌, [], ℕ, length, pos, IfNone, IfOk, IfSome};
ghost use Rattle.std.specs.List.{AllByRecursion};
ghost use Rattle.sqlite_value.specs.declared.value.Value.TheVariants.{Int, Blob};
ghost use Rattle.lynx_entry.specs.declared.entry.Entry.{Entry};
ghost use Rattle.lynx_entry.specs.Entry.{History};
ghost use Rattle.lynx_keep.specs.Stored.{encoding_of, HasEncoding};
ghost use Rattle.lynx_sql.specs.Rows.{shown_entries};
ghost use Rattle.lynx_sql.specs.Shown.{AreCells, FitsRow, cells_in, row_of, with_rows};
ghost use Rattle.std.specs.FinMap as finite;
ghost use Rattle.lynx_store.specs.Stored.{bodies_of};

use crate::body::entry_of;
use crate::columns::{is_number, number_in, table_in};
use lynx_cells::{Cells, Changes};
use lynx_entry::Entry;
use lynx_names::{Memory, TableId};
use sqlite::Row;
use sqlite::types::ValueRef;
use std::alloc::Global;

/// The entry of a row, None where the row isn't that of an entry at the place.
pub fn entry_at(alloc: Global, row: &Row, place: u32) -> Result<Option<Entry>, Memory>
    ensures some { IfOk result (λ found. IfSome found (λ entry.
        (row.now ≡ Int (pos place) ∷ Blob (encoding_of entry) ∷ []) × HasEncoding entry)) }
    ensures none { IfOk result (λ found. IfNone found ((entry : Entry) → HasEncoding entry
        → row.now ≢ Int (pos place) ∷ Blob (encoding_of entry) ∷ [])) }
{
    if row.column_count() != 2 || !is_number(row, 0, place) {
        return Ok(None);
    }
    match row.get_ref(1) {
        Ok(ValueRef::Blob(body)) => entry_of(alloc, body),
        _ => Ok(None),
    }
}

/// The entries of the rows, fewer than 2^32. None where a row isn't that of an entry at its place,
/// or there are more.
pub fn entries_of(alloc: Global, rows: &[Row]) -> Result<Option<Vec<Entry>>, Memory>
    ensures some { IfOk result (λ found. IfSome found (λ entries.
        (rows.now ≡ shown_entries 0 (bodies_of entries.items))
        × AllByRecursion HasEncoding entries.items)) }
    ensures few { IfOk result (λ found. IfSome found (λ entries. length entries.items < 2 ^ 32)) }
    ensures none { IfOk result (λ found. IfNone found ((entries : History)
        → length entries < 2 ^ 32 → AllByRecursion HasEncoding entries
        → rows.now ≢ shown_entries 0 (bodies_of entries))) }
{
    let mut entries = Vec::new(alloc);
    let mut place = 0u32;
    for row in rows {
        let Some(entry) = entry_at(alloc, row, place)? else {
            return Ok(None);
        };
        if place == u32::MAX {
            return Ok(None);
        }
        entries.push(entry)?;
        place += 1;
    }
    Ok(Some(entries))
}

/// The cell of a row, None where the row isn't that of a cell that isn't 0.
fn cell_of(row: &Row) -> Option<(TableId, u64, u64)>
    ensures some { IfSome result (λ cell. (row.now ≡ row_of cell) × FitsRow cell) }
    ensures none { IfNone result ((cell : ℕ × ℕ × ℕ) → FitsRow cell → row.now ≢ row_of cell) }
{
    if row.column_count() != 3 {
        return None;
    }
    let cell = (table_in(row, 0)?, number_in(row, 1)?, number_in(row, 2)?);
    if cell.2 == 0 { None } else { Some(cell) }
}

/// The values of the rows, None where a row isn't that of a cell that isn't 0.
fn changes_of(alloc: Global, rows: &[Row]) -> Result<Option<Changes>, Memory>
    ensures some { IfOk result (λ found. IfSome found (λ changes. AreCells rows.now
        × (changes ≡ with_rows rows.now finite.empty))) }
    ensures none { IfOk result (λ found. IfNone found (AreCells rows.now → ⊥)) }
{
    let mut changes = Changes::new(alloc);
    for row in rows {
        let Some(cell) = cell_of(row) else {
            return Ok(None);
        };
        changes.put(cell.0, cell.1, cell.2)?;
    }
    Ok(Some(changes))
}

/// The cells of the rows, None where a row isn't that of a cell that isn't 0.
pub fn cells_of(alloc: Global, rows: &[Row]) -> Result<Option<Cells>, Memory>
    ensures some { IfOk result (λ found. IfSome found (λ cells. AreCells rows.now
        × (cells.database ≡ cells_in rows.now))) }
    ensures none { IfOk result (λ found. IfNone found (AreCells rows.now → ⊥)) }
{
    let Some(changes) = changes_of(alloc, rows)? else {
        return Ok(None);
    };
    let mut cells = Cells::new(alloc);
    cells.stage(&changes)?;
    cells.apply(&changes);
    Ok(Some(cells))
}
