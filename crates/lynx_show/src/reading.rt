//! What cells hold, of stores that were read.
ghost use Rattle.std.specs.Prelude.{◌≡◌, ◌++◌, IfOk, OnOk};
ghost use Rattle.std.specs.List.{flat_map};
ghost use Rattle.lynx_show.specs.Reads.{is_within, key_lines, line_within, range_lines, store_lines};

use lynx_lines::cell_line;
use lynx_names::{Memory, TableId};
use lynx_set::ChainSet;
use lynx_store::Inspected;
use std::alloc::Global;

/// A range of keys, both ends among them.
#[derive(Clone, Copy, Debug, PartialEq, Eq)]
pub struct KeyRange {
    pub first: u64,
    pub last: u64,
}

/// Whether it is a cell of the table, with a key of the range.
fn is_within(table: TableId, range: KeyRange, cell: &(TableId, u64, u64)) -> bool
    ensures { result ≡ is_within table range cell.now }
{
    cell.0 == table && range.first <= cell.1 && cell.1 <= range.last
}

/// Adds the line of a cell, if it is one of the range.
fn put_within(
    alloc: Global,
    text: &mut Vec<u8>,
    set: &ChainSet,
    table: TableId,
    range: KeyRange,
    cell: &(TableId, u64, u64),
) -> Result<(), Memory>
    ensures { OnOk result (text.new.items
        ≡ text.old.items ++ line_within set.now table range cell.now) }
{
    if is_within(table, range, cell) {
        let line = cell_line(alloc, set.table_name(cell.0), cell.1, cell.2)?;
        text.extend_from_slice(line.as_slice())?;
    }
    Ok(())
}

/// Adds the lines of those cells of the range.
fn put_cells(
    alloc: Global,
    text: &mut Vec<u8>,
    set: &ChainSet,
    table: TableId,
    range: KeyRange,
    cells: &[(TableId, u64, u64)],
) -> Result<(), Memory>
    ensures { OnOk result (text.new.items
        ≡ text.old.items ++ flat_map (line_within set.now table range) cells.now) }
{
    for cell in cells {
        put_within(alloc, text, set, table, range, cell)?;
    }
    Ok(())
}

/// Adds the lines of the cells of a store.
fn put_store(
    alloc: Global,
    text: &mut Vec<u8>,
    set: &ChainSet,
    table: TableId,
    range: KeyRange,
    held: &Inspected,
) -> Result<(), Memory>
    ensures { OnOk result (text.new.items
        ≡ text.old.items ++ store_lines set.now table range held.now) }
{
    let cells = held.loaded.cells.list(alloc)?;
    put_cells(alloc, text, set, table, range, cells.as_slice())
}

/// A line for each cell of the table in the range that isn't 0, of these stores of the set, one
/// store after the other, in each by key. It takes the memory of all cells of a store.
pub fn range_lines(
    alloc: Global,
    set: &ChainSet,
    stores: &[Inspected],
    table: TableId,
    range: KeyRange,
) -> Result<Vec<u8>, Memory>
    ensures { IfOk result (λ text. text.items
        ≡ range_lines set.now stores.now table range) }
{
    let mut text = Vec::new(alloc);
    for held in stores {
        put_store(alloc, &mut text, set, table, range, held)?;
    }
    Ok(text)
}

/// The line of one cell, also where it is 0.
pub fn key_lines(
    alloc: Global,
    set: &ChainSet,
    stores: &[Inspected],
    table: TableId,
    key: u64,
) -> Result<Vec<u8>, Memory>
    ensures { IfOk result (λ text. text.items ≡ key_lines set.now stores.now table key) }
{
    let range = KeyRange {
        first: key,
        last: key,
    };
    let text = range_lines(alloc, set, stores, table, range)?;
    if text.is_empty() {
        return Ok(cell_line(alloc, set.table_name(table), key, 0)?);
    }
    Ok(text)
}
