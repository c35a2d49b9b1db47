//! The lines of a store.
ghost use Rattle.std.specs.Prelude.{◌≡◌, ◌++◌, IfOk, OnOk};
ghost use Rattle.lynx_show.specs.Listing.{cell_lines, entry_lines, head_lines, listing_of, told_entry};
ghost use Rattle.lynx_cells.specs.Triples.{triples_of};
ghost use Rattle.lynx_keep.specs.Kept.{kept_in};
ghost use Rattle.lynx_lex.specs.Lines.{with_feed};
ghost use Rattle.std.specs.FinMap as map;

use crate::detail::Detail;
use lynx_entry::Entry;
use lynx_lines::{cell_line, entry_line, full_entry_line};
use lynx_names::{Memory, ServerId, TableId};
use lynx_set::ChainSet;
use lynx_store::Inspected;
use std::alloc::Global;

/// The server's line, and that of how many entries it has.
fn put_head(alloc: Global, text: &mut Vec<u8>, server: ServerId, count: usize) -> Result<(), Memory>
    ensures { OnOk result (text.new.items ≡ text.old.items ++ head_lines server count) }
{
    let number = server.number();
    let first = format!(in alloc; "server {number}\n")?;
    text.extend_from_slice(first.as_bytes())?;
    let second = format!(in alloc; "entries {count}\n")?;
    text.extend_from_slice(second.as_bytes())?;
    Ok(())
}

/// The line of an entry.
fn told_entry(
    alloc: Global,
    detail: Detail,
    set: &ChainSet,
    entry: &Entry,
) -> Result<Vec<u8>, Memory>
    ensures { IfOk result (λ line. line.items
        ≡ with_feed (told_entry detail set.now entry.now)) }
{
    match detail {
        Detail::Brief => Ok(entry_line(alloc, entry)?.into_bytes()),
        Detail::Full => Ok(full_entry_line(alloc, set, entry)?),
    }
}

/// A line for each entry.
fn put_entries(
    alloc: Global,
    text: &mut Vec<u8>,
    detail: Detail,
    set: &ChainSet,
    entries: &[Entry],
) -> Result<(), Memory>
    ensures { OnOk result (text.new.items
        ≡ text.old.items ++ entry_lines detail set.now entries.now) }
{
    for entry in entries {
        let line = told_entry(alloc, detail, set, entry)?;
        text.extend_from_slice(line.as_slice())?;
    }
    Ok(())
}

/// A line for each cell.
fn put_cells(
    alloc: Global,
    text: &mut Vec<u8>,
    set: &ChainSet,
    cells: &[(TableId, u64, u64)],
) -> Result<(), Memory>
    ensures { OnOk result (text.new.items ≡ text.old.items ++ cell_lines set.now cells.now) }
{
    for (table, key, value) in cells {
        let line = cell_line(alloc, set.table_name(*table), *key, *value)?;
        text.extend_from_slice(line.as_slice())?;
    }
    Ok(())
}

/// All lines of a store.
pub(crate) fn listing(
    alloc: Global,
    held: &Inspected,
    detail: Detail,
    cells: &[(TableId, u64, u64)],
) -> Result<Vec<u8>, Memory>
    requires { cells.now ≡ triples_of (map.entries held.now.loaded.cells.database) }
    ensures { IfOk result (λ text. text.items
        ≡ listing_of detail held.now.set held.now.server (kept_in held.now.loaded)) }
{
    let mut text = Vec::new(alloc);
    let entries = held.loaded.entries.as_slice();
    put_head(alloc, &mut text, held.server, entries.len())?;
    put_entries(alloc, &mut text, detail, &held.set, entries)?;
    put_cells(alloc, &mut text, &held.set, cells)?;
    Ok(text)
}
