//! How much servers keep, by lines.
ghost use Rattle.std.specs.Prelude.{◌≡◌, ◌++◌, ◌==◌, count_by, IfOk, OnOk};
ghost use Rattle.std.specs.String.{string_bytes};
ghost use Rattle.lynx_weave.specs.Rebuilt.{histories_in};
ghost use Rattle.lynx_audit.specs.Sizes.{cells_line, cells_lines, entries_line, entries_lines, is_of, table_text};

use lynx_entry::Entry;
use lynx_names::{Memory, TableId};
use lynx_set::ChainSet;
use std::alloc::{AllocError, Global};
use std::fmt::Write as _;

/// The line of a server's count of entries.
fn entries_line(alloc: Global, server: usize, count: usize) -> Result<String, AllocError>
    ensures { IfOk result (λ text. string_bytes text ≡ entries_line (server, count)) }
{
    let mut text = String::new(alloc);
    write!(text, "entries {server}")?;
    write!(text, " {count}")?;
    text.push_str("\n")?;
    Ok(text)
}

/// A line for each history, with how many entries it has.
pub(crate) fn entries_lines(alloc: Global, histories: &[Vec<Entry>]) -> Result<Vec<u8>, Memory>
    ensures { IfOk result (λ text. text.items ≡ entries_lines (histories_in histories.now)) }
{
    let mut text = Vec::new(alloc);
    for (server, history) in histories.iter().enumerate() {
        let line = entries_line(alloc, server, history.len())?;
        text.extend_from_slice(line.as_bytes())?;
    }
    Ok(text)
}

/// How many of the cells are of the table.
fn count_of(cells: &[(TableId, u64, u64)], table: usize) -> usize
    ensures { result ≡ count_by (is_of table) cells.now }
{
    cells.iter().filter(|cell| cell.0.index() == table).count()
}

/// Adds the line of a table's count of cells.
fn put_cells_line(
    alloc: Global,
    text: &mut Vec<u8>,
    name: &[u8],
    count: usize,
) -> Result<(), Memory>
    ensures { OnOk result (text.new.items ≡ text.old.items ++ cells_line name.now count) }
{
    text.extend_from_slice(b"cells ")?;
    text.extend_from_slice(name)?;
    let rest = format!(in alloc; " {count}\n")?;
    text.extend_from_slice(rest.as_bytes())?;
    Ok(())
}

/// Adds the line of the table of that number, where there is one.
fn put_table(
    alloc: Global,
    text: &mut Vec<u8>,
    set: &ChainSet,
    cells: &[(TableId, u64, u64)],
    table: usize,
) -> Result<(), Memory>
    ensures { OnOk result (text.new.items ≡ text.old.items ++ table_text set.now cells.now table) }
{
    if let Some(name) = set.tables().get_index(table) {
        put_cells_line(alloc, text, name.as_bytes(), count_of(cells, table))?;
    }
    Ok(())
}

/// Adds a line for each table of the set, with how many of the cells are its.
pub(crate) fn put_cells_lines(
    alloc: Global,
    text: &mut Vec<u8>,
    set: &ChainSet,
    cells: &[(TableId, u64, u64)],
) -> Result<(), Memory>
    ensures { OnOk result (text.new.items ≡ text.old.items ++ cells_lines set.now cells.now) }
{
    for table in 0..set.tables().len() {
        put_table(alloc, text, set, cells, table)?;
    }
    Ok(())
}
