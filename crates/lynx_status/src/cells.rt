//! Cells that were looked up, in JSON.
ghost use Rattle.std.specs.Prelude.{◌≡◌, ◌++◌, IfOk, OnOk};
ghost use Rattle.std.specs.String.{string_bytes};
ghost use Rattle.lynx_status.specs.Cells.{cell_json, cells_json, list_json, listed_json, next_json, pair_json, place_json, table_head, value_of};

use lynx_lex::name::Name;
use lynx_names::{Memory, ServerId, Stamp};
use std::alloc::{AllocError, Global};
use std::fmt::Write as _;

/// Cells of a table at one server, all of one moment.
#[derive(Debug, Drop)]
pub struct CellsFigures {
    pub server: ServerId,
    /// The stamp of the server's last entry then, 0 where it had none.
    pub stamp: Stamp,
    /// Those that aren't 0, by key: each a key and its value.
    pub cells: Vec<(u64, u64)>,
    /// From which key one goes on, None where that was all.
    pub next: Option<u64>,
}

/// What there is of cells that are looked up.
#[derive(Debug, Drop)]
pub enum CellsFound {
    /// The set has no such table.
    NoTable,
    /// The server that has them stopped, and something that it did isn't settled.
    Stopped,
    Found(CellsFigures),
}

fn put_table(text: &mut String, table: &Name) -> Result<(), AllocError>
    ensures { OnOk result (string_bytes text.new ≡ string_bytes text.old ++ table_head table.now) }
{
    write!(text, "{{\"table\":\"{table}\"")?;
    Ok(())
}

fn put_place(text: &mut String, server: ServerId, stamp: Stamp) -> Result<(), AllocError>
    ensures { OnOk result (string_bytes text.new
        ≡ string_bytes text.old ++ place_json server stamp) }
{
    write!(text, ",\"server\":\"{server}\",\"stamp\":\"{stamp}\"")?;
    Ok(())
}

fn put_pair(text: &mut String, key: u64, value: u64) -> Result<(), AllocError>
    ensures { OnOk result (string_bytes text.new ≡ string_bytes text.old ++ pair_json key value) }
{
    write!(text, "\"key\":\"{key}\",\"value\":\"{value}\"")?;
    Ok(())
}

fn put_listed(text: &mut String, cell: &(u64, u64)) -> Result<(), AllocError>
    ensures { OnOk result (string_bytes text.new ≡ string_bytes text.old ++ listed_json cell.now) }
{
    text.push_str("{")?;
    put_pair(text, cell.0, cell.1)?;
    text.push_str("}")?;
    Ok(())
}

/// Adds cells with commas between them.
fn put_list(text: &mut String, cells: &[(u64, u64)]) -> Result<(), AllocError>
    ensures { OnOk result (string_bytes text.new ≡ string_bytes text.old ++ list_json cells.now) }
{
    let Some((first, rest)) = cells.split_first() else {
        return Ok(());
    };
    put_listed(text, first)?;
    for cell in rest {
        text.push_str(",")?;
        put_listed(text, cell)?;
    }
    Ok(())
}

fn put_next(text: &mut String, next: Option<u64>) -> Result<(), AllocError>
    ensures { OnOk result (string_bytes text.new ≡ string_bytes text.old ++ next_json next) }
{
    if let Some(key) = next {
        write!(text, ",\"next\":\"{key}\"")?;
    }
    Ok(())
}

/// What the cell of a key holds among these.
pub(crate) fn value_of(key: u64, cells: &[(u64, u64)]) -> u64
    ensures { result ≡ value_of key cells.now }
{
    for cell in cells {
        if cell.0 == key {
            return cell.1;
        }
    }
    0
}

/// One cell of a table: one line of JSON, in which numbers are strings.
pub fn cell_json(
    alloc: Global,
    table: &Name,
    key: u64,
    found: &CellsFigures,
) -> Result<Vec<u8>, Memory>
    ensures { IfOk result (λ text. text.items ≡ cell_json table.now key found.now) }
{
    let mut text = String::new(alloc);
    put_table(&mut text, table)?;
    text.push_str(",")?;
    put_pair(&mut text, key, value_of(key, found.cells.as_slice()))?;
    put_place(&mut text, found.server, found.stamp)?;
    text.push_str("}\n")?;
    Ok(text.into_bytes())
}

/// Cells of a table: one line of JSON, in which numbers are strings.
pub fn cells_json(alloc: Global, table: &Name, found: &CellsFigures) -> Result<Vec<u8>, Memory>
    ensures { IfOk result (λ text. text.items ≡ cells_json table.now found.now) }
{
    let mut text = String::new(alloc);
    put_table(&mut text, table)?;
    put_place(&mut text, found.server, found.stamp)?;
    text.push_str(",\"cells\":[")?;
    put_list(&mut text, found.cells.as_slice())?;
    text.push_str("]")?;
    put_next(&mut text, found.next)?;
    text.push_str("}\n")?;
    Ok(text.into_bytes())
}
