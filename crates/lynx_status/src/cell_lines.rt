//! Cells that were looked up, in lines.
ghost use Rattle.std.specs.Prelude.{◌≡◌, ◌++◌, IfOk, OnOk};
ghost use Rattle.std.specs.List.{flat_map};
ghost use Rattle.std.specs.String.{string_bytes};
ghost use Rattle.lynx_status.specs.CellLines.{cell_body, cell_line, cell_lines, cells_body, cells_lines, next_text, place_line};

use crate::cells::{CellsFigures, cell_json, cells_json, value_of};
use crate::shapes::Shape;
use lynx_lex::name::Name;
use lynx_lines::cell_line;
use lynx_names::{Memory, ServerId, Stamp};
use std::alloc::{AllocError, Global};
use std::fmt::Write as _;

fn put_cell(
    alloc: Global,
    text: &mut Vec<u8>,
    table: &Name,
    key: u64,
    value: u64,
) -> Result<(), Memory>
    ensures { OnOk result (text.new.items ≡ text.old.items ++ cell_line table.now key value) }
{
    let line = cell_line(alloc, table.as_bytes(), key, value)?;
    text.extend_from_slice(line.as_slice())?;
    Ok(())
}

fn put_cells(
    alloc: Global,
    text: &mut Vec<u8>,
    table: &Name,
    cells: &[(u64, u64)],
) -> Result<(), Memory>
    ensures { OnOk result (text.new.items
        ≡ text.old.items ++ flat_map (λ cell. cell_line table.now cell.0 cell.1) cells.now) }
{
    for (key, value) in cells {
        put_cell(alloc, text, table, *key, *value)?;
    }
    Ok(())
}

fn put_next(text: &mut String, next: Option<u64>) -> Result<(), AllocError>
    ensures { OnOk result (string_bytes text.new ≡ string_bytes text.old ++ next_text next) }
{
    if let Some(key) = next {
        write!(text, " next {key}")?;
    }
    Ok(())
}

/// The last line.
fn place_line(
    alloc: Global,
    server: ServerId,
    stamp: Stamp,
    next: Option<u64>,
) -> Result<String, AllocError>
    ensures { IfOk result (λ line. string_bytes line ≡ place_line server stamp next) }
{
    let mut line = String::new(alloc);
    write!(line, "server {server} stamp {stamp}")?;
    put_next(&mut line, next)?;
    line.push_str("\n")?;
    Ok(line)
}

/// One cell of a table: its line, and the last one.
fn cell_lines(
    alloc: Global,
    table: &Name,
    key: u64,
    found: &CellsFigures,
) -> Result<Vec<u8>, Memory>
    ensures { IfOk result (λ text. text.items ≡ cell_lines table.now key found.now) }
{
    let mut text = Vec::new(alloc);
    let value = value_of(key, found.cells.as_slice());
    put_cell(alloc, &mut text, table, key, value)?;
    let last = place_line(alloc, found.server, found.stamp, None)?;
    text.extend_from_slice(last.as_bytes())?;
    Ok(text)
}

/// Cells of a table: a line for each, and the last one.
fn cells_lines(alloc: Global, table: &Name, found: &CellsFigures) -> Result<Vec<u8>, Memory>
    ensures { IfOk result (λ text. text.items ≡ cells_lines table.now found.now) }
{
    let mut text = Vec::new(alloc);
    put_cells(alloc, &mut text, table, found.cells.as_slice())?;
    let last = place_line(alloc, found.server, found.stamp, found.next)?;
    text.extend_from_slice(last.as_bytes())?;
    Ok(text)
}

/// One cell of a table.
pub(crate) fn cell_body(
    alloc: Global,
    shape: Shape,
    table: &Name,
    key: u64,
    found: &CellsFigures,
) -> Result<Vec<u8>, Memory>
    ensures { IfOk result (λ text. text.items ≡ cell_body shape table.now key found.now) }
{
    match shape {
        Shape::Json => cell_json(alloc, table, key, found),
        Shape::Lines => cell_lines(alloc, table, key, found),
    }
}

/// Cells of a table.
pub(crate) fn cells_body(
    alloc: Global,
    shape: Shape,
    table: &Name,
    found: &CellsFigures,
) -> Result<Vec<u8>, Memory>
    ensures { IfOk result (λ text. text.items ≡ cells_body shape table.now found.now) }
{
    match shape {
        Shape::Json => cells_json(alloc, table, found),
        Shape::Lines => cells_lines(alloc, table, found),
    }
}
