//! What stands round the entries of a chart: its notes, its columns and their heads.
ghost use Rattle.std.specs.Prelude.{◌≡◌, ◌++◌, ◌≤◌, ◌<◌, ◌^◌, ◌+◌, ◌/◌, IfOk, OnOk};
ghost use Rattle.std.specs.List.{flat_map, range_with_len};
ghost use Rattle.lynx_names.specs.declared.limits.TheConstants.{MAX_SERVERS};
ghost use Rattle.lynx_chart.specs.Frames.{block_heads, columns, frame, heads, height_of, last_line, lower_heads, notes, saying, upper_heads, width_of};
ghost use Rattle.lynx_chart.specs.Shapes.{drawn};

use crate::captions::{CYCLE_WORDS, LEGEND_FIRST, LEGEND_SECOND, LEGEND_THIRD, ORDER_WORDS};
use crate::lines::{put_column, put_head, put_note};
use crate::places::{chains_of, word_of};
use crate::spot::top_of;
use lynx_lines::push_chains;
use lynx_names::{Memory, ServerId};
use lynx_order::Explained;
use std::alloc::Global;

/// The last line of the run.
pub(crate) fn last_line(alloc: Global, explained: &Explained) -> Result<Vec<u8>, Memory>
    ensures { IfOk result (λ line. line.items ≡ last_line explained.now) }
{
    let mut text = String::from_str(alloc, word_of(explained))?;
    push_chains(&mut text, chains_of(explained))?;
    Ok(text.into_bytes())
}

/// What it means.
fn saying(explained: &Explained) -> &'static [u8]
    ensures { result.now ≡ saying explained.now }
{
    match explained {
        Explained::Order(_) => ORDER_WORDS,
        Explained::Cycle(_) => CYCLE_WORDS,
    }
}

/// Writes what stands above the chart.
pub(crate) fn put_notes(
    alloc: Global,
    out: &mut Vec<u8>,
    explained: &Explained,
) -> Result<(), Memory>
    ensures { OnOk result (out.new.items ≡ out.old.items ++ drawn (notes explained.now)) }
{
    let last = last_line(alloc, explained)?;
    put_note(alloc, out, 0, last.as_slice())?;
    put_note(alloc, out, 1, saying(explained))?;
    put_note(alloc, out, 2, LEGEND_FIRST)?;
    put_note(alloc, out, 3, LEGEND_SECOND)?;
    put_note(alloc, out, 4, LEGEND_THIRD)?;
    Ok(())
}

/// The width of a chart of so many servers.
pub(crate) fn width_of(servers: u8) -> u64
    ensures { result ≡ width_of servers }
{
    (264 * u64::from(servers) + 24).max(640)
}

/// The height of a chart of so many rows.
pub(crate) fn height_of(rows: u32) -> u64
    ensures { result ≡ height_of rows }
{
    top_of(rows) + 28
}

/// Writes a column for each server.
fn put_columns(alloc: Global, out: &mut Vec<u8>, servers: u8, rows: u32) -> Result<(), Memory>
    requires { servers ≤ MAX_SERVERS }
    ensures { OnOk result (out.new.items ≡ out.old.items ++ drawn (columns servers rows)) }
{
    let bottom = top_of(rows);
    for number in 0..servers {
        put_column(alloc, out, ServerId::at(number), bottom)?;
    }
    Ok(())
}

/// Writes the heads of the columns, at that height.
fn put_heads(alloc: Global, out: &mut Vec<u8>, servers: u8, height: u64) -> Result<(), Memory>
    requires { servers ≤ MAX_SERVERS }
    ensures { OnOk result (out.new.items ≡ out.old.items ++ drawn (heads servers height)) }
{
    for number in 0..servers {
        put_head(alloc, out, ServerId::at(number), height)?;
    }
    Ok(())
}

/// Writes the heads above forty rows.
fn put_block_heads(alloc: Global, out: &mut Vec<u8>, servers: u8, block: u32) -> Result<(), Memory>
    requires { servers ≤ MAX_SERVERS }
    ensures { OnOk result (out.new.items ≡ out.old.items ++ drawn (block_heads servers block)) }
{
    put_heads(alloc, out, servers, 4188 * u64::from(block) + 108)
}

/// Writes the heads above each forty rows.
fn put_upper_heads(alloc: Global, out: &mut Vec<u8>, servers: u8, rows: u32) -> Result<(), Memory>
    requires { servers ≤ MAX_SERVERS }
    ensures { OnOk result (out.new.items ≡ out.old.items ++ drawn (upper_heads servers rows)) }
{
    for block in 0..rows / 40 + 1 {
        put_block_heads(alloc, out, servers, block)?;
    }
    Ok(())
}

/// Writes the heads at the bottom, of a chart that is long.
fn put_lower_heads(alloc: Global, out: &mut Vec<u8>, servers: u8, rows: u32) -> Result<(), Memory>
    requires { servers ≤ MAX_SERVERS }
    ensures { OnOk result (out.new.items ≡ out.old.items ++ drawn (lower_heads servers rows)) }
{
    if 10 < rows {
        return put_heads(alloc, out, servers, top_of(rows) + 18);
    }
    Ok(())
}

/// Writes the columns and their heads.
pub(crate) fn put_frame(
    alloc: Global,
    out: &mut Vec<u8>,
    servers: u8,
    rows: u32,
) -> Result<(), Memory>
    requires { servers ≤ MAX_SERVERS }
    ensures { OnOk result (out.new.items ≡ out.old.items ++ drawn (frame servers rows)) }
{
    put_columns(alloc, out, servers, rows)?;
    put_upper_heads(alloc, out, servers, rows)?;
    put_lower_heads(alloc, out, servers, rows)?;
    Ok(())
}
