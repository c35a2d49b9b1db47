//! The shapes of a chart that are lines and single texts.
ghost use Rattle.std.specs.Prelude.{◌≡◌, ◌++◌, ◌≤◌, ◌<◌, ◌^◌, OnOk};
ghost use Rattle.lynx_chart.specs.Shapes.{Arrow, Closes, Column, Cross, Head, Link, Note, Opens, Restart, shape_text, side_of};

use crate::routes::leaves_side;
use crate::spot::{Spot, left_of, right_of, top_of};
use crate::templates::{ARROW, CLOSES, COLUMN, CROSS, HEAD, LINK, NOTE, OPENS, RESTART};
use crate::values::{Value, put_filled};
use lynx_names::{Memory, ServerId};
use std::alloc::Global;

/// Writes a line of text above all, by its number.
pub(crate) fn put_note(
    alloc: Global,
    out: &mut Vec<u8>,
    number: u8,
    text: &[u8],
) -> Result<(), Memory>
    ensures { OnOk result (out.new.items ≡ out.old.items ++ shape_text (Note number text.now)) }
{
    let y = 15 * u64::from(number) + 18;
    put_filled(
        alloc,
        out,
        NOTE,
        &[Value::Number(y), Value::Fitted(88, text)],
    )
}

/// Writes the line down a server's column, to that height.
pub(crate) fn put_column(
    alloc: Global,
    out: &mut Vec<u8>,
    server: ServerId,
    bottom: u64,
) -> Result<(), Memory>
    ensures { OnOk result (out.new.items ≡ out.old.items ++ shape_text (Column server bottom)) }
{
    let x = left_of(server.number()) + 100;
    put_filled(
        alloc,
        out,
        COLUMN,
        &[Value::Number(x), Value::Number(bottom)],
    )
}

/// Writes the head of a server's column, at that height.
pub(crate) fn put_head(
    alloc: Global,
    out: &mut Vec<u8>,
    server: ServerId,
    height: u64,
) -> Result<(), Memory>
    ensures { OnOk result (out.new.items ≡ out.old.items ++ shape_text (Head server height)) }
{
    let values = [
        Value::Number(left_of(server.number()) + 100),
        Value::Number(height),
        Value::Number(u64::from(server.number())),
    ];
    put_filled(alloc, out, HEAD, &values)
}

/// Writes that the shapes of a chain follow, in that colour.
pub(crate) fn put_opens(alloc: Global, out: &mut Vec<u8>, colour: &[u8]) -> Result<(), Memory>
    ensures { OnOk result (out.new.items ≡ out.old.items ++ shape_text (Opens colour.now)) }
{
    put_filled(alloc, out, OPENS, &[Value::Plain(colour)])
}

/// Writes that they end.
pub(crate) fn put_closes(out: &mut Vec<u8>) -> Result<(), Memory>
    ensures { OnOk result (out.new.items ≡ out.old.items ++ shape_text Closes) }
{
    out.extend_from_slice(CLOSES)?;
    Ok(())
}

/// Writes an arrow of a kind from one box to another, shifted where it is drawn again, and what it
/// tells.
pub(crate) fn put_arrow(
    alloc: Global,
    out: &mut Vec<u8>,
    kind: &[u8],
    from: &Spot,
    to: &Spot,
    shift: u8,
    told: &[u8],
) -> Result<(), Memory>
    ensures { OnOk result (out.new.items ≡ out.old.items
        ++ shape_text (Arrow kind.now from.now to.now shift told.now)) }
{
    let way = Value::Route(from, to, shift);
    put_filled(
        alloc,
        out,
        ARROW,
        &[Value::Plain(kind), way, Value::Escaped(told)],
    )
}

/// The side of a box that is towards another.
fn side_of(from: &Spot, to: &Spot) -> &'static [u8]
    ensures { result.now ≡ side_of from.now to.now }
{
    if to.column.number() < from.column.number() {
        b"left"
    } else {
        b"right"
    }
}

/// Writes a cross beside the first box, on the side towards the second.
pub(crate) fn put_cross(
    alloc: Global,
    out: &mut Vec<u8>,
    from: &Spot,
    to: &Spot,
    told: &[u8],
) -> Result<(), Memory>
    ensures { OnOk result (out.new.items ≡ out.old.items
        ++ shape_text (Cross from.now to.now told.now)) }
{
    let values = [
        Value::Plain(side_of(from, to)),
        Value::Number(leaves_side(from, to)),
        Value::Number(top_of(from.row) + 31),
        Value::Escaped(told),
    ];
    put_filled(alloc, out, CROSS, &values)
}

/// Writes a line across a server's column, above that row.
pub(crate) fn put_restart(
    alloc: Global,
    out: &mut Vec<u8>,
    server: ServerId,
    row: u32,
) -> Result<(), Memory>
    ensures { OnOk result (out.new.items ≡ out.old.items ++ shape_text (Restart server row)) }
{
    let values = [
        Value::Number(left_of(server.number())),
        Value::Number(top_of(row)),
        Value::Number(u64::from(server.number())),
    ];
    put_filled(alloc, out, RESTART, &values)
}

/// Writes by its number a red line from one box to another, its cell and what it tells.
pub(crate) fn put_link<'a>(
    alloc: Global,
    out: &mut Vec<u8>,
    number: usize,
    from: &Spot,
    to: &Spot,
    cell: &'a [u8],
    told: &'a [u8],
) -> Result<(), Memory>
    ensures { OnOk result (out.new.items ≡ out.old.items
        ++ shape_text (Link number from.now to.now cell.now told.now)) }
{
    let (height, end) = (top_of(to.row), right_of(to.column.number()));
    let values = [
        Value::Escaped(told),
        Value::Number(right_of(from.column.number())),
        Value::Number(top_of(from.row) + 54),
        Value::Number(6 * (number as u64 % 4) + 10),
        Value::Number(height + 8),
        Value::Number(end),
        Value::Number(end + 4),
        Value::Number(height),
        Value::Fitted(34, cell),
    ];
    put_filled(alloc, out, LINK, &values)
}
