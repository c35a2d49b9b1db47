//! The boxes of a chart.
ghost use Rattle.std.specs.Prelude.{◌≡◌, ◌++◌, ◌≤◌, OnOk, map};
ghost use Rattle.lynx_chart.specs.Labels.{lines_of};
ghost use Rattle.lynx_chart.specs.Shapes.{Boxed, box_corner, box_line, box_lines, box_start, said, shape_text};
ghost use Rattle.lynx_chart.specs.Values.{filled, value_text};

use crate::labels::Label;
use crate::lines::put_closes;
use crate::spot::{Spot, left_of, top_of};
use crate::templates::{BOX, CORNER, LINE};
use crate::values::{Value, put_filled};
use lynx_names::Memory;
use std::alloc::Global;

/// Writes the frame of a box, and what it tells when one points at it.
fn put_box_start<'a>(
    alloc: Global,
    out: &mut Vec<u8>,
    kind: &'a [u8],
    spot: &Spot,
    label: &'a Label,
) -> Result<(), Memory>
    ensures { OnOk result (out.new.items ≡ out.old.items
        ++ box_start kind.now spot.now label.now.corner.items (lines_of label.now)) }
{
    let values = [
        Value::Plain(kind),
        Value::Number(left_of(spot.column.number()) + 8),
        Value::Number(top_of(spot.row) + 15),
        Value::TitleLine(label.deed.as_slice()),
        Value::TitleLine(label.program.as_slice()),
        Value::TitleLine(label.place.as_slice()),
        Value::TitleLine(label.results.as_slice()),
        Value::Escaped(label.corner.as_slice()),
    ];
    put_filled(alloc, out, BOX, &values)
}

/// Writes a template with these values, if there is a text for it.
fn put_said(
    alloc: Global,
    out: &mut Vec<u8>,
    text: &[u8],
    template: &[u8],
    values: &[Value<'_>],
) -> Result<(), Memory>
    ensures { OnOk result (out.new.items ≡ out.old.items
        ++ said text.now (filled template.now (map value_text values.now))) }
{
    match text {
        [] => Ok(()),
        [_, ..] => put_filled(alloc, out, template, values),
    }
}

/// Writes what stands in the corner of a box, if anything does.
fn put_corner(alloc: Global, out: &mut Vec<u8>, corner: &[u8]) -> Result<(), Memory>
    ensures { OnOk result (out.new.items ≡ out.old.items ++ box_corner corner.now) }
{
    put_said(alloc, out, corner, CORNER, &[Value::Escaped(corner)])
}

/// Writes a line in a box, at that height, where there is one.
fn put_box_line(alloc: Global, out: &mut Vec<u8>, height: u8, line: &[u8]) -> Result<(), Memory>
    ensures { OnOk result (out.new.items ≡ out.old.items ++ box_line height line.now) }
{
    let height = Value::Number(u64::from(height));
    put_said(alloc, out, line, LINE, &[height, Value::Fitted(27, line)])
}

/// Writes the lines in a box.
fn put_box_lines(alloc: Global, out: &mut Vec<u8>, label: &Label) -> Result<(), Memory>
    ensures { OnOk result (out.new.items ≡ out.old.items ++ box_lines 0 (lines_of label.now)) }
{
    put_box_line(alloc, out, 0, label.deed.as_slice())?;
    put_box_line(alloc, out, 14, label.program.as_slice())?;
    put_box_line(alloc, out, 28, label.place.as_slice())?;
    put_box_line(alloc, out, 42, label.results.as_slice())?;
    Ok(())
}

/// Writes a box of a kind at its spot, with a label.
pub(crate) fn put_box<'a>(
    alloc: Global,
    out: &mut Vec<u8>,
    kind: &'a [u8],
    spot: &Spot,
    label: &'a Label,
) -> Result<(), Memory>
    ensures { OnOk result (out.new.items ≡ out.old.items
        ++ shape_text (Boxed kind.now spot.now label.now.corner.items (lines_of label.now))) }
{
    put_box_start(alloc, out, kind, spot, label)?;
    put_corner(alloc, out, label.corner.as_slice())?;
    put_box_lines(alloc, out, label)?;
    put_closes(out)?;
    Ok(())
}
