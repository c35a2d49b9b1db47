//! Values, and how they are written into templates.
ghost use Rattle.std.specs.Prelude.{◌≡◌, ◌++◌, ◌≤◌, OnOk, drop, map};
ghost use Rattle.lynx_chart.specs.Values.{filled, first_of, value_text};

use crate::routes::put_route;
use crate::spot::Spot;
use crate::texts::{put_escaped, put_fitted, put_title_line};
use lynx_names::Memory;
use lynx_text::printing::put_number;
use std::alloc::Global;

/// What is written in the gap of a template.
#[derive(Clone, Copy)]
pub(crate) enum Value<'a> {
    /// A number in decimal.
    Number(u64),
    /// Bytes as they are.
    Plain(&'a [u8]),
    /// A text.
    Escaped(&'a [u8]),
    /// At most that many bytes of a text.
    Fitted(usize, &'a [u8]),
    /// A line of what a box tells, where there is one.
    TitleLine(&'a [u8]),
    /// The way of an arrow from one box to another, shifted where it is drawn again.
    Route(&'a Spot, &'a Spot, u8),
}

/// Writes a value.
fn put_value(alloc: Global, out: &mut Vec<u8>, value: &Value<'_>) -> Result<(), Memory>
    ensures { OnOk result (out.new.items ≡ out.old.items ++ value_text value.now) }
{
    match *value {
        Value::Number(number) => put_number(alloc, out, number),
        Value::Plain(bytes) => {
            out.extend_from_slice(bytes)?;
            Ok(())
        }
        Value::Escaped(text) => put_escaped(out, text),
        Value::Fitted(most, text) => put_fitted(out, most, text),
        Value::TitleLine(line) => put_title_line(out, line),
        Value::Route(from, to, shift) => put_route(alloc, out, from, to, shift),
    }
}

/// Writes the value at a place, if there is one.
fn put_value_at(
    alloc: Global,
    out: &mut Vec<u8>,
    values: &[Value<'_>],
    place: usize,
) -> Result<(), Memory>
    ensures { OnOk result (out.new.items ≡ out.old.items
        ++ first_of (drop place (map value_text values.now))) }
{
    match values.get(place) {
        Some(value) => put_value(alloc, out, value),
        None => Ok(()),
    }
}

/// Writes a template, with the values in its gaps, one after another.
pub(crate) fn put_filled(
    alloc: Global,
    out: &mut Vec<u8>,
    template: &[u8],
    values: &[Value<'_>],
) -> Result<(), Memory>
    ensures { OnOk result (out.new.items ≡ out.old.items
        ++ filled template.now (map value_text values.now)) }
{
    let mut place = 0;
    for byte in template {
        if *byte == b'%' {
            put_value_at(alloc, out, values, place)?;
            place += 1;
        } else {
            out.push(*byte)?;
        }
    }
    Ok(())
}
