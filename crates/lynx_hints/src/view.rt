//! How a line and the mark under it are shown.

ghost use Rattle.std.specs.Prelude.{◌≤◌, ◌+◌};
ghost use Rattle.lynx_hints.specs.declared.view.TheConstants.{MAX_SHOWN};

use crate::word::{Mark, Written, part_of, shown_byte};

/// As many characters of a line are shown, at most.
const MAX_SHOWN: usize = 100;

/// As many bytes of a longer line are shown, between `..` and `..`.
const MAX_WINDOW: usize = 96;

/// As many bytes of a longer line are shown before the mark.
const BEFORE_MARK: usize = 40;

/// The part of a line that is shown.
#[derive(Clone, Copy)]
struct View {
    start: usize,
    end: usize,
}

/// The whole line, or a part round the mark.
fn view_of(length: usize, mark: Option<Mark>) -> View
    ensures few { result.end ≤ result.start + MAX_SHOWN }
    ensures within { result.end ≤ length }
    ensures forward { result.start ≤ result.end }
{
    if length <= MAX_SHOWN {
        return View {
            start: 0,
            end: length,
        };
    }
    let wanted = match mark {
        Some(mark) => mark.start.saturating_sub(BEFORE_MARK),
        None => 0,
    };
    let start = wanted.min(length.saturating_sub(MAX_WINDOW));
    View {
        start,
        end: start.saturating_add(MAX_WINDOW),
    }
}

/// Writes a line behind what says its place, which has that many characters, and the mark under it.
pub(crate) fn put_line(
    out: &mut String,
    line: &[u8],
    mark: Option<Mark>,
    before: usize,
) -> Written {
    if line.is_empty() {
        return out.push_str("\n");
    }
    let view = view_of(line.len(), mark);
    put_view(out, line, view)?;
    match mark {
        Some(mark) => put_mark(out, view, mark, before),
        None => Ok(()),
    }
}

fn put_view(out: &mut String, line: &[u8], view: View) -> Written {
    out.push_str(" ")?;
    if view.start > 0 {
        out.push_str("..")?;
    }
    for byte in part_of(line, view.start, view.end) {
        out.push(shown_byte(*byte))?;
    }
    if view.end < line.len() {
        out.push_str("..")?;
    }
    out.push_str("\n")
}

fn put_mark(out: &mut String, view: View, mark: Mark, before: usize) -> Written {
    let dots = if view.start > 0 { 2 } else { 0 };
    let indent = before
        .saturating_add(1)
        .saturating_add(dots)
        .saturating_add(mark.start.saturating_sub(view.start));
    let room = view.end.saturating_sub(mark.start).max(1);
    put_many(out, ' ', indent)?;
    put_many(out, '^', mark.width.max(1).min(room))?;
    out.push_str("\n")
}

fn put_many(out: &mut String, shown: char, count: usize) -> Written {
    for _ in 0..count {
        out.push(shown)?;
    }
    Ok(())
}
