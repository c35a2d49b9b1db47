//! Inputs without a line `--`.

ghost use Rattle.std.specs.Prelude.{ℕ, List, ◌≡◌, ◌++◌, IfOk, string_bytes};
ghost use Rattle.lynx_hints.specs.Heads.{separator_told};

use crate::line::first_line;
use crate::view::put_line;
use crate::word::{Written, part_of};
use lynx_lex::lines::next_line;
use std::alloc::{AllocError, Global};
use std::fmt::Write;

/// Of an input without a line that is exactly `--`: the first line that looks like one, if any
/// does, and what has to stand there; each line with two spaces before it.
pub fn separator_hint(alloc: Global, input: &[u8]) -> Result<String, AllocError>
    ensures told { IfOk result (λ lines. (before : List ℕ) × (string_bytes lines
        ≡ before ++ separator_told)) }
{
    let mut out = String::new(alloc);
    put_like(alloc, &mut out, input)?;
    out.push_str("  a line that is exactly -- stands between the set and the script\n")?;
    Ok(out)
}

/// Writes the first line of the input that looks like one that is exactly `--`, if any does.
fn put_like(alloc: Global, out: &mut String, input: &[u8]) -> Written {
    let mut rest = input;
    for number in 1..input.len().saturating_add(2) {
        let line = first_line(rest).0;
        if let Some(likeness) = likeness_of(line) {
            let place = format!(in alloc; "  standard input:{number}:")?;
            out.push_str(place.as_str())?;
            put_line(out, line, None, 0)?;
            return out.push_str(likeness);
        }
        let Some((_, after)) = next_line(rest) else {
            return Ok(());
        };
        rest = after;
    }
    Ok(())
}

/// What makes a line look so, if anything does.
fn likeness_of(line: &[u8]) -> Option<&'static str> {
    let start = line.iter().position(|byte| !is_beside(*byte))?;
    let dashes = line.iter().filter(|byte| !is_beside(**byte)).count();
    let end = start.saturating_add(dashes);
    if dashes < 2 || part_of(line, start, end).iter().any(|byte| *byte != b'-') {
        None
    } else if dashes > 2 {
        Some("  more than two dashes stand here\n")
    } else if line.last() == Some(&b'\r') {
        Some(
            "  a carriage return stands behind the dashes: lines end with LF alone, and not with CR LF\n",
        )
    } else {
        Some("  spaces or tabs stand beside the dashes\n")
    }
}

/// Whether the byte is one that may stand unseen beside dashes.
fn is_beside(byte: u8) -> bool {
    byte == b' ' || byte == b'\t' || byte == b'\r'
}
