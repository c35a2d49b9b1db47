//! First lines that tell no version.

use crate::flaw::{Flaw, flaw_of};
use crate::near::is_near;
use crate::site::Site;
use crate::verb::{LineKind, Verb};
use crate::word::{Mark, Marked, Word};
use std::fmt::Write;

/// Writes why the first line of the text tells no version, and gives the place.
pub(crate) fn put_bad_version(out: &mut String, site: &Site<'_>) -> Marked {
    let mark = match site.text {
        [] => {
            out.push_str("  the text is empty\n")?;
            None
        }
        [0xef, 0xbb, 0xbf, ..] => {
            out.push_str("  a UTF-8 byte order mark stands before the first word\n")?;
            out.push_str("  save the file as UTF-8 without byte order mark, or as ASCII\n")?;
            Some(Mark { start: 0, width: 3 })
        }
        [0xff, 0xfe, ..] | [0xfe, 0xff, ..] | [0, ..] | [_, 0, ..] => {
            out.push_str("  the text begins as UTF-16 does\n  save the file as ASCII or UTF-8\n")?;
            None
        }
        _ => put_line_fault(out, site)?,
    };
    out.push_str("  the first line of a set is lynx 1 or lynx 2\n")?;
    Ok(mark)
}

fn put_line_fault(out: &mut String, site: &Site<'_>) -> Marked {
    let first = site.line.word(1);
    if Verb::of(first.text).is_some_and(|verb| verb.kind() != LineKind::Set) {
        write!(out, "  {first} begins a line of scripts, ")?;
        out.push_str("and the set has to stand here\n")?;
        out.push_str("  were the files given in the wrong order? the set comes first\n")?;
        return Ok(Some(first.mark()));
    }
    match flaw_of(&site.line) {
        None | Some((Flaw::Unended, _)) => put_words_fault(out, site.line.words.as_slice(), first),
        Some((flaw, mark)) => {
            flaw.put(out)?;
            Ok(mark)
        }
    }
}

fn put_words_fault(out: &mut String, words: &[Word<'_>], first: Word<'_>) -> Marked {
    if first.text != b"lynx".as_slice() {
        write!(out, "  the text of a set doesn't begin with {first}")?;
        let is_slip = is_near(first.text, b"lynx".as_slice());
        out.push_str(if is_slip {
            "; did you mean lynx?\n"
        } else {
            "\n"
        })?;
        return Ok(Some(first.mark()));
    }
    match words {
        [_, version] => {
            write!(out, "  {version} is no version that is known")?;
            out.push_str(": there are 1 and 2\n")?;
            Ok(Some(version.mark()))
        }
        [_, _, surplus, ..] => {
            out.push_str("  nothing stands behind the version\n")?;
            Ok(Some(surplus.mark()))
        }
        _ => {
            out.push_str("  the version is left out\n")?;
            Ok(None)
        }
    }
}
