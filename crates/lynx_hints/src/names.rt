//! Names in a sentence.

use crate::before::{Declared, find};
use crate::near::is_near;
use crate::word::{Word, Written};
use lynx_lex::Name;
use std::fmt::Write;

/// A shorter name is nearly every other short one.
const MIN_NEAR: usize = 3;

/// As many names are told, at most.
const MAX_TOLD: usize = 10;

/// Writes names, the first ones where there are many.
pub(crate) fn put_names(out: &mut String, names: &[Declared<'_>]) -> Written {
    if names.is_empty() {
        return out.push_str("none");
    }
    for (place, name) in names.iter().enumerate() {
        if place < MAX_TOLD {
            let comma = if place > 0 { ", " } else { "" };
            write!(out, "{comma}{}", name.word)?;
        }
    }
    if names.len() > MAX_TOLD {
        write!(out, " and {} more", names.len().saturating_sub(MAX_TOLD))?;
    }
    Ok(())
}

/// Writes that there is none of that name among these.
pub(crate) fn put_missing(
    out: &mut String,
    what: &str,
    word: Word<'_>,
    names: &[Declared<'_>],
) -> Written {
    write!(out, "  no {what} is named {word}; ")?;
    if names.is_empty() {
        return out.push_str("none is declared\n");
    }
    write!(out, "{what}s: ")?;
    put_names(out, names)?;
    put_near(out, near_of(word, names))
}

/// Writes these names behind a colon, if there are any.
pub(crate) fn put_listed(out: &mut String, names: &[Name]) -> Written {
    for (place, name) in names.iter().enumerate() {
        let text = name.as_bytes();
        let word = Word { text, start: 0 };
        write!(out, "{}{word}", if place > 0 { ", " } else { ": " })?;
    }
    Ok(())
}

/// Which of these the name nearly is, if it is one and isn't too short for that.
pub(crate) fn near_of<'a>(word: Word<'_>, names: &[Declared<'a>]) -> Option<Word<'a>> {
    if word.text.len() < MIN_NEAR {
        return None;
    }
    let near = names.iter().find(|name| is_near(word.text, name.word.text));
    near.map(|name| name.word)
}

/// Writes which name is meant, where one is nearly.
pub(crate) fn put_near(out: &mut String, near: Option<Word<'_>>) -> Written {
    match near {
        Some(near) => writeln!(out, "; did you mean {near}?"),
        None => out.push_str("\n"),
    }
}

/// Writes which of these a name that is taken is already.
pub(crate) fn put_taken(
    out: &mut String,
    what: &str,
    word: Word<'_>,
    names: &[Declared<'_>],
) -> Written {
    match find(names, word.text) {
        Some(Declared { line, .. }) => {
            write!(out, "  {word} is already a {what}, of line {line}")?;
            out.push_str(": take a new name\n")
        }
        None => Ok(()),
    }
}

/// Writes that there is no server of that number.
pub(crate) fn put_no_server(out: &mut String, word: Word<'_>, servers: u64) -> Written {
    write!(out, "  there is no server {word}: ")?;
    match servers.saturating_sub(1) {
        0 => out.push_str("the set has one server, which is 0\n"),
        last => writeln!(out, "the set has {servers} servers, which are 0 to {last}"),
    }
}
