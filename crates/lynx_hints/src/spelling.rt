//! Words that are no names, and words that are no numbers.

use crate::verb::Role;
use crate::word::{Word, Written, shown_byte};
use lynx_lex::Name;
use lynx_names::limits::MAX_NAME_BYTES;
use std::fmt::Write;

/// Writes why a word of that role is no name.
pub(crate) fn put_bad_name(out: &mut String, word: Word<'_>, role: Role) -> Written {
    let length = word.text.len();
    if length > MAX_NAME_BYTES {
        writeln!(
            out,
            "  {word} has {length} bytes, and a name has 24 at most"
        )?;
    } else {
        match (no_name(word.text, role), byte_of_none(word.text)) {
            (Some(why), _) => writeln!(out, "  {word} {why}")?,
            (None, Some(byte)) => put_byte(out, word, byte, "name")?,
            (None, None) => {}
        }
    }
    put_minus(out, word, role)?;
    out.push_str(match role {
        Role::Key => "  a key is a number or a parameter\n",
        Role::Value => "  a value is a number, a parameter or a name bound by an earlier line\n",
        _ => {
            "  a name is a letter a to z, then letters a to z, digits and underscores, 24 bytes at most\n"
        }
    })
}

/// Why the word of that role is no name; none where it has a byte that no name has. A dash in a
/// value or a key isn't meant as part of a name.
fn no_name(word: &[u8], role: Role) -> Option<&'static str> {
    let is_used = role == Role::Value || role == Role::Key;
    match word {
        _ if is_number_like(word) => Some("is a number, and a name has to stand here"),
        [b'-' | b'+', rest @ ..] if is_number_like(rest) => {
            Some("has a sign: numbers have none, and are 0 or more")
        }
        [b'-', rest @ ..] if Name::new(rest).is_some() => Some("has a minus: values have no sign"),
        _ if byte_of_none(word).is_some_and(|byte| is_used || byte != b'-') => None,
        [b'0'..=b'9', ..] => Some("begins with a digit: a name begins with a letter"),
        [b'_', ..] => Some("begins with an underscore: a name begins with a letter"),
        _ if word.iter().any(|byte| byte.is_ascii_uppercase()) => Some("has a capital letter"),
        _ if word.contains(&b'-') => Some("has a dash: write an underscore for it"),
        _ => None,
    }
}

/// The first byte of the word that no name and no number has, capitals apart.
fn byte_of_none(word: &[u8]) -> Option<u8> {
    let is_of_none = |byte: &&u8| !byte.is_ascii_alphanumeric() && **byte != b'_';
    word.iter().find(is_of_none).copied()
}

/// Writes which byte of the word it is that none of these has.
fn put_byte(out: &mut String, word: Word<'_>, byte: u8, what: &str) -> Written {
    let shown = shown_byte(byte);
    writeln!(out, "  {word} has '{shown}' in it, which no {what} has")?;
    match byte {
        b'+' | b'-' | b'*' | b'/' | b'%' | b'<' | b'>' | b'=' | b'!' => {
            out.push_str("  are spaces missing? what is computed gets a name by a let before it\n")
        }
        b'.' => out.push_str("  there are no fractions: count in the smallest unit\n"),
        b',' | b';' => out.push_str("  a space alone stands between two words\n"),
        _ => Ok(()),
    }
}

/// Writes how to take away what stands behind a minus.
fn put_minus(out: &mut String, word: Word<'_>, role: Role) -> Written {
    match word.text {
        [b'-', _, ..] if role == Role::Value => {
            out.push_str("  to take away from a cell: sub TABLE KEY AMOUNT; from a value: let\n")
        }
        _ => Ok(()),
    }
}

/// Whether the word is digits alone.
fn is_number_like(word: &[u8]) -> bool {
    !word.is_empty() && word.iter().all(|byte| byte.is_ascii_digit())
}

/// Writes why a word is no number.
pub(crate) fn put_bad_number(out: &mut String, word: Word<'_>) -> Written {
    let byte = word.text.iter().find(|byte| !byte.is_ascii_digit());
    match (no_number(word.text), byte) {
        _ if word.text.is_empty() => out.push_str("  a number is left out here\n")?,
        (Some(why), _) => writeln!(out, "  {word} {why}")?,
        (None, Some(byte)) => put_byte(out, word, *byte, "number")?,
        (None, None) => {}
    }
    out.push_str("  a number is decimal digits, from 0 to 18446744073709551615\n")
}

/// Why the word is no number; none where it has a byte that no number has.
fn no_number(word: &[u8]) -> Option<&'static str> {
    match word {
        [b'0', ..] if is_number_like(word) => Some("begins with 0: leading zeros are left out"),
        _ if is_number_like(word) => Some("is too great"),
        [b'-' | b'+', ..] => Some("has a sign: numbers have none"),
        _ if Name::new(word).is_some() => Some("is a name, and a number has to stand here"),
        _ => None,
    }
}
