//! Lines with a wrong count of words.

use crate::line::Line;
use crate::verb::{Verb, begins_comment};
use crate::word::{Mark, Marked, Word, Written};
use std::fmt::Write;

/// Writes that a line of the verb has a wrong count of words, and gives those that are too many.
pub(crate) fn put_wrong_count(out: &mut String, line: &Line<'_>, verb: Verb) -> Marked {
    let words = line.words.as_slice();
    if let Some(comment) = words.iter().find(|word| begins_comment(word.text)) {
        out.push_str("  a text has no comments, behind a line neither\n")?;
        return Ok(Some(Mark::from(line.bytes, comment.start)));
    }
    let least = verb.line().1;
    let is_open = matches!(verb, Verb::Program | Verb::Begin | Verb::Request);
    let at_least = if is_open { "at least " } else { "" };
    write!(out, "  {} takes {at_least}", verb.spelled())?;
    put_count(out, least.saturating_sub(1))?;
    out.push_str(", and has ")?;
    put_count(out, words.len().saturating_sub(1))?;
    out.push_str(" here\n")?;
    verb.put_form(out)?;
    put_meant(out, verb, words)?;
    match (words.get(least), glued(words)) {
        (Some(surplus), _) => Ok(Some(Mark::from(line.bytes, surplus.start))),
        (None, Some(word)) => Ok(Some(word.mark())),
        (None, None) => Ok(None),
    }
}

fn put_count(out: &mut String, words: usize) -> Written {
    match words {
        0 => out.push_str("no word"),
        1 => out.push_str("1 word"),
        _ => write!(out, "{words} words"),
    }
}

/// Writes how to spell what a line of these words may be meant to say.
fn put_meant(out: &mut String, verb: Verb, words: &[Word<'_>]) -> Written {
    let behind = words.get(1..).unwrap_or(&[]);
    if let Some(word) = glued(words) {
        writeln!(
            out,
            "  spaces are missing in {word}: one stands between two words"
        )?;
    }
    let has_operator = behind.iter().any(|word| is_operator(word.text));
    match verb {
        Verb::Need if has_operator => out.push_str(
            "  a need compares two values: what is computed gets a name by a let before it\n",
        ),
        Verb::Set | Verb::Add | Verb::Sub | Verb::Max if has_operator => {
            out.push_str("  what is computed gets a name by a let before it\n")
        }
        Verb::Let if behind.len() > 4 && has_operator => {
            out.push_str("  a let has one operator: take one let for each\n")
        }
        _ => Ok(()),
    }
}

/// The first of the words that are joined, if any are.
fn glued<'a>(words: &[Word<'a>]) -> Option<Word<'a>> {
    words.iter().find(|word| is_glued(word.text)).copied()
}

/// Whether the word is an operator.
fn is_operator(word: &[u8]) -> bool {
    matches!(word, b"+" | b"-" | b"*" | b"/" | b"%")
}

/// Whether words are joined in it that spaces ought to divide: an operator or a relation, and a
/// letter or a digit.
fn is_glued(word: &[u8]) -> bool {
    word.iter().any(is_joint) && word.iter().any(|byte| byte.is_ascii_alphanumeric())
}

/// Whether the byte is one of operators and relations.
fn is_joint(byte: &u8) -> bool {
    matches!(*byte, b'<' | b'>' | b'=' | b'!' | b'+' | b'*' | b'/' | b'%')
}
