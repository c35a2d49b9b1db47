//! Lines that aren't words with one space between two.

ghost use Rattle.std.specs.Prelude.{◌≡◌, true, IfNone, IsTrue, Some, map};
ghost use Rattle.std.specs.List.{list_all, slice_split};
ghost use Rattle.lynx_lex.specs.Lines.{is_filled, is_printable, is_space, words_in};

use crate::line::Line;
use crate::verb::begins_comment;
use crate::word::{Mark, Word, Written, is_printable, part_of};
use std::fmt::Write;

/// Why a line isn't words with one space between two.
#[derive(Clone, Copy)]
pub(crate) enum Flaw {
    Comment,
    Blank,
    Return,
    Tab,
    Byte(u8),
    /// A character that isn't ASCII.
    Character(char),
    SpaceFirst,
    SpacesBetween,
    SpaceLast,
    Unended,
}

impl Flaw {
    /// Writes what is wrong.
    pub fn put(self, out: &mut String) -> Written {
        match self {
            Flaw::Byte(byte) => {
                writeln!(out, "  a byte stands here that can't: {byte} in decimal")?;
            }
            Flaw::Character(character) => put_character(out, character)?,
            _ => {}
        }
        out.push_str(match self {
            Flaw::Comment => "  a text has no comments: take the line out\n",
            Flaw::Blank => "  the line is blank: take it out\n",
            Flaw::Return => {
                "  a carriage return stands here: lines end with LF alone, and not with CR LF\n  take the carriage returns out, as by: tr -d '\\r'\n"
            }
            Flaw::Tab => {
                "  a tab stands here: one space stands between words, and no line is indented\n"
            }
            Flaw::Byte(_) | Flaw::Character(_) =>
                "  a text is printable ASCII, the bytes 32 to 126, and LF\n",
            Flaw::SpaceFirst => "  the line begins with a space: no line is indented\n",
            Flaw::SpacesBetween => {
                "  more than one space stands here: one stands between two words\n"
            }
            Flaw::SpaceLast =>
                "  the line ends with a space: nothing stands behind the last word\n",
            Flaw::Unended =>
                "  no LF ends the last line: each line ends with one, the last one too\n",
        })
    }
}

/// The flaw of a line, if it has one, and where it is. The text doesn't end before the line.
pub(crate) fn flaw_of(line: &Line<'_>) -> Option<(Flaw, Option<Mark>)>
    // A line without one is words with one space between two, and has its end.
    ensures words { IfNone result (words_in line.now.bytes.now
        ≡ Some (slice_split is_space line.now.bytes.now)) }
    ensures ended { IfNone result (IsTrue line.now.is_ended) }
{
    let bytes = line.bytes;
    if let Some(place) = place_of_comment(bytes) {
        return Some((Flaw::Comment, Some(Mark::from(bytes, place))));
    }
    if bytes.is_empty() {
        return Some((Flaw::Blank, None));
    }
    if let Some((flaw, mark)) = byte_flaw(bytes) {
        return Some((flaw, Some(mark)));
    }
    if let Some((flaw, mark)) = space_flaw(bytes, line.words.as_slice()) {
        return Some((flaw, Some(mark)));
    }
    if line.is_ended {
        None
    } else {
        Some((Flaw::Unended, None))
    }
}

/// Where a comment begins that takes the whole line.
fn place_of_comment(line: &[u8]) -> Option<usize> {
    let place = line
        .iter()
        .position(|byte| *byte != b' ' && *byte != b'\t')?;
    if begins_comment(part_of(line, place, line.len())) {
        Some(place)
    } else {
        None
    }
}

/// Writes which character stands where ASCII has to, and what is spelled so in its place.
fn put_character(out: &mut String, character: char) -> Written {
    write!(
        out,
        "  the character U+{:04X} stands here",
        u32::from(character)
    )?;
    match spelled_so(character) {
        Some(meant) => writeln!(out, "; did you mean {meant}?"),
        None => out.push_str("\n"),
    }
}

/// How ASCII spells what is meant by a character, if that is known.
fn spelled_so(character: char) -> Option<&'static str> {
    match character {
        '≥' => Some(">="),
        '≤' => Some("<="),
        '≠' => Some("!="),
        '\u{2010}'..='\u{2015}' | '\u{2212}' => Some("-"),
        '\u{a0}' | '\u{2000}'..='\u{200b}' | '\u{202f}' | '\u{3000}' => Some("a space"),
        '…' | '‥' => Some(".."),
        _ => None,
    }
}

/// The character of more than one byte that begins at that place of the line, if one does.
fn character_at(line: &[u8], start: usize) -> Option<char> {
    for length in 2..=4usize {
        let bytes = part_of(line, start, start.saturating_add(length));
        if let Ok(text) = str::from_utf8(bytes) {
            return text.chars().next();
        }
    }
    None
}

/// A byte that can't stand in a line.
fn byte_flaw(line: &[u8]) -> Option<(Flaw, Mark)>
    ensures { IfNone result (list_all is_printable line.now ≡ true) }
{
    for (start, byte) in line.iter().enumerate() {
        if !is_printable(*byte) {
            let flaw = match *byte {
                b'\r' => Flaw::Return,
                b'\t' => Flaw::Tab,
                byte => match character_at(line, start) {
                    Some(character) => Flaw::Character(character),
                    None => Flaw::Byte(byte),
                },
            };
            let width = match flaw {
                Flaw::Character(character) => character.len_utf8(),
                _ => 1,
            };
            return Some((flaw, Mark { start, width }));
        }
    }
    None
}

/// A space beside no word, where the line has these words.
fn space_flaw(line: &[u8], words: &[Word<'_>]) -> Option<(Flaw, Mark)>
    ensures { IfNone result (list_all is_filled (map (λ word. word.text.now) words.now) ≡ true) }
{
    for (place, word) in words.iter().enumerate() {
        if word.text.is_empty() {
            // A space stands before it, unless the line begins with it.
            let start = word.start.saturating_sub(1);
            let rest = part_of(line, start, line.len());
            let width = rest.iter().take_while(|byte| **byte == b' ').count();
            let flaw = if place == 0 {
                Flaw::SpaceFirst
            } else if width == rest.len() {
                Flaw::SpaceLast
            } else {
                Flaw::SpacesBetween
            };
            return Some((flaw, Mark { start, width }));
        }
    }
    None
}
