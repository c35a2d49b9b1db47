//! The lines of a text, by their numbers, and their words.

ghost use Rattle.std.specs.Prelude.{◌≡◌, ◌-◌, [], IfOk, map, slice_index_or};
ghost use Rattle.std.specs.List.{slice_split};
ghost use Rattle.lynx_lex.specs.Lines.{is_feed, is_space};

use crate::word::{Word, word_at, words_of};
use lynx_lex::lines::next_line;
use std::alloc::{AllocError, Global};

/// A line of a text.
#[derive(Drop)]
pub(crate) struct Line<'a> {
    /// What stands before its LF, or before the end of the text.
    pub bytes: &'a [u8],
    /// Whether LF ends it.
    pub is_ended: bool,
    pub words: Vec<Word<'a>>,
    ghost cut: { map (λ word. word.text.now) words.items ≡ slice_split is_space bytes.now },
}

impl<'a> Line<'a> {
    /// The line of that number, counted from 1; an empty one where there is none.
    pub fn new(alloc: Global, text: &'a [u8], number: usize) -> Result<Line<'a>, AllocError>
        ensures { IfOk result (λ line. line.bytes.now
            ≡ slice_index_or (slice_split is_feed text.now) (number - 1) []) }
    {
        let (bytes, is_ended) = line_at(text, number);
        let words = words_of(alloc, bytes)?;
        Ok(Line {
            bytes,
            is_ended,
            words,
        })
    }

    /// Whether the text ends before the line.
    pub fn is_past_the_end(&self) -> bool {
        self.bytes.is_empty() && !self.is_ended
    }

    /// The word of that place, counted from 1; an empty one where there is none.
    pub fn word(&self, place: usize) -> Word<'a> {
        word_at(self.words.as_slice(), place.saturating_sub(1))
    }
}

/// The bytes of the line of that number, and whether LF ends it.
fn line_at(text: &[u8], number: usize) -> (&[u8], bool)
    ensures { result.0.now ≡ slice_index_or (slice_split is_feed text.now) (number - 1) [] }
{
    let mut rest = text;
    for _passed in 0..number.saturating_sub(1) {
        match next_line(rest) {
            Some((_, after)) => rest = after,
            None => return (&[], false),
        }
    }
    first_line(rest)
}

/// The bytes of the first line, and whether LF ends it.
pub(crate) fn first_line(text: &[u8]) -> (&[u8], bool)
    ensures { result.0.now ≡ slice_index_or (slice_split is_feed text.now) 0 [] }
{
    match next_line(text) {
        Some((bytes, _)) => (bytes, true),
        None => (text, false),
    }
}
