//! Words of a line, with their places.

ghost use Rattle.std.specs.Prelude.{◌≡◌, ◌≤◌, ◌+◌, ◌-◌, ◌++◌, [], IfOk, IfSome, is_some, drop, length, map, slice_index_or, take};
ghost use Rattle.std.specs.List.{slice_split};
ghost use Rattle.lynx_lex.specs.Digits.{read_number};
ghost use Rattle.lynx_lex.specs.Lines.{is_printable, is_space};

use lynx_lex::lines::first_word;
use lynx_lex::number::number;
use std::alloc::{AllocError, Global};
use std::fmt;

/// What a function answers that writes.
pub(crate) type Written = Result<(), AllocError>;

/// What a function answers that writes what is wrong: the place in the line.
pub(crate) type Marked = Result<Option<Mark>, AllocError>;

/// As many bytes of a word are shown within a sentence, at most.
const MAX_SHOWN: usize = 40;

/// A part of a line: where it begins, and how many bytes it has.
#[derive(Clone, Copy)]
pub(crate) struct Mark {
    pub start: usize,
    pub width: usize,
}

impl Mark {
    /// What stands from there to the line's end.
    pub fn from(line: &[u8], start: usize) -> Mark
        ensures start { result.start ≡ start }
        ensures end { start ≤ length line.now → result.start + result.width ≡ length line.now }
    {
        Mark {
            start,
            width: line.len().saturating_sub(start),
        }
    }
}

/// A word of a line, and where it begins. Within a sentence a long word is cut, and a byte that
/// isn't printable ASCII is shown as `?`.
#[derive(Clone, Copy)]
pub(crate) struct Word<'a> {
    pub text: &'a [u8],
    pub start: usize,
}

impl<'a> Word<'a> {
    pub fn mark(&self) -> Mark
        ensures start { result.start ≡ self.now.start }
        ensures width { result.width ≡ length self.now.text.now }
    {
        Mark {
            start: self.start,
            width: self.text.len(),
        }
    }

    /// The parts before and behind the first of these bytes, where they stand in the word.
    pub fn cut_at(&self, bytes: &[u8]) -> Option<(Word<'a>, Word<'a>)>
        ensures { IfSome result (λ parts. self.now.text.now
            ≡ parts.0.text.now ++ bytes.now ++ parts.1.text.now) }
    {
        for cut in 0..self.text.len() {
            if let Some(behind) = self.text[cut..].strip_prefix(bytes) {
                let first = Word {
                    text: &self.text[..cut],
                    start: self.start,
                };
                let second = Word {
                    text: behind,
                    start: self.start.saturating_add(cut).saturating_add(bytes.len()),
                };
                return Some((first, second));
            }
        }
        None
    }

    pub fn spells_number(&self) -> bool
        ensures { result ≡ is_some (read_number self.now.text.now) }
    {
        number(self.text).is_some()
    }

    /// The number that the word spells, 0 where it spells none.
    pub fn number(&self) -> u64
        ensures { IfSome (read_number self.now.text.now) (λ number. result ≡ number) }
    {
        number(self.text).unwrap_or(0)
    }
}

impl fmt::Display for Word<'_> {
    fn fmt<W: fmt::Write>(&self, f: &mut fmt::Formatter<W>) -> fmt::Result {
        for byte in part_of(self.text, 0, self.text.len().min(MAX_SHOWN)) {
            f.write_char(shown_byte(*byte))?;
        }
        if self.text.len() > MAX_SHOWN {
            f.write_str("..")?;
        }
        Ok(())
    }
}

/// A byte as it is shown.
pub(crate) fn shown_byte(byte: u8) -> char {
    if is_printable(byte) {
        char::from(byte)
    } else {
        '?'
    }
}

pub(crate) fn is_printable(byte: u8) -> bool
    ensures { result ≡ is_printable byte }
{
    b' ' <= byte && byte <= b'~'
}

/// The bytes between two places, none where there is no such part.
pub(crate) fn part_of(bytes: &[u8], start: usize, end: usize) -> &[u8]
    ensures { start ≤ end → end ≤ length bytes.now
        → result.now ≡ take (end - start) (drop start bytes.now) }
{
    bytes.get(start..end).unwrap_or(&[])
}

/// The words of a line, cut at its spaces. One that isn't well formed has empty words.
pub(crate) fn words_of(alloc: Global, line: &[u8]) -> Result<Vec<Word<'_>>, AllocError>
    ensures { IfOk result (λ words. map (λ word. word.text.now) words.items
        ≡ slice_split is_space line.now) }
{
    let mut words = Vec::new(alloc);
    let mut start = 0usize;
    let mut left = Some(line);
    while let Some(rest) = left {
        let (text, after) = first_word(rest);
        words.push(Word { text, start })?;
        start = start.saturating_add(text.len()).saturating_add(1);
        left = after;
    }
    Ok(words)
}

/// The word of that place, counted from 0; an empty one where there is none.
pub(crate) fn word_at<'a>(words: &[Word<'a>], place: usize) -> Word<'a>
    ensures { result.text.now ≡ slice_index_or (map (λ word. word.text.now) words.now) place [] }
{
    words.get(place).copied().unwrap_or(Word {
        text: &[],
        start: 0,
    })
}
