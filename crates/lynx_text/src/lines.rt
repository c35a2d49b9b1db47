//! The lines of a set's text, read one after another, and the words of lines of a known length.
ghost use Rattle.std.specs.Prelude.{◌≡◌, ◌≢◌, ◌<◌, ◌==◌, ◌↔◌, ◌⊎◌, false, None, Some, IfOk, IfErr, IsErrOf, length, position, option_map, OnOk, OnErr, OnSome, IfSome, [], ◌∷◌};
ghost use Rattle.std.specs.List.{slice_split};
ghost use Rattle.lynx_lex.specs.Gives.{Gives};
ghost use Rattle.lynx_lex.specs.Lines.{is_feed, only_if, texts};
ghost use Rattle.lynx_text.specs.Pieces.{after_version, begins, ends, next_piece, one_after, until, next_words, version_of, version_told};

use lynx_lex::lines::{next_line, place_of_byte, words_of};
use lynx_lex::{FaultKind, WordFault};
use lynx_set::Version;
use std::alloc::Global;
use std::marker::Model;

/// The bytes before the first of this kind, or all of them.
fn until(text: &[u8], end: u8) -> &[u8]
    ensures { result.now ≡ until text.now end }
{
    match place_of_byte(text, end) {
        Some(length) => &text[..length],
        None => text,
    }
}

/// The version that a line tells.
fn version_of(line: &[u8]) -> Option<Version>
    ensures { result ≡ version_of line.now }
{
    if line == b"lynx 1".as_slice() {
        Some(Version::One)
    } else if line == b"lynx 2".as_slice() {
        Some(Version::Two)
    } else {
        None
    }
}

/// The word after this first one, where there are two.
pub fn one_after<'a>(first: &[u8], words: &[&'a [u8]]) -> Result<&'a [u8], WordFault>
    ensures { Gives (λ word. word.now) result (one_after first.now (texts words.now)) }
{
    match words {
        [word, other] if *word == first => Ok(*other),
        [word, ..] if *word != first => Err(WordFault::new(FaultKind::BadLine, 1)),
        _ => Err(WordFault::new(FaultKind::BadLine, 0)),
    }
}

/// The first two words and the others, where there are two.
pub fn two_and_more<'a, 'b>(
    words: &'b [&'a [u8]],
) -> Result<(&'a [u8], &'a [u8], &'b [&'a [u8]]), FaultKind>
    ensures ok { IfOk result (λ split. texts words.now
        ≡ split.0.now ∷ split.1.now ∷ texts split.2.now) }
    ensures err { IfErr result (λ kind. (kind ≡ FaultKind.BadLine) × (length words.now < 2)) }
{
    if words.len() >= 2 {
        Ok((words[0], words[1], &words[2..]))
    } else {
        Err(FaultKind::BadLine)
    }
}

/// The words, where there are three.
pub fn three_words<'a>(words: &[&'a [u8]]) -> Result<(&'a [u8], &'a [u8], &'a [u8]), FaultKind>
    ensures ok { IfOk result (λ three. texts words.now
        ≡ three.0.now ∷ three.1.now ∷ three.2.now ∷ []) }
    ensures err { IfErr result (λ kind. (kind ≡ FaultKind.BadLine) × (length words.now ≢ 3)) }
{
    if words.len() == 3 {
        Ok((words[0], words[1], words[2]))
    } else {
        Err(FaultKind::BadLine)
    }
}

/// The words, where there are four.
pub fn four_words<'a>(
    words: &[&'a [u8]],
) -> Result<(&'a [u8], &'a [u8], &'a [u8], &'a [u8]), FaultKind>
    ensures ok { IfOk result (λ four. texts words.now
        ≡ four.0.now ∷ four.1.now ∷ four.2.now ∷ four.3.now ∷ []) }
    ensures err { IfErr result (λ kind. (kind ≡ FaultKind.BadLine) × (length words.now ≢ 4)) }
{
    if words.len() == 4 {
        Ok((words[0], words[1], words[2], words[3]))
    } else {
        Err(FaultKind::BadLine)
    }
}

/// A text that is read line by line. It is seen as the lines that are left: the last of them has no
/// LF.
#[derive(Debug, Drop)]
pub struct Lines<'a> {
    rest: &'a [u8],
    /// The number of the line that was read last, counted from 1.
    line: usize,
}

impl<'a> Model for Lines<'a> {
    ghost use Rattle.std.specs.Prelude.{List, ℕ};
    ghost use Rattle.std.specs.List.{slice_split};
    ghost use Rattle.lynx_lex.specs.Lines.{is_feed};

    ghost Value = { List (List ℕ) };

    ghost view = { λ lines. slice_split is_feed lines.rest.now };
}

impl<'a> Lines<'a> {
    /// All lines of the text.
    pub fn new(text: &'a [u8]) -> Lines<'a>
        ensures { result ≡ slice_split is_feed text.now }
    {
        Lines {
            rest: text,
            line: 0,
        }
    }

    /// The number of the line that was read last, counted from 1.
    pub fn line(&self) -> usize {
        self.line
    }

    /// Takes the next line, where LF ends it.
    fn next(&mut self) -> Option<&'a [u8]>
        ensures value { option_map (λ line. (line.now, self.new)) result ≡ next_piece self.old }
        ensures shrinks { OnSome result (length self.new < length self.old) }
    {
        self.line = self.line.saturating_add(1);
        let (line, rest) = next_line(self.rest)?;
        self.rest = rest;
        Some(line)
    }

    /// Takes the words of the next line.
    pub fn next_words(&mut self, alloc: Global) -> Result<Vec<&'a [u8]>, FaultKind>
        ensures value { Gives (λ words. (texts words.items, self.new)) result
            (next_words self.old) }
        ensures shrinks { OnOk result (length self.new < length self.old) }
    {
        let line = self.next().ok_or(FaultKind::BadLine)?;
        words_of(alloc, line)
    }

    /// Whether the first word of the next line is this one.
    pub fn begins_with(&self, word: &[u8]) -> bool
        ensures { result ≡ begins self.now word.now }
    {
        until(until(self.rest, b'\n'), b' ') == word
    }

    /// Takes the version's line. It is a bad version where the first line is no version's, and else
    /// a bad line where no LF ends it.
    pub fn version(&mut self) -> Result<Version, FaultKind>
        ensures bad { IsErrOf result FaultKind.BadVersion ↔ (version_told self.old ≡ None) }
        ensures ok { IfOk result (λ version. after_version self.old ≡ Some (version, self.new)) }
        ensures none { OnErr result (after_version self.old ≡ None) }
        ensures err { IfErr result (λ kind. (kind ≡ FaultKind.BadVersion)
            ⊎ (kind ≡ FaultKind.BadLine)) }
    {
        let Some(version) = self.version_told() else {
            self.line = 1;
            return Err(FaultKind::BadVersion);
        };
        match self.next() {
            Some(_) => Ok(version),
            None => Err(FaultKind::BadLine),
        }
    }

    /// The version that the next line tells.
    fn version_told(&self) -> Option<Version>
        ensures { result ≡ version_told self.now }
    {
        version_of(until(self.rest, b'\n'))
    }

    /// Wants that no line is left.
    pub fn end(&mut self) -> Result<(), WordFault>
        ensures { Gives (λ x. x) result (only_if (ends self.old) tt) }
    {
        if self.rest.is_empty() {
            return Ok(());
        }
        self.line = self.line.saturating_add(1);
        Err(WordFault::new(FaultKind::BadLine, 1))
    }
}
