//! Lines of a text, and their words.

ghost use Rattle.std.specs.Prelude.{ℕ, List, ◌≡◌, ◌<◌, ◌==◌, Some, IfOk, length, position, option_map, IfSome, IfNone, [], ◌∷◌};
ghost use Rattle.std.specs.List.{slice_split, list_all};
ghost use Rattle.lynx_lex.specs.Gives.{Gives};
ghost use Rattle.lynx_lex.specs.Lines.{joined, next_line, is_feed, is_space, is_printable, AreWords, texts, words_in};

use crate::fault::FaultKind;
use std::alloc::Global;

/// The first line without its LF, and the text after it, or None where there is no LF.
pub fn next_line(text: &[u8]) -> Option<(&[u8], &[u8])>
    ensures value { option_map (λ parts. (parts.0.now, parts.1.now)) result ≡ next_line text.now }
    ensures last { IfNone result (slice_split is_feed text.now ≡ text.now ∷ []) }
    ensures more { IfSome result (λ parts. slice_split is_feed text.now
        ≡ parts.0.now ∷ slice_split is_feed parts.1.now) }
{
    let end = place_of_byte(text, b'\n')?;
    Some((&text[..end], &text[end + 1..]))
}

/// The place of the first byte of this kind.
pub fn place_of_byte(text: &[u8], wanted: u8) -> Option<usize>
    ensures place { result ≡ position (λ byte. byte == wanted) text.now }
    ensures within { IfSome result (λ place. place < length text.now) }
{
    text.iter().position(|byte| *byte == wanted)
}

/// The words of a line. It is a bad line where a byte isn't printable ASCII or a word is empty.
pub fn words_of(alloc: Global, line: &[u8]) -> Result<Vec<&[u8]>, FaultKind>
    // What is read is spelled so.
    ensures found { IfOk result (λ words. AreWords (texts words.items)
        × (line.now ≡ joined (texts words.items))) }
    // What is spelled so is read, unless memory runs out.
    ensures only { (words : List (List ℕ)) → AreWords words → line.now ≡ joined words
        → Gives (λ w. texts w.items) result (Some words) }
    ensures exact { Gives (λ words. texts words.items) result (words_in line.now) }
{
    split_words(alloc, line)
}

fn split_words(alloc: Global, line: &[u8]) -> Result<Vec<&[u8]>, FaultKind>
    ensures { Gives (λ words. texts words.items) result (words_in line.now) }
{
    if !is_printable_line(line) {
        return Err(FaultKind::BadLine);
    }
    let mut words = Vec::new(alloc);
    let mut left = Some(line);
    while let Some(rest) = left {
        let (word, after) = first_word(rest);
        if word.is_empty() {
            return Err(FaultKind::BadLine);
        }
        words.push(word)?;
        left = after;
    }
    Ok(words)
}

fn is_printable_line(line: &[u8]) -> bool
    ensures { result ≡ list_all is_printable line.now }
{
    line.iter().all(|byte| *byte >= b' ' && *byte <= b'~')
}

/// The first word of a line, and what follows the space behind it.
pub fn first_word(line: &[u8]) -> (&[u8], Option<&[u8]>)
    ensures last { IfNone result.1 (slice_split is_space line.now ≡ result.0.now ∷ []) }
    ensures more { IfSome result.1 (λ rest. slice_split is_space line.now
        ≡ result.0.now ∷ slice_split is_space rest.now) }
    ensures shorter { IfSome result.1 (λ rest. length rest.now < length line.now) }
{
    match place_of_byte(line, b' ') {
        Some(end) => (&line[..end], Some(&line[end + 1..])),
        None => (line, None),
    }
}
