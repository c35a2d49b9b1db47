//! The lines of a program's ranges.

ghost use Rattle.std.specs.Prelude.{◌≡◌, ◌≤◌, length, option_map, IsTrue};
ghost use Rattle.lynx_lex.specs.Gives.{Gives};
ghost use Rattle.lynx_lex.specs.Lines.{texts};
ghost use Rattle.lynx_text.specs.Ranges.{begins_with_dots, cut_at_dots, ends_of, next_parameter, range_line};

use crate::lines::three_words;
use crate::scope::{known_name, number_of};
use lynx_lex::{FaultKind, Name, WordFault, at};
use lynx_set::{Interval, ParameterRange};

/// `range PARAMETER LOW..HIGH`, where the program has these parameters, and these ranges of them
/// before.
#[tactic(auto, using(crate::proofs::Shapes::range_line_other), unfolding(crate::specs::Ranges::range_line))]
pub(crate) fn read_range_line(
    words: &[&[u8]],
    names: &[Name],
    ranges: &[ParameterRange],
) -> Result<ParameterRange, WordFault>
    ensures value { Gives (λ range. range) result
        (range_line names.now (next_parameter ranges.now) (texts words.now)) }
{
    let (word, parameter, interval) = three_words(words)?;
    if word != b"range".as_slice() {
        return Err(WordFault::new(FaultKind::BadLine, 1));
    }
    let (low, high) = at(3, ends_of(interval))?;
    let parameter = at(2, known_name(names, parameter))?;
    if usize::from(parameter) < next_parameter(ranges) {
        return Err(WordFault::new(FaultKind::Repeated, 2));
    }
    let low = at(3, number_of(low))?;
    let high = at(3, number_of(high))?;
    if low > high {
        return Err(WordFault::new(FaultKind::BadNumber, 3));
    }
    Ok(ParameterRange {
        parameter,
        interval: Interval { low, high },
    })
}

/// The first parameter behind those of the ranges.
fn next_parameter(ranges: &[ParameterRange]) -> usize
    ensures { result ≡ next_parameter ranges.now }
{
    match ranges {
        [.., last] => usize::from(last.parameter) + 1,
        [] => 0,
    }
}

/// What stands on both sides of the word's `..`, which is to stand there once.
fn ends_of(word: &[u8]) -> Result<(&[u8], &[u8]), FaultKind>
    ensures { Gives (λ ends. (ends.0.now, ends.1.now)) result (ends_of word.now) }
{
    let (low, high) = cut_at_dots(word).ok_or(FaultKind::BadLine)?;
    match cut_at_dots(high) {
        Some(_) => Err(FaultKind::BadLine),
        None => Ok((low, high)),
    }
}

/// What stands before the first `..` of the word, and what behind it.
fn cut_at_dots(word: &[u8]) -> Option<(&[u8], &[u8])>
    ensures { option_map (λ ends. (ends.0.now, ends.1.now)) result ≡ cut_at_dots word.now }
{
    for place in 0..word.len() {
        if begins_with_dots(&word[place..]) {
            return Some((&word[..place], &word[place + 2..]));
        }
    }
    None
}

/// Whether `..` begins the word.
fn begins_with_dots(word: &[u8]) -> bool
    ensures value { result ≡ begins_with_dots word.now }
    ensures long { IsTrue result → 2 ≤ length word.now }
{
    match word {
        [first, second, ..] => *first == b'.' && *second == b'.',
        _ => false,
    }
}
