//! Parts of a path.
ghost use Rattle.std.specs.Prelude.{◌≡◌, ◌==◌, ◌<◌, IfSome, length, option_copied, option_map, position};
ghost use Rattle.lynx_status.specs.Wanted.{behind, cut_at, numbers_in};

use crate::paths::after;
use lynx_lex::number::number;

/// What follows the words at the front of a text.
pub(crate) fn behind<'a>(words: &[u8], text: &'a [u8]) -> Option<&'a [u8]>
    ensures { option_copied result ≡ behind words.now text.now }
{
    after(text, words)
}

/// Where the first such byte of a text is.
fn place_of(byte: u8, text: &[u8]) -> Option<usize>
    ensures place { result ≡ position (λ own. own == byte) text.now }
    ensures within { IfSome result (λ place. place < length text.now) }
{
    text.iter().position(|own| *own == byte)
}

/// What stands before the first such byte of a text, and what behind it.
pub(crate) fn cut(text: &[u8], byte: u8) -> Option<(&[u8], &[u8])>
    ensures { option_map (λ halves. (halves.0.now, halves.1.now)) result ≡ cut_at byte text.now }
{
    let place = place_of(byte, text)?;
    Some((&text[..place], &text[place + 1..]))
}

/// The two numbers that a text spells with such a byte between them.
pub(crate) fn numbers_in(text: &[u8], byte: u8) -> Option<(u64, u64)>
    ensures { result ≡ numbers_in byte text.now }
{
    let (left, right) = cut(text, byte)?;
    Some((number(left)?, number(right)?))
}
