//! Numbers in a text.

ghost use Rattle.std.specs.Prelude.{◌≡◌, ◌<◌, ◌^◌, ℕ, Some, IfSome, decimal};
ghost use Rattle.lynx_lex.specs.Digits.{read_number, starts_well};

/// The number that the word spells in decimal, below 2^64 and without sign or leading zeros, or
/// None.
pub fn number(word: &[u8]) -> Option<u64>
    ensures found { IfSome result (λ number. word.now ≡ decimal number) }
    ensures only { (number : ℕ) → number < 2 ^ 64 → word.now ≡ decimal number
        → result ≡ Some number }
    ensures exact { result ≡ read_number word.now }
{
    read_number(word)
}

fn read_number(word: &[u8]) -> Option<u64>
    ensures { result ≡ read_number word.now }
{
    if !starts_well(word) {
        return None;
    }
    let mut value = 0u64;
    for byte in word {
        if !byte.is_ascii_digit() {
            return None;
        }
        value = value.checked_mul(10)?.checked_add(u64::from(*byte - b'0'))?;
    }
    Some(value)
}

/// Whether there is a digit, and the first isn't 0 but in 0 itself.
fn starts_well(word: &[u8]) -> bool
    ensures { result ≡ starts_well word.now }
{
    match word {
        [] => false,
        [_] => true,
        [first, ..] => *first != b'0',
    }
}
