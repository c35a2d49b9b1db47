//! Words that are nearly others.

/// Whether a word is the other but for capitals and one slip: a letter too many, too few, wrong, or
/// two that changed places.
pub(crate) fn is_near(word: &[u8], other: &[u8]) -> bool {
    let shorter = word.len().min(other.len());
    let longer = word.len().max(other.len());
    let same = same_first(word, other).saturating_add(same_last(word, other));
    if longer == shorter {
        same.saturating_add(1) >= longer || is_swapped(word, other)
    } else {
        longer == shorter.saturating_add(1) && same >= shorter
    }
}

/// How many bytes are the same at the beginning.
fn same_first(word: &[u8], other: &[u8]) -> usize {
    let pairs = word.iter().zip(other.iter());
    pairs
        .take_while(|pair| pair.0.eq_ignore_ascii_case(pair.1))
        .count()
}

/// How many bytes are the same at the end.
fn same_last(word: &[u8], other: &[u8]) -> usize {
    let pairs = word.iter().rev().zip(other.iter().rev());
    pairs
        .take_while(|pair| pair.0.eq_ignore_ascii_case(pair.1))
        .count()
}

/// Whether words of one length differ in two bytes beside each other, which changed places.
fn is_swapped(word: &[u8], other: &[u8]) -> bool {
    let first = same_first(word, other);
    let end = first.saturating_add(2);
    end.saturating_add(same_last(word, other)) == word.len()
        && match (word.get(first..end), other.get(first..end)) {
            (Some([one, two]), Some([three, four])) => {
                one.eq_ignore_ascii_case(four) && two.eq_ignore_ascii_case(three)
            }
            _ => false,
        }
}
