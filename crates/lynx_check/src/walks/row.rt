//! A bit for each hop of a set.
use lynx_names::limits::{MAX_HOPS, MAX_PROGRAMS};

const BITS: usize = 64;

const WORDS: usize = MAX_PROGRAMS as usize * MAX_HOPS / BITS;

/// Some of the hops of a set, by their places in its list of hops.
#[derive(Clone, Copy, Debug)]
pub(crate) struct Row {
    words: [u64; WORDS],
}

impl Row {
    pub(crate) fn none() -> Row {
        Row { words: [0; WORDS] }
    }

    pub(crate) fn only(place: usize) -> Row {
        let mut row = Row::none();
        row.insert(place);
        row
    }

    pub(crate) fn insert(&mut self, place: usize) {
        if let Some(word) = self.words.get_mut(place / BITS) {
            *word |= 1u64 << (place % BITS);
        }
    }

    pub(crate) fn has(&self, place: usize) -> bool {
        match self.words.get(place / BITS) {
            Some(word) => *word & 1u64 << (place % BITS) != 0,
            None => false,
        }
    }

    pub(crate) fn is_empty(&self) -> bool {
        self.words.iter().all(|word| *word == 0)
    }

    pub(crate) fn add(&mut self, more: &Row) {
        for (word, more) in self.words.iter_mut().zip(&more.words) {
            *word |= *more;
        }
    }

    pub(crate) fn remove(&mut self, those: &Row) {
        for (word, those) in self.words.iter_mut().zip(&those.words) {
            *word &= !*those;
        }
    }

    pub(crate) fn keep(&mut self, those: &Row) {
        for (word, those) in self.words.iter_mut().zip(&those.words) {
            *word &= *those;
        }
    }

    pub(crate) fn count(&self) -> u32 {
        self.words.iter().fold(0u32, |count, word| count.saturating_add(word.count_ones()))
    }

    /// Takes the first hop out.
    pub(crate) fn take_first(&mut self) -> Option<usize> {
        let mut first: usize = 0;
        for word in &mut self.words {
            if *word != 0 {
                let bit = word.trailing_zeros() as usize;
                *word &= word.wrapping_sub(1);
                return Some(first.saturating_add(bit));
            }
            first = first.saturating_add(BITS);
        }
        None
    }
}
