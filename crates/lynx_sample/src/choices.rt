//! What is left to chance.
ghost use Rattle.std.specs.Prelude.{◌<◌};

use rand_core::{Rng, SeedableRng};
use rand_xoshiro::Xoshiro256PlusPlus;

/// Choices that a seed determines, one after another.
#[derive(Drop)]
pub(crate) struct Choices {
    words: Xoshiro256PlusPlus,
}

impl Choices {
    pub(crate) fn new(seed: u64) -> Choices {
        Choices {
            words: Xoshiro256PlusPlus::seed_from_u64(seed),
        }
    }

    /// A number below that one, 0 where there is none.
    pub(crate) fn below(&mut self, count: u64) -> u64
        ensures { 0 < count → result < count }
    {
        if count == 0 {
            0
        } else {
            self.words.next_u64() % count
        }
    }

    /// A place in a list of that length, 0 where it is empty.
    pub(crate) fn place(&mut self, length: usize) -> usize
        ensures { 0 < length → result < length }
    {
        self.below(length as u64) as usize
    }

    /// Whether it is to be, once in so many times.
    pub(crate) fn once_in(&mut self, times: u64) -> bool {
        self.below(times) == 0
    }
}
