//! The numbers that the search tries as keys and arguments.
use lynx_names::Memory;
use lynx_set::{Action, ChainSet, Key, Operand};
use std::alloc::Global;

/// How many numbers are tried, at most: a mask has a bit for each.
const MOST_NUMBERS: usize = 128;

/// Some numbers, each once, the likeliest first. A mask stands for some of them, by a bit for each.
#[derive(Drop)]
pub(crate) struct Pool {
    numbers: Vec<u64>,
}

impl Pool {
    /// Some small numbers, and those that the set names: the first ones of its shards and the ends
    /// of ranges too, so that numbers which may be equal have one in common here.
    pub(crate) fn of(alloc: Global, set: &ChainSet) -> Result<Pool, Memory> {
        let mut pool = Pool {
            numbers: Vec::new(alloc),
        };
        for number in [1, 0, 2, 100] {
            pool.add(number)?;
        }
        for (_, program) in set.programs() {
            for hop in program.hops.as_slice() {
                for action in hop.actions.as_slice() {
                    pool.add_action(action)?;
                }
            }
            for range in program.ranges.as_slice() {
                pool.add(range.interval.low)?;
                pool.add(range.interval.high)?;
            }
        }
        for shards in set.shards().tables() {
            for shard in shards.as_slice() {
                pool.add(shard.low)?;
            }
        }
        Ok(pool)
    }

    /// Adds the key of an action, and its numbers with their neighbours.
    fn add_action(&mut self, action: &Action) -> Result<(), Memory> {
        if let Some((_, Key::Literal(key))) = action.cell() {
            self.add(key)?;
        }
        let operands = match *action {
            Action::Get { .. } => [None, None],
            Action::Update { value, .. } => [Some(value), None],
            Action::Let { left, right, .. } | Action::Need { left, right, .. } => {
                [Some(left), Some(right)]
            }
        };
        for operand in operands {
            if let Some(Operand::Number(number)) = operand {
                self.add(number)?;
                self.add(number.saturating_add(1))?;
                self.add(number.saturating_sub(1))?;
            }
        }
        Ok(())
    }

    /// Adds the number where it isn't there and there is room.
    fn add(&mut self, number: u64) -> Result<(), Memory> {
        if self.numbers.len() < MOST_NUMBERS && !self.numbers.contains(&number) {
            self.numbers.push(number)?;
        }
        Ok(())
    }

    pub(crate) fn numbers(&self) -> &[u64] {
        self.numbers.as_slice()
    }

    /// The mask of that number, of no number where it isn't there.
    pub(crate) fn mask_of(&self, number: u64) -> u128 {
        match self.numbers.iter().position(|other| *other == number) {
            Some(place) => bit(place),
            None => 0,
        }
    }

    /// A number of the mask for an argument: in the first draw, and by half of the others, the
    /// first, else one of them by chance. 0 where there is none.
    pub(crate) fn pick(&self, mask: u128, draw: u64, argument: usize) -> u64 {
        let bits = mixed(draw.wrapping_mul(64).wrapping_add(argument as u64));
        let skipped = if draw == 0 || bits % 2 == 0 {
            0
        } else {
            (bits >> 32) as usize % (mask.count_ones() as usize).max(1)
        };
        let picked = self
            .numbers
            .iter()
            .enumerate()
            .filter(|(place, _)| mask & bit(*place) != 0)
            .nth(skipped);
        match picked {
            Some((_, number)) => *number,
            None => 0,
        }
    }
}

/// A bit for a place below 128.
pub(crate) fn bit(place: usize) -> u128 {
    1u128 << (place % 128)
}

/// Bits that look like random ones.
fn mixed(bits: u64) -> u64 {
    let turned = (bits ^ bits >> 30).wrapping_mul(0xbf58_476d_1ce4_e5b9);
    let turned = (turned ^ turned >> 27).wrapping_mul(0x94d0_49bb_1331_11eb);
    turned ^ turned >> 31
}
