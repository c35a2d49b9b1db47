//! A circle of chains on its way.
use crate::cycles::facts::Facts;
use crate::cycles::joints::Joint;
use lynx_names::Memory;
use lynx_set::Key;
use std::alloc::Global;

/// A hop of a chain, both by their numbers.
#[derive(Clone, Copy)]
pub(crate) struct HopOf {
    pub chain: usize,
    pub hop: usize,
}

/// A key of a chain: a number, or an argument.
#[derive(Clone, Copy, PartialEq, Eq)]
pub(crate) struct KeyOf {
    pub chain: usize,
    pub key: Key,
}

/// Chains each of which conflicts with the next. Once the last does with the first it is a circle.
#[derive(Drop)]
pub(crate) struct Draft {
    /// The program of each chain.
    pub chains: Vec<usize>,
    /// The chains in an order of their begins, of which that at each origin counts.
    pub begins: Vec<usize>,
    /// By which conflict each chain comes before the next.
    pub joints: Vec<Joint>,
    /// The hop by which the first chain is entered, which is left by an earlier one.
    pub entered: usize,
}

impl Draft {
    /// One chain.
    pub(crate) fn new(alloc: Global, program: usize, entered: usize) -> Result<Draft, Memory> {
        Ok(Draft {
            chains: vec![in alloc; program]?,
            begins: vec![in alloc; 0]?,
            joints: Vec::new(alloc),
            entered,
        })
    }

    /// The same, whose last chain comes before the first by the joint.
    pub(crate) fn closed(&self, joint: &Joint) -> Result<Draft, Memory> {
        let mut joints = self.joints.clone()?;
        joints.push(*joint)?;
        Ok(Draft {
            chains: self.chains.clone()?,
            begins: self.begins.clone()?,
            joints,
            entered: self.entered,
        })
    }

    /// The same with a chain more, before which the last one comes by the joint. Its begin stands
    /// at that place.
    pub(crate) fn longer(&self, joint: &Joint, place: usize) -> Result<Draft, Memory> {
        let mut longer = self.closed(joint)?;
        let place = place.min(longer.begins.len());
        longer.begins.insert(place, longer.chains.len())?;
        longer.chains.push(joint.program)?;
        Ok(longer)
    }

    /// How many steps a look at it counts: about in proportion to the time that it takes.
    pub(crate) fn cost(&self) -> u64 {
        (self.chains.len() as u64).saturating_mul(2)
    }

    pub(crate) fn is_closed(&self) -> bool {
        self.joints.len() == self.chains.len()
    }

    pub(crate) fn program(&self, chain: usize) -> usize {
        self.chains.get(chain).copied().unwrap_or(0)
    }

    /// The program of the last chain.
    pub(crate) fn last(&self) -> usize {
        self.chains.last().copied().unwrap_or(0)
    }

    /// The chain behind that one, the first behind the last.
    pub(crate) fn next(&self, chain: usize) -> usize {
        let next = chain.saturating_add(1);
        if next < self.chains.len() { next } else { 0 }
    }

    /// The keys that have to be equal to that one, itself first.
    pub(crate) fn equal_keys(&self, alloc: Global, key: KeyOf) -> Result<Vec<KeyOf>, Memory> {
        let mut equal = vec![in alloc; key]?;
        for _ in 0..self.joints.len() {
            let count = equal.len();
            for (chain, joint) in self.joints.iter().enumerate() {
                let left = KeyOf {
                    chain,
                    key: joint.left_key,
                };
                let right = KeyOf {
                    chain: self.next(chain),
                    key: joint.key,
                };
                if equal.contains(&left) && !equal.contains(&right) {
                    equal.push(right)?;
                } else if equal.contains(&right) && !equal.contains(&left) {
                    equal.push(left)?;
                }
            }
            if equal.len() == count {
                break;
            }
        }
        Ok(equal)
    }

    /// Which numbers of the pool all of these keys may be.
    pub(crate) fn numbers_of(&self, facts: &Facts<'_>, keys: &[KeyOf]) -> u128 {
        let mut numbers = u128::MAX;
        for key in keys {
            numbers &= facts.numbers_of(self.program(key.chain), key.key);
        }
        numbers
    }

    /// Whether a number is left for the keys of the last joint.
    pub(crate) fn has_numbers(&self, alloc: Global, facts: &Facts<'_>) -> Result<bool, Memory> {
        let Some(joint) = self.joints.last() else {
            return Ok(true);
        };
        let key = KeyOf {
            chain: self.joints.len().saturating_sub(1),
            key: joint.left_key,
        };
        let equal = self.equal_keys(alloc, key)?;
        Ok(self.numbers_of(facts, equal.as_slice()) != 0)
    }
}
