//! A run that follows the schedule of a circle.
use crate::cycles::budget::Budget;
use crate::cycles::draft::{Draft, HopOf, KeyOf};
use crate::cycles::facts::Facts;
use crate::cycles::helping::begin_with_help;
use crate::cycles::run::{Acted, Run};
use lynx_names::{Items, Memory, TryCopy, Values};
use lynx_set::Key;
use std::alloc::Global;

/// How many lists of arguments are tried for a begin.
const LISTS: u64 = 24;

/// A run of a circle's chains on its way.
#[derive(Drop)]
pub(crate) struct Play<'a> {
    facts: &'a Facts<'a>,
    draft: &'a Draft,
    /// The first of the draws that are tried for arguments.
    draw: u64,
    pub run: Run,
    /// The number in the run of each chain of the circle that began.
    numbers: Vec<Option<usize>>,
    /// The chains of the circle in the run.
    pub circle: Vec<usize>,
}

impl<'a> Play<'a> {
    pub(crate) fn new(
        alloc: Global,
        facts: &'a Facts<'a>,
        draft: &'a Draft,
        attempt: u64,
    ) -> Result<Play<'a>, Memory> {
        Ok(Play {
            facts,
            draft,
            draw: attempt.saturating_mul(LISTS),
            run: Run::new(alloc),
            numbers: vec![in alloc; None; draft.chains.len()]?,
            circle: Vec::new(alloc),
        })
    }

    /// Does the hops in this order. False where one isn't done, or in the end a hop is owed.
    pub(crate) fn follow(
        &mut self,
        alloc: Global,
        hops: &[HopOf],
        begins: &mut Budget,
    ) -> Result<bool, Memory> {
        for hop in hops {
            let is_done = match self.numbers.get(hop.chain).copied().unwrap_or(None) {
                Some(number) => self.run.act(alloc, self.facts, number)?.is_done(),
                None => self.begin(alloc, hop.chain, begins)?,
            };
            if !is_done {
                return Ok(false);
            }
            self.run
                .run_others(alloc, self.facts, self.circle.as_slice())?;
        }
        Ok(self.run.is_whole(self.facts))
    }

    /// Begins the chain of the circle, with help where no list of arguments does without.
    fn begin(&mut self, alloc: Global, chain: usize, begins: &mut Budget) -> Result<bool, Memory> {
        let program = self.draft.program(chain);
        let mut best = self.arguments(alloc, chain, program, self.draw)?;
        let mut met = None;
        for draw in 0..LISTS {
            let args = self.arguments(alloc, chain, program, self.draw.saturating_add(draw))?;
            begins.take(1);
            match self.run.begin(alloc, self.facts, program, &args)? {
                Acted::Done => return self.note(chain),
                Acted::Refused(need) if met < Some(need) => {
                    best = args;
                    met = Some(need);
                }
                _ => {}
            }
        }
        let circle = self.circle.as_slice();
        let run = &mut self.run;
        if begin_with_help(alloc, self.facts, run, circle, program, &best, begins)? {
            self.note(chain)
        } else {
            Ok(false)
        }
    }

    /// The chain is the last of the run's.
    fn note(&mut self, chain: usize) -> Result<bool, Memory> {
        let number = self.run.chains.len().saturating_sub(1);
        if let Some(slot) = self.numbers.get_mut(chain) {
            *slot = Some(number);
        }
        self.circle.push(number)?;
        Ok(true)
    }

    /// Arguments for the chain, those that have to be equal alike.
    fn arguments(
        &self,
        alloc: Global,
        chain: usize,
        program: usize,
        draw: u64,
    ) -> Result<Values, Memory> {
        let mut args = Vec::new(alloc);
        let count = match self.facts.program(program) {
            Some(program) => program.arguments.len(),
            None => 0,
        };
        for place in 0..count.min(255) {
            let key = Key::Param(place as u8);
            let equal = self.draft.equal_keys(alloc, KeyOf { chain, key })?;
            args.push(match equal.iter().find_map(|key| self.known(*key)) {
                Some(number) => number,
                None => {
                    let numbers = self.draft.numbers_of(self.facts, equal.as_slice());
                    self.facts
                        .pool
                        .pick(numbers, draw, least_of(chain, equal.as_slice()))
                }
            })?;
        }
        Ok(Items::from_vec(args))
    }

    /// The number that the key is already.
    fn known(&self, key: KeyOf) -> Option<u64> {
        match key.key {
            Key::Literal(number) => Some(number),
            Key::Param(parameter) => {
                let number = (*self.numbers.get(key.chain)?)?;
                let begun = self.run.chains.get(number)?;
                begun.args.as_slice().get(usize::from(parameter)).copied()
            }
        }
    }
}

/// The first of the chain's parameters among these equal keys.
fn least_of(chain: usize, equal: &[KeyOf]) -> usize {
    equal
        .iter()
        .filter(|key| key.chain == chain)
        .filter_map(|key| match key.key {
            Key::Param(parameter) => Some(usize::from(parameter)),
            Key::Literal(_) => None,
        })
        .min()
        .unwrap_or(0)
}
