//! What the search asks of a set, worked out once.
use crate::cycles::pool::Pool;
use crate::cycles::program_facts::ProgramFacts;
use lynx_names::limits::MAX_PROGRAMS;
use lynx_names::{Memory, ProgramId, ServerId};
use lynx_set::{ChainSet, Key};
use std::alloc::Global;

/// Programs go by their numbers in the set.
#[derive(Drop)]
pub(crate) struct Facts<'a> {
    pub set: &'a ChainSet,
    pub programs: Vec<ProgramFacts>,
    pub pool: Pool,
}

impl<'a> Facts<'a> {
    pub(crate) fn of(alloc: Global, set: &'a ChainSet) -> Result<Facts<'a>, Memory> {
        let pool = Pool::of(alloc, set)?;
        let mut programs = Vec::new(alloc);
        for number in 0..MAX_PROGRAMS {
            if let Some(id) = ProgramId::new(number) {
                if let Some(program) = set.program(id) {
                    programs.push(ProgramFacts::of(alloc, set, &pool, id, program)?)?;
                }
            }
        }
        Ok(Facts {
            set,
            programs,
            pool,
        })
    }

    pub(crate) fn program(&self, program: usize) -> Option<&ProgramFacts> {
        self.programs.get(program)
    }

    /// How many hops the program has.
    pub(crate) fn hops(&self, program: usize) -> usize {
        match self.programs.get(program) {
            Some(facts) => facts.hops(),
            None => 0,
        }
    }

    pub(crate) fn origin(&self, program: usize) -> Option<ServerId> {
        self.programs.get(program)?.origin()
    }

    /// Which numbers of the pool the program's key may be.
    pub(crate) fn numbers_of(&self, program: usize, key: Key) -> u128 {
        match self.programs.get(program) {
            Some(facts) => facts.numbers_of(&self.pool, key),
            None => 0,
        }
    }
}
