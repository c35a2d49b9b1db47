//! What the search asks of a program.
use crate::cycles::pool::{Pool, bit};
use lynx_foot::{Foot, footprint};
use lynx_names::{Memory, ProgramId, ServerId};
use lynx_set::{ChainSet, Key, Program, range_of};
use std::alloc::Global;

#[derive(Drop)]
pub(crate) struct ProgramFacts {
    pub program: ProgramId,
    /// The server of each hop.
    pub servers: Vec<ServerId>,
    /// The feet of each hop, each once.
    pub feet: Vec<Vec<Foot>>,
    /// Which numbers of the pool each argument may be.
    pub arguments: Vec<u128>,
}

impl ProgramFacts {
    pub(crate) fn of(
        alloc: Global,
        set: &ChainSet,
        pool: &Pool,
        id: ProgramId,
        program: &Program,
    ) -> Result<ProgramFacts, Memory> {
        let mut servers = Vec::new(alloc);
        let mut feet = Vec::new(alloc);
        for (place, hop) in program.hops.as_slice().iter().enumerate() {
            servers.push(hop.server)?;
            feet.push(feet_of(alloc, set, id, place)?)?;
        }
        let mut facts = ProgramFacts {
            program: id,
            servers,
            feet,
            arguments: Vec::new(alloc),
        };
        for parameter in 0..program.parameters.min(255) {
            let numbers = facts.numbers_for(set, pool, program, parameter as u8);
            facts.arguments.push(numbers)?;
        }
        Ok(facts)
    }

    /// Of the pool those in the parameter's range for which the server of each hop keeps the cell,
    /// where the parameter is its key.
    fn numbers_for(&self, set: &ChainSet, pool: &Pool, program: &Program, parameter: u8) -> u128 {
        let range = range_of(program.ranges.as_slice(), parameter);
        let mut mask = 0;
        for (place, number) in pool.numbers().iter().enumerate() {
            let is_in_range = range.is_none_or(|range| range.holds(*number));
            if is_in_range && self.are_kept(set, parameter, *number) {
                mask |= bit(place);
            }
        }
        mask
    }

    /// Whether the servers of the hops keep the cells whose key is the parameter, where it is that
    /// number.
    fn are_kept(&self, set: &ChainSet, parameter: u8, number: u64) -> bool {
        self.servers.iter().zip(self.feet.iter()).all(|(server, feet)| {
            feet.iter().all(|foot| {
                foot.key != Key::Param(parameter)
                    || set.shards().server_of(foot.table, number) == *server
            })
        })
    }

    /// False where an argument can be no number.
    pub(crate) fn can_begin(&self) -> bool {
        self.arguments.iter().all(|numbers| *numbers != 0)
    }

    pub(crate) fn hops(&self) -> usize {
        self.servers.len()
    }

    pub(crate) fn origin(&self) -> Option<ServerId> {
        self.servers.first().copied()
    }

    pub(crate) fn feet_at(&self, hop: usize) -> &[Foot] {
        match self.feet.get(hop) {
            Some(feet) => feet.as_slice(),
            None => &[],
        }
    }

    /// The first hop at the server.
    pub(crate) fn first_at(&self, server: ServerId) -> Option<usize> {
        self.servers.iter().position(|other| *other == server)
    }

    /// Whether a chain that did so many hops has none left at the server.
    pub(crate) fn is_through(&self, done: usize, server: ServerId) -> bool {
        !self.servers.iter().skip(done).any(|other| *other == server)
    }

    /// Which numbers of the pool the key may be.
    pub(crate) fn numbers_of(&self, pool: &Pool, key: Key) -> u128 {
        match key {
            Key::Literal(number) => pool.mask_of(number),
            Key::Param(parameter) => match self.arguments.get(usize::from(parameter)) {
                Some(numbers) => *numbers,
                None => 0,
            },
        }
    }
}

/// The feet of a hop, each once.
fn feet_of(
    alloc: Global,
    set: &ChainSet,
    program: ProgramId,
    hop: usize,
) -> Result<Vec<Foot>, Memory> {
    let mut feet: Vec<Foot> = Vec::new(alloc);
    for foot in footprint(alloc, set, program, hop)?.iter() {
        if !feet.contains(foot) {
            feet.push(*foot)?;
        }
    }
    Ok(feet)
}
