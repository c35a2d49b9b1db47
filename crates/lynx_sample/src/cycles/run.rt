//! A run so far: the cells, the chains, and the hops that were done.
use crate::cycles::draft::HopOf;
use crate::cycles::facts::Facts;
use lynx_cells::{Cells, Changes};
use lynx_hops::run::{HopFault, run_hop};
use lynx_names::{Memory, ProgramId, TryCopy, Values};
use std::alloc::Global;

/// A chain that began.
#[derive(Drop)]
pub(crate) struct Begun {
    pub program: usize,
    pub args: Values,
    /// What each hop that is done gave.
    pub results: Vec<Values>,
}

/// What came of a hop that was tried.
#[derive(Clone, Copy)]
pub(crate) enum Acted {
    Done,
    /// The need of this number isn't met.
    Refused(u8),
    /// It isn't the chain's turn, or it owes no hop.
    Waits,
}

impl Acted {
    pub(crate) fn is_done(self) -> bool {
        matches!(self, Acted::Done)
    }
}

/// Of a run what decides the next step.
#[derive(Drop)]
pub(crate) struct Run {
    pub cells: Cells,
    pub chains: Vec<Begun>,
    /// The hops, in the order in which they were done.
    pub steps: Vec<HopOf>,
}

impl Run {
    pub(crate) fn new(alloc: Global) -> Run {
        Run {
            cells: Cells::new(alloc),
            chains: Vec::new(alloc),
            steps: Vec::new(alloc),
        }
    }

    /// A chain of the program begins, the last of the run. Where it can't, the run stays as it is.
    pub(crate) fn begin(
        &mut self,
        alloc: Global,
        facts: &Facts<'_>,
        program: usize,
        args: &Values,
    ) -> Result<Acted, Memory> {
        let chain = self.chains.len();
        self.chains.push(Begun {
            program,
            args: args.copy(alloc)?,
            results: Vec::new(alloc),
        })?;
        let acted = self.act(alloc, facts, chain)?;
        if !acted.is_done() {
            self.chains.truncate(chain);
        }
        Ok(acted)
    }

    /// The next hop of the chain is done, if it can be.
    pub(crate) fn act(
        &mut self,
        alloc: Global,
        facts: &Facts<'_>,
        chain: usize,
    ) -> Result<Acted, Memory> {
        let Some(program) = self.ready(facts, chain) else {
            return Ok(Acted::Waits);
        };
        let Some(begun) = self.chains.get(chain) else {
            return Ok(Acted::Waits);
        };
        let hop = begun.results.len();
        let args = begun.args.as_slice();
        let earlier = begun.results.as_slice();
        match run_hop(alloc, facts.set, program, hop, args, earlier, &self.cells) {
            Ok(ran) => {
                let (results, changes) = ran.spend();
                self.note(HopOf { chain, hop }, results, &changes)?;
                Ok(Acted::Done)
            }
            Err(HopFault::Refused(need)) => Ok(Acted::Refused(need)),
            Err(HopFault::Memory) => Err(Memory),
        }
    }

    /// The chain's program, where it owes a hop and each earlier chain of its origin is through at
    /// that hop's server.
    fn ready(&self, facts: &Facts<'_>, chain: usize) -> Option<ProgramId> {
        let begun = self.chains.get(chain)?;
        let program = facts.program(begun.program)?;
        let server = *program.servers.get(begun.results.len())?;
        let is_turn = self.chains.iter().take(chain).all(|earlier| {
            facts.program(earlier.program).is_none_or(|other| {
                other.origin() != program.origin()
                    || other.is_through(earlier.results.len(), server)
            })
        });
        if is_turn { Some(program.program) } else { None }
    }

    /// The hop is done.
    fn note(&mut self, step: HopOf, results: Values, changes: &Changes) -> Result<(), Memory> {
        self.cells.stage(changes)?;
        self.cells.apply(changes);
        if let Some(begun) = self.chains.get_mut(step.chain) {
            begun.results.push(results)?;
        }
        self.steps.push(step)?;
        Ok(())
    }

    /// The chains that aren't among those run as far as turns let them.
    pub(crate) fn run_others(
        &mut self,
        alloc: Global,
        facts: &Facts<'_>,
        circle: &[usize],
    ) -> Result<(), Memory> {
        for _ in 0..self.chains.len().saturating_mul(8) {
            let mut has_acted = false;
            for chain in 0..self.chains.len() {
                if !circle.contains(&chain) && self.act(alloc, facts, chain)?.is_done() {
                    has_acted = true;
                }
            }
            if !has_acted {
                break;
            }
        }
        Ok(())
    }

    /// Whether no chain owes a hop.
    pub(crate) fn is_whole(&self, facts: &Facts<'_>) -> bool {
        self.chains
            .iter()
            .all(|begun| begun.results.len() == facts.hops(begun.program))
    }
}
