//! What was found so far, and how many texts may still be judged.
ghost use Rattle.std.specs.Prelude.{IfOk};
ghost use Rattle.lynx_mend.specs.inner.Judgements.{HasText};

use crate::change::Change;
use crate::judging::{Judged, judge_text};
use crate::marks::ProgramMarks;
use crate::mending::Mending;
use crate::source::Source;
use crate::trial::Trial;
use lynx_names::{Memory, ProgramId, ServerId};
use lynx_set::ChainSet;
use std::alloc::Global;

/// So many mendings are looked for, of which the smallest are told.
const ENOUGH: usize = 40;

/// Texts that are judged, at most.
const MAX_JUDGEMENTS: u64 = 4000;

/// What all judgements may cost together, in pairs of actions that are compared.
const MAX_EFFORT: u64 = 1_000_000_000;

/// What reading a text costs beside, in the same measure.
const READING_EFFORT: u64 = 100_000;

/// What a hop costs beside its actions.
const HOP_EFFORT: u64 = 3;

/// A search for what makes a set accepted.
#[derive(Drop)]
pub(crate) struct Search {
    source: Source,
    left: u64,
    found: Vec<Mending>,
}

/// How large the set is: its actions, and more for each hop.
fn size_of(set: &ChainSet) -> u64 {
    let mut size = 0u64;
    for (_, program) in set.programs() {
        for hop in program.hops.as_slice() {
            let actions = hop.actions.len() as u64;
            size = size.saturating_add(actions).saturating_add(HOP_EFFORT);
        }
    }
    size
}

/// How many texts may be judged: the fewer, the larger the set is.
fn most_judgements(set: &ChainSet) -> u64 {
    let size = size_of(set);
    let effort = size.saturating_mul(size).saturating_add(READING_EFFORT);
    (MAX_EFFORT / effort.max(1)).min(MAX_JUDGEMENTS)
}

/// Which program a change of the order begins, and at which server. None of another change.
fn ordered(change: &Change) -> Option<(ProgramId, ServerId)> {
    match *change {
        Change::Order {
            program,
            server,
            ..
        } => Some((program, server)),
        _ => None,
    }
}

/// Whether both are orders of one program that begin at one server.
fn are_alike(left: &Change, right: &Change) -> bool {
    match (ordered(left), ordered(right)) {
        (Some(left), Some(right)) => left.0 == right.0 && left.1 == right.1,
        _ => false,
    }
}

/// The one change of the mending, None where it has two.
fn only_change(mending: &Mending) -> Option<Change> {
    match mending.second() {
        None => Some(mending.first()),
        Some(_) => None,
    }
}

impl Search {
    /// Nothing was found yet.
    pub(crate) fn new(alloc: Global, set: &ChainSet) -> Result<Search, Memory> {
        Ok(Search {
            source: Source::new(alloc, set)?,
            left: most_judgements(set),
            found: Vec::new(alloc),
        })
    }

    /// How many texts may still be judged.
    pub(crate) fn left(&self) -> u64 {
        self.left
    }

    /// Judges the set with one change, or with two. It counts as faulty where no text may be judged
    /// any more.
    fn judge(
        &mut self,
        alloc: Global,
        first: &Trial,
        second: Option<&Trial>,
    ) -> Result<Judged, Memory>
        ensures { IfOk result HasText }
    {
        if self.left == 0 {
            return Ok(Judged::Faulty);
        }
        let text = self.source.changed(alloc, first, second)?;
        self.left -= 1;
        judge_text(alloc, text.as_slice())
    }

    /// Judges the set with one change, or with two, and keeps a mending where it is accepted. The
    /// programs by which it offends, if it does.
    pub(crate) fn attempt(
        &mut self,
        alloc: Global,
        first: &Trial,
        second: Option<&Trial>,
    ) -> Result<Option<ProgramMarks>, Memory> {
        match self.judge(alloc, first, second)? {
            Judged::Accepted(accepted) => {
                let other = second.map(|trial| trial.change);
                self.found
                    .push(Mending::new(first.change, other, accepted))?;
                Ok(None)
            }
            Judged::Offending(programs) => Ok(Some(programs)),
            Judged::Faulty => Ok(None),
        }
    }

    /// Whether enough was found, or no text may be judged any more.
    pub(crate) fn is_over(&self) -> bool {
        self.left == 0 || self.found.len() >= ENOUGH
    }

    /// Whether an order was found that begins the program where this one does.
    pub(crate) fn has_alike(&self, change: Change) -> bool {
        self.found
            .as_slice()
            .iter()
            .any(|mending| match only_change(mending) {
                Some(only) => are_alike(&only, &change),
                None => false,
            })
    }

    /// How many small changes were found that are enough alone.
    pub(crate) fn small_found(&self) -> usize {
        self.found
            .as_slice()
            .iter()
            .filter(|mending| match only_change(mending) {
                Some(only) => only.is_small(),
                None => false,
            })
            .count()
    }

    /// What was found.
    pub(crate) fn into_found(self) -> Vec<Mending> {
        self.found
    }
}
