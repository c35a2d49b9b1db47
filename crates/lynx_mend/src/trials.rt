//! The changes that are tried, the smallest first.
use crate::cuts::{add_cuts, add_drops, add_leave};
use crate::marks::ProgramMarks;
use crate::moves::{add_orders, add_turns};
use crate::ranges::add_ranges;
use crate::trial::Trial;
use lynx_names::limits::MAX_PROGRAMS;
use lynx_names::{Memory, ProgramId};
use lynx_set::ChainSet;
use std::alloc::Global;

fn sort(trials: &mut Vec<Trial>) -> Result<(), Memory> {
    trials.sort_by_key(|trial| trial.change.cost())?;
    Ok(())
}

/// The small changes of the programs: those that keep all programs whole and touch one alone.
pub(crate) fn small_trials(
    alloc: Global,
    set: &ChainSet,
    programs: &ProgramMarks,
) -> Result<Vec<Trial>, Memory> {
    let mut trials = Vec::new(alloc);
    for number in 0..MAX_PROGRAMS {
        if let Some(program) = ProgramId::new(number) {
            if programs.has(program) {
                add_orders(alloc, set, program, &mut trials)?;
                add_turns(alloc, set, program, &mut trials)?;
                add_drops(alloc, set, program, &mut trials)?;
            }
        }
    }
    sort(&mut trials)?;
    Ok(trials)
}

/// The large changes of the programs, of each alone and of each two.
pub(crate) fn large_trials(
    alloc: Global,
    set: &ChainSet,
    programs: &ProgramMarks,
) -> Result<Vec<Trial>, Memory> {
    let mut trials = Vec::new(alloc);
    for number in 0..MAX_PROGRAMS {
        if let Some(program) = ProgramId::new(number) {
            if programs.has(program) {
                add_cuts(alloc, set, program, &mut trials)?;
                add_ranges(alloc, set, program, programs, &mut trials)?;
                add_leave(alloc, program, &mut trials)?;
            }
        }
    }
    sort(&mut trials)?;
    Ok(trials)
}
