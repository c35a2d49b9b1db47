//! The script of a run that is left to chance.
use crate::choices::Choices;
use crate::plan::Plan;
use crate::script::script_text;
use lynx_names::Memory;
use lynx_set::ChainSet;
use std::alloc::Global;

/// Steps for each chain that is to begin, at most, until the chains are only brought to their ends.
const STEPS: u64 = 16;

/// Hops of a chain, at most, and as many events between them.
const LAST_STEPS: u64 = 32;

/// The text of a script in which at most so many chains begin. Mostly no chain owes a hop at its
/// end, which is for the caller to judge.
pub(crate) fn drawn_script(
    alloc: Global,
    set: &ChainSet,
    begins: u8,
    choices: &mut Choices,
) -> Result<String, Memory> {
    let mut plan = Plan::new(alloc, set)?;
    let mut left = begins;
    let haste = choices.below(12) + 3;
    for _ in 0..STEPS * u64::from(begins) {
        if left == 0 {
            break;
        }
        if choices.below(16) < haste {
            if plan.begin(alloc, choices)? {
                left -= 1;
            }
        } else {
            step(alloc, &mut plan, choices)?;
        }
    }
    for _ in 0..LAST_STEPS * u64::from(begins) {
        if !step(alloc, &mut plan, choices)? {
            break;
        }
    }
    Ok(script_text(alloc, set, plan.events.as_slice())?)
}

/// A chain is brought further, and now and then something goes wrong before. False where no chain
/// owes a hop.
fn step(alloc: Global, plan: &mut Plan, choices: &mut Choices) -> Result<bool, Memory> {
    if choices.once_in(5) {
        plan.stumble(alloc, choices)?;
    }
    plan.advance(alloc, choices)
}
