//! The judgement on a script's text before it is written.
ghost use Rattle.std.specs.Prelude.{◌≡◌, Bool, false, IsTrue, IfOk, IfErr};
ghost use Rattle.lynx_world.specs.Worlds.{new_world};
ghost use Rattle.lynx_report.specs.Runs.{world_after};
ghost use Rattle.lynx_sample.specs.Samples.{EndsWell, HasCycle, IsSampleOver, OwesNothing};
ghost use Rattle.lynx_sample.specs.inner.Found.{NotFoundFor};

use crate::fault::SampleFault;
use lynx_entry::Event;
use lynx_lex::{FaultKind, TextFault};
use lynx_lines::parse_script;
use lynx_names::{Memory, TryCopy};
use lynx_order::{Explained, explain};
use lynx_report::{RunFault, owed_hops, run_in_new_world};
use lynx_set::ChainSet;
use lynx_world::World;
use std::alloc::Global;

/// Whether the text is that of a script whose run leaves no hop owed and, where a cycle is asked
/// for, ends with one.
pub(crate) fn is_sample(
    alloc: Global,
    set: &ChainSet,
    script: &[u8],
    cycle: bool,
) -> Result<bool, SampleFault>
    ensures sample { IfOk result (λ is. IsTrue is → IsSampleOver cycle set.now script.now) }
    ensures only { IfErr result (NotFoundFor cycle) }
{
    match parse_script(alloc, set, script) {
        Ok(events) => Ok(run_ends_well(alloc, set, events, cycle)?),
        Err(fault) => no_script(fault),
    }
}

/// The text is that of no script, or it isn't known whether it is.
fn no_script(fault: TextFault) -> Result<bool, SampleFault>
    ensures never { IfOk result (λ is. is ≡ false) }
    ensures only { IfErr result (λ fault. (cycle : Bool) → NotFoundFor cycle fault) }
{
    match fault.kind {
        FaultKind::Memory => Err(SampleFault::Run(RunFault::Memory)),
        FaultKind::TooLong => Err(SampleFault::TooLong),
        _ => Ok(false),
    }
}

/// Whether a run of the events ends so.
fn run_ends_well(
    alloc: Global,
    set: &ChainSet,
    events: Vec<Event>,
    cycle: bool,
) -> Result<bool, Memory>
    ensures { IfOk result (λ well. IsTrue well → EndsWell cycle set.now
        (world_after (new_world set.now) events.items).list) }
{
    let own = set.copy(alloc)?;
    let ran = run_in_new_world(alloc, own, events)?;
    ends_well(alloc, &ran.world, cycle)
}

/// Whether no chain of the world owes a hop and, where a cycle is asked for, one explains the
/// world.
fn ends_well(alloc: Global, world: &World, cycle: bool) -> Result<bool, Memory>
    ensures { IfOk result (λ well. IsTrue well → EndsWell cycle world.now.set world.now.list) }
{
    if !owes_nothing(alloc, world)? {
        return Ok(false);
    }
    if cycle {
        has_cycle(alloc, world)
    } else {
        Ok(true)
    }
}

/// Whether no chain of the world owes a hop.
fn owes_nothing(alloc: Global, world: &World) -> Result<bool, Memory>
    ensures { IfOk result (λ nothing. IsTrue nothing → OwesNothing world.now.set world.now.list) }
{
    let owed = owed_hops(alloc, world)?;
    match owed.as_slice() {
        [] => Ok(true),
        _ => Ok(false),
    }
}

/// Whether a cycle explains the world.
fn has_cycle(alloc: Global, world: &World) -> Result<bool, Memory>
    ensures { IfOk result (λ has. IsTrue has → HasCycle world.now.set world.now.list) }
{
    match explain(alloc, world)? {
        Explained::Order(_) => Ok(false),
        Explained::Cycle(_) => Ok(true),
    }
}
