//! Running events in a world.
ghost use Rattle.std.specs.Prelude.{◌≡◌, IfOk, OnOk};
ghost use Rattle.lynx_names.specs.declared.limits.TheConstants.{MAX_HELD};
ghost use Rattle.lynx_world.specs.Steps.{step};
ghost use Rattle.lynx_world.specs.Worlds.{new_world};
ghost use Rattle.lynx_report.specs.Runs.{outcomes_of, world_after};

use lynx_names::{Items, Memory};
use lynx_set::ChainSet;
use lynx_world::{Event, Outcome, World, empty_keepers};
use std::alloc::Global;

/// A world after events, and what they came to, one after another.
#[derive(Drop)]
pub struct Ran {
    pub world: World,
    pub outcomes: Items<Outcome>,
}

/// Runs one event, unless memory was wanting.
pub(crate) fn run_event(alloc: Global, world: &mut World, event: Event) -> Result<Outcome, Memory>
    ensures worlds { OnOk result (world.new ≡ (step MAX_HELD world.old event).world) }
    ensures outcome { IfOk result (λ outcome. outcome ≡ (step MAX_HELD world.old event).outcome) }
{
    match world.apply(alloc, event) {
        Outcome::Memory => Err(Memory),
        outcome => Ok(outcome),
    }
}

/// Runs the events in order.
fn run_events(
    alloc: Global,
    world: &mut World,
    events: Vec<Event>,
) -> Result<Items<Outcome>, Memory>
    ensures worlds { OnOk result (world.new ≡ world_after world.old events.items) }
    ensures outcomes { IfOk result (λ outcomes. outcomes ≡ outcomes_of world.old events.items) }
{
    let mut outcomes = Items::new(alloc);
    for event in events {
        let outcome = run_event(alloc, world, event)?;
        outcomes.push(outcome)?;
    }
    Ok(outcomes)
}

/// Runs the events in a new world, unless memory is wanting.
pub fn run_in_new_world(alloc: Global, set: ChainSet, events: Vec<Event>) -> Result<Ran, Memory>
    ensures worlds { IfOk result (λ ran. ran.world ≡ world_after (new_world set) events.items) }
    ensures outcomes { IfOk result
        (λ ran. ran.outcomes ≡ outcomes_of (new_world set) events.items) }
{
    let keepers = empty_keepers(alloc, &set)?;
    let mut world = World::new(alloc, set, keepers)?;
    let outcomes = run_events(alloc, &mut world, events)?;
    Ok(Ran { world, outcomes })
}
