//! The histories of a world's servers.
ghost use Rattle.std.specs.Prelude.{◌≡◌, ◌++◌, IfOk, OnOk, option_to_list, slice_get};
ghost use Rattle.std.specs.Option.{option_and_then};
ghost use Rattle.lynx_weave.specs.Rebuilt.{histories_in};
ghost use Rattle.lynx_world.specs.Worlds.{entry_at, history_of};
ghost use Rattle.lynx_carry.specs.Histories.{histories_of};

use lynx_entry::{Entry, TryCopy};
use lynx_names::{Memory, ServerId};
use lynx_world::World;
use std::alloc::Global;

/// The entry at that place of the world's list, if it is of the server.
fn entry_of(
    alloc: Global,
    world: &World,
    server: ServerId,
    place: usize,
) -> Result<Option<Entry>, Memory>
    ensures { IfOk result (λ entry. entry
        ≡ option_and_then (entry_at server) (slice_get world.now.list place)) }
{
    let Some(listed) = world.entry(place) else {
        return Ok(None);
    };
    if listed.server != server {
        return Ok(None);
    }
    Ok(Some(listed.entry.copy(alloc)?))
}

/// Adds the entry, if there is one.
fn add(history: &mut Vec<Entry>, entry: Option<Entry>) -> Result<(), Memory>
    ensures { OnOk result (history.new.items ≡ history.old.items ++ option_to_list entry) }
{
    if let Some(entry) = entry {
        history.push(entry)?;
    }
    Ok(())
}

/// The history of the server.
fn history_of(alloc: Global, world: &World, server: ServerId) -> Result<Vec<Entry>, Memory>
    ensures { IfOk result (λ history. history.items ≡ history_of server world.now.list) }
{
    let mut history = Vec::new(alloc);
    for place in 0..world.len() {
        let entry = entry_of(alloc, world, server, place)?;
        add(&mut history, entry)?;
    }
    Ok(history)
}

/// The history of each server of the world's set, in order. It takes a step for each server and
/// entry, and the memory of all entries once more.
pub fn histories(alloc: Global, world: &World) -> Result<Vec<Vec<Entry>>, Memory>
    ensures { IfOk result
        (λ histories. histories_in histories.items ≡ histories_of world.now) }
{
    let mut histories = Vec::new(alloc);
    for number in 0..world.set().servers() {
        let history = history_of(alloc, world, ServerId::at(number))?;
        histories.push(history)?;
    }
    Ok(histories)
}
