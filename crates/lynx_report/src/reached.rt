//! How far the chains of a world have come.
ghost use Rattle.std.specs.Prelude.{◌≡◌, IfOk, OnOk};
ghost use Rattle.std.specs.BTreeMap.{get};
ghost use Rattle.std.specs.Option.{option_or};
ghost use Rattle.lynx_names.specs.declared.chain.ChainId.{ChainId};
ghost use Rattle.lynx_report.specs.Lasts.{told_at, told_of};
ghost use Rattle.lynx_report.specs.Owed.{chain_cmp};
ghost use Rattle.lynx_report.specs.inner.Reached.{reached_in, reached_of};

use lynx_entry::Entry;
use lynx_names::{ChainId, Memory, ProgramId};
use lynx_world::World;
use std::alloc::Global;
use std::collections::BTreeMap;

/// How far a chain has come.
#[derive(Clone, Copy)]
pub(crate) struct Reached {
    pub(crate) program: ProgramId,
    /// Its first hop that isn't done, or the count of its hops.
    pub(crate) next: usize,
}

/// The chain of which a hop ran in the entry, and how far that brings it.
fn reached_in(entry: &Entry) -> Option<(ChainId, Reached)>
    ensures { result ≡ reached_in entry.now }
{
    match entry {
        Entry::Begun(begun) => {
            let program = begun.request.program;
            Some((begun.chain, Reached { program, next: 1 }))
        }
        Entry::Refused(_) => None,
        Entry::Hop(ran) => {
            let program = ran.message.program;
            let next = usize::from(ran.message.hop) + 1;
            Some((ran.message.chain, Reached { program, next }))
        }
    }
}

/// The same of the entry at that place.
fn reached_at(world: &World, place: usize) -> Option<(ChainId, Reached)>
    ensures { result ≡ told_at reached_in world.now.list place }
{
    match world.entry(place) {
        Some(listed) => reached_in(listed.entry),
        None => None,
    }
}

/// Notes how far the chain has come, if a hop of one ran.
fn note(
    chains: &mut BTreeMap<ChainId, Reached>,
    reached: Option<(ChainId, Reached)>,
) -> Result<(), Memory>
    ensures { OnOk result ((chain : ChainId) → get chain_cmp chains.new chain
        ≡ option_or (told_of chain reached) (get chain_cmp chains.old chain)) }
{
    if let Some((chain, far)) = reached {
        chains.insert(chain, far)?;
    }
    Ok(())
}

/// How far each chain that began has come. Later entries of a chain bring it further.
pub(crate) fn reached_chains(
    alloc: Global,
    world: &World,
) -> Result<BTreeMap<ChainId, Reached>, Memory>
    ensures { IfOk result (λ chains. (chain : ChainId) → get chain_cmp chains chain
        ≡ reached_of world.now.list chain) }
{
    let mut chains = BTreeMap::new(alloc);
    for place in 0..world.len() {
        note(&mut chains, reached_at(world, place))?;
    }
    Ok(chains)
}
