//! The last hop that each chain did.
ghost use Rattle.std.specs.Prelude.{◌≡◌, IfOk, OnOk};
ghost use Rattle.std.specs.BTreeMap.{get};
ghost use Rattle.std.specs.Option.{option_or};
ghost use Rattle.lynx_names.specs.declared.chain.ChainId.{ChainId};
ghost use Rattle.lynx_report.specs.Lasts.{told_at, told_of};
ghost use Rattle.lynx_report.specs.Owed.{chain_cmp};
ghost use Rattle.lynx_audit.specs.Latest.{latest_in, latest_of};

use lynx_entry::Entry;
use lynx_names::{ChainId, Memory, ProgramId, Stamp};
use lynx_world::World;
use std::alloc::Global;
use std::collections::BTreeMap;

/// The last hop that a chain did: its program, and the stamp of the entry.
#[derive(Clone, Copy)]
pub(crate) struct Latest {
    pub(crate) program: ProgramId,
    pub(crate) stamp: Stamp,
}

/// The chain of which a hop ran in the entry, with what this entry tells.
fn latest_in(entry: &Entry) -> Option<(ChainId, Latest)>
    ensures { result ≡ latest_in entry.now }
{
    match entry {
        Entry::Begun(begun) => {
            let program = begun.request.program;
            let stamp = begun.stamp;
            Some((begun.chain, Latest { program, stamp }))
        }
        Entry::Refused(_) => None,
        Entry::Hop(ran) => {
            let program = ran.message.program;
            let stamp = ran.stamp;
            Some((ran.message.chain, Latest { program, stamp }))
        }
    }
}

/// The same of the entry at that place.
fn latest_at(world: &World, place: usize) -> Option<(ChainId, Latest)>
    ensures { result ≡ told_at latest_in world.now.list place }
{
    match world.entry(place) {
        Some(listed) => latest_in(listed.entry),
        None => None,
    }
}

/// Notes what the chain did last, if a hop of one ran.
fn note(
    chains: &mut BTreeMap<ChainId, Latest>,
    latest: Option<(ChainId, Latest)>,
) -> Result<(), Memory>
    ensures { OnOk result ((chain : ChainId) → get chain_cmp chains.new chain
        ≡ option_or (told_of chain latest) (get chain_cmp chains.old chain)) }
{
    if let Some((chain, last)) = latest {
        chains.insert(chain, last)?;
    }
    Ok(())
}

/// What each chain that began did last.
pub(crate) fn latest_chains(
    alloc: Global,
    world: &World,
) -> Result<BTreeMap<ChainId, Latest>, Memory>
    ensures { IfOk result (λ chains. (chain : ChainId) → get chain_cmp chains chain
        ≡ latest_of world.now.list chain) }
{
    let mut chains = BTreeMap::new(alloc);
    for place in 0..world.len() {
        note(&mut chains, latest_at(world, place))?;
    }
    Ok(chains)
}
