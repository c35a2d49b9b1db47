//! The chains that began in a world.
ghost use Rattle.std.specs.Prelude.{◌≡◌, ◌++◌, [], IfOk, OnOk};
ghost use Rattle.std.specs.List.{cons_option};
ghost use Rattle.lynx_order.specs.inner.Begun.{begun_chains, chain_begun};

use crate::listed::entry_at;
use lynx_entry::Entry;
use lynx_names::{ChainId, Memory};
use lynx_world::World;
use std::alloc::Global;

/// Adds the chain that began in the entry, if one did.
fn add_begun(chains: &mut Vec<ChainId>, entry: &Entry) -> Result<(), Memory>
    ensures { OnOk result (chains.new.items ≡ chains.old.items
        ++ cons_option (chain_begun entry.now) []) }
{
    match entry {
        Entry::Begun(begun) => chains.push(begun.chain)?,
        Entry::Refused(_) | Entry::Hop(_) => {}
    }
    Ok(())
}

/// The chains that began, in the order of the world's list.
pub(crate) fn begun_chains(alloc: Global, world: &World) -> Result<Vec<ChainId>, Memory>
    ensures { IfOk result (λ chains. chains.items ≡ begun_chains world.now.list) }
{
    let mut chains = Vec::new(alloc);
    for place in 0..world.len() {
        add_begun(&mut chains, entry_at(world, place))?;
    }
    Ok(chains)
}
