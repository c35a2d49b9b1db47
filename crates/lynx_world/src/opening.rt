//! The servers of a world in which nothing happened yet.
ghost use Rattle.std.specs.Prelude.{◌≡◌, IfOk, replicate};
ghost use Rattle.lynx_keep.specs.Kept.{nothing_kept};
ghost use Rattle.lynx_world.specs.inner.Servers.{new_servers};

use lynx_keep::MemoryKeeper;
use lynx_names::{Memory, ServerId};
use lynx_server::Server;
use lynx_set::ChainSet;
use std::alloc::Global;

/// Keepers that keep nothing yet, one for each server of the set.
pub fn empty_keepers(alloc: Global, set: &ChainSet) -> Result<Vec<MemoryKeeper>, Memory>
    ensures { IfOk result (λ keepers. keepers.items ≡ replicate set.now.servers nothing_kept) }
{
    let mut keepers = Vec::new(alloc);
    for _ in 0..set.servers() {
        keepers.push(MemoryKeeper::new(alloc))?;
    }
    Ok(keepers)
}

/// A server over each of these keepers, which keep nothing yet.
pub(crate) fn open_all(
    alloc: Global,
    set: &ChainSet,
    keepers: Vec<MemoryKeeper>,
) -> Result<Vec<Server<MemoryKeeper>>, Memory>
    requires { keepers.items ≡ replicate set.now.servers nothing_kept }
    ensures { IfOk result (λ servers. servers.items ≡ new_servers set.now) }
{
    let count = set.servers();
    let mut servers = Vec::new(alloc);
    let mut keepers = keepers.into_iter();
    for number in 0..count {
        let Some(keeper) = keepers.next() else {
            unreachable!()
        };
        servers.push(Server::new(alloc, set, ServerId::at(number), keeper)?)?;
    }
    Ok(servers)
}
