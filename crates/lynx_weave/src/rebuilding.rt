//! Servers made of histories.
ghost use Rattle.std.specs.Prelude.{◌≡◌, ◌∷◌, ◌++◌, [], IfErr, IfOk, OnOk, length};
ghost use Rattle.lynx_weave.specs.Rebuilt.{histories_in};
ghost use Rattle.lynx_weave.specs.inner.Rebuilt.{AreRebuilt, IsRebuildFault, RebuildsOne};
ghost use Rattle.lynx_weave.specs.Servers.{histories_of};

use crate::fault::WeaveFault;
use lynx_entry::Entry;
use lynx_keep::MemoryKeeper;
use lynx_names::{Memory, ServerId};
use lynx_server::{OpenFault, Server, rebuild};
use lynx_set::ChainSet;
use std::alloc::Global;

/// A server of that history.
fn rebuild_one(
    alloc: Global,
    set: &ChainSet,
    server: ServerId,
    entries: Vec<Entry>,
) -> Result<Server<MemoryKeeper>, WeaveFault>
    ensures { RebuildsOne set.now server entries.items result }
{
    match rebuild(alloc, set, server, entries) {
        Ok(rebuilt) => Ok(rebuilt),
        Err(OpenFault::Damaged { place }) => Err(WeaveFault::Mismatch { server, place }),
        Err(OpenFault::Store | OpenFault::Memory) => Err(WeaveFault::Memory),
    }
}

/// One server more.
fn add(servers: &mut Vec<Server<MemoryKeeper>>, rebuilt: Server<MemoryKeeper>) -> Result<(), Memory>
    ensures { OnOk result (servers.new.items ≡ servers.old.items ++ rebuilt ∷ []) }
{
    servers.push(rebuilt)?;
    Ok(())
}

/// A server of each history. The entries are gone over once, and each takes the work of its hop and
/// a few look-ups.
pub(crate) fn rebuild_all(
    alloc: Global,
    set: &ChainSet,
    histories: Vec<Vec<Entry>>,
) -> Result<Vec<Server<MemoryKeeper>>, WeaveFault>
    requires { length histories.items ≡ set.now.servers }
    ensures servers { IfOk result (λ servers. AreRebuilt set.now servers.items
        × (histories_of servers.items ≡ histories_in histories.items)) }
    ensures fault { IfErr result (IsRebuildFault set.now (histories_in histories.items)) }
{
    let count = set.servers();
    let mut servers = Vec::new(alloc);
    let mut histories = histories.into_iter();
    for number in 0..count {
        let Some(entries) = histories.next() else {
            unreachable!()
        };
        match rebuild_one(alloc, set, ServerId::at(number), entries) {
            Ok(rebuilt) => add(&mut servers, rebuilt)?,
            Err(fault) => return Err(fault),
        }
    }
    Ok(servers)
}
