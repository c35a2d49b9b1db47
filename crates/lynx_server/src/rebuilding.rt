//! A server over a history that was taken out of another.
ghost use Rattle.lynx_server.specs.Rebuilding.{Rebuilds};

use crate::fault::OpenFault;
use crate::replay::{Replayed, replay};
use crate::server::Server;
use lynx_entry::Entry;
use lynx_keep::MemoryKeeper;
use lynx_names::{ServerId, learn};
use lynx_set::ChainSet;
use std::alloc::Global;

/// A server that did what these entries tell, over a keeper in memory. The entries are gone over
/// once, and each takes the work of its hop and a few look-ups. Damaged names the first that isn't
/// lawful after those before it; the answer is never Store.
pub fn rebuild(
    alloc: Global,
    set: &ChainSet,
    server: ServerId,
    entries: Vec<Entry>,
) -> Result<Server<MemoryKeeper>, OpenFault>
    ensures { Rebuilds set.now server entries.items result }
{
    // A lawful entry is in range where the server's number is.
    learn(server.number());
    let replayed = match replay(alloc, set, server, entries.as_slice())? {
        Replayed::Done(replayed) => replayed,
        Replayed::Differs(place) => {
            return Err(OpenFault::Damaged {
                place: place as u64,
            });
        }
    };
    let keeper = MemoryKeeper::keeping(alloc, entries.as_slice(), replayed.cells())?;
    Ok(replayed.over(keeper))
}
