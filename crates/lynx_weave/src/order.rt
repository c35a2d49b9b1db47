//! The one order of all entries: by stamp, then server.
ghost use Rattle.std.specs.Prelude.{◌≡◌, IfOk, length, option_copied};
ghost use Rattle.lynx_weave.specs.inner.Orders.{IsNextAt, IsOrderOf, lesser, with_next};
ghost use Rattle.lynx_weave.specs.inner.Rebuilt.{AreRebuilt};
ghost use Rattle.lynx_weave.specs.Servers.{histories_of};
ghost use Rattle.lynx_weave.specs.Senders.{AreAllSent};

use lynx_entry::Entry;
use lynx_keep::MemoryKeeper;
use lynx_names::{Memory, Stamp};
use lynx_server::Server;
use lynx_set::ChainSet;
use lynx_world::Added;
use std::alloc::Global;

/// The least stamp so far with its server, or this one with this server where it is lower.
fn lesser(least: Option<(Stamp, usize)>, stamp: Stamp, number: usize) -> (Stamp, usize)
    ensures { result ≡ lesser least stamp number }
{
    match least {
        Some((so_far, first)) => {
            if stamp.time() < so_far.time() {
                (stamp, number)
            } else {
                (so_far, first)
            }
        }
        None => (stamp, number),
    }
}

/// The same with this server's next entry, if it has one.
fn with_next(
    least: Option<(Stamp, usize)>,
    number: usize,
    entry: Option<&Entry>,
) -> Option<(Stamp, usize)>
    ensures { result ≡ with_next least number (option_copied entry.entry) }
{
    match entry {
        Some(entry) => Some(lesser(least, entry.stamp(), number)),
        None => least,
    }
}

/// The server whose next entry has the least stamp, the first of those that have it; as many
/// entries of each are through. None where all are.
pub(crate) fn least_next(servers: &[Server<MemoryKeeper>], places: &[usize]) -> Option<usize>
    requires { length places.now ≡ length servers.now }
    ensures { IsNextAt (histories_of servers.now) places.now result }
{
    let mut least = None;
    for (number, here) in servers.iter().enumerate() {
        least = with_next(least, number, here.entry(places[number]));
    }
    match least {
        Some((_, number)) => Some(number),
        None => None,
    }
}

/// All entries of the servers, in order of stamp, then server. Each takes a walk over the servers,
/// of which there are at most 16.
pub(crate) fn order_of(
    alloc: Global,
    set: &ChainSet,
    servers: &[Server<MemoryKeeper>],
) -> Result<Vec<Added>, Memory>
    requires servers { AreRebuilt set.now servers.now }
    requires sent { AreAllSent set.now (histories_of servers.now) }
    ensures { IfOk result (λ order. IsOrderOf set.now servers.now order.items) }
{
    let mut order = Vec::new(alloc);
    let mut places = vec![in alloc; 0; usize::from(set.servers())]?;
    while let Some(number) = least_next(servers, places.as_slice()) {
        let place = places[number];
        let server = servers[number].server();
        order.push(Added { server, place })?;
        places[number] = place + 1;
    }
    Ok(order)
}
