//! What isn't owed at a start: the messages whose hops were done before.
ghost use Rattle.std.specs.Prelude.{◌<◌, ℕ, List, IfOk, length};
ghost use Rattle.lynx_entry.specs.Entry.{History};
ghost use Rattle.lynx_weave.specs.Servers.{histories_of};
ghost use Rattle.lynx_cluster.specs.inner.Serving.{AreDone};
ghost use Rattle.lynx_cluster.specs.inner.Settling.{AreSettled, IsDoneIn};

use lynx_entry::Entry;
use lynx_keep::Keeper;
use lynx_names::Memory;
use lynx_server::Server;
use lynx_worker::Acknowledgement;
use std::alloc::Global;

/// An acknowledgement for each hop behind a first that the server did, for the server that sends
/// its message.
fn acknowledgements_of<K: Keeper>(
    alloc: Global,
    state: &Server<K>,
) -> Result<Vec<Acknowledgement>, Memory>
    ensures { IfOk result (λ acknowledgements. AreDone state.now.history acknowledgements.items) }
{
    let mut acknowledgements = Vec::new(alloc);
    for entry in state.history() {
        let Entry::Hop(ran) = entry else {
            continue;
        };
        let (chain, hop) = (ran.message.chain, ran.message.hop);
        if let Some(to) = state.sender_of(&chain, hop) {
            acknowledgements.push(Acknowledgement { to, chain, hop })?;
        }
    }
    Ok(acknowledgements)
}

/// Marks at the server that sends its message that a hop was done.
fn settle_one<K: Keeper>(servers: &mut [Server<K>], acknowledgement: &Acknowledgement)
    ensures { (histories : List History) → IsDoneIn histories acknowledgement.now.chain
        acknowledgement.now.hop → AreSettled histories servers.old servers.new }
{
    let index = acknowledgement.to.index();
    if index < servers.len() {
        servers[index].acknowledge(acknowledgement.chain, acknowledgement.hop);
    }
}

/// Marks at the others what one server did.
fn settle_at<K: Keeper>(
    alloc: Global,
    servers: &mut [Server<K>],
    receiver: usize,
) -> Result<(), Memory>
    requires { receiver < length servers.old }
    ensures { AreSettled (histories_of servers.old) servers.old servers.new }
{
    let acknowledgements = acknowledgements_of(alloc, &servers[receiver])?;
    for acknowledgement in acknowledgements.as_slice() {
        settle_one(servers, acknowledgement);
    }
    Ok(())
}

/// Marks at each server the messages whose hops have their entries at the others, so that they
/// aren't sent again: a server that was opened owes those of all its entries, since
/// acknowledgements aren't stored. Three look-ups for each hop behind a first, and memory for an
/// acknowledgement of each that one server did. Where there is none for them some are sent again.
pub(crate) fn settle<K: Keeper>(alloc: Global, servers: &mut [Server<K>]) -> Result<(), Memory>
    ensures { AreSettled (histories_of servers.old) servers.old servers.new }
{
    for receiver in 0..servers.len() {
        settle_at(alloc, servers, receiver)?;
    }
    Ok(())
}
