//! Where the messages of later hops were sent.
ghost use Rattle.std.specs.Prelude.{◌≡◌, ◌↔◌, IfOk, IsTrue, option_copied};
ghost use Rattle.lynx_weave.specs.Servers.{AreServersOf, histories_of};
ghost use Rattle.lynx_weave.specs.Senders.{FindsSenders, IsSentBefore, IsUnsentFirst, sender_at, sent_before};

use crate::fault::WeaveFault;
use crate::servers::server_at;
use lynx_entry::{Entry, Message};
use lynx_keep::Keeper;
use lynx_names::Memory;
use lynx_rules::next_of;
use lynx_server::Server;
use lynx_set::ChainSet;
use std::alloc::Global;

/// The entry of that hop of the message's chain, at the server of that hop: one look-up there.
fn sender_at<'a, K: Keeper>(
    set: &ChainSet,
    servers: &'a [Server<K>],
    message: &Message,
    before: u8,
) -> Option<&'a Entry>
    ensures { option_copied result
        ≡ sender_at set.now (histories_of servers.now) message.now before }
{
    let Some(hop) = set.hop(message.program, usize::from(before)) else {
        return None;
    };
    match server_at(servers, hop.server) {
        Some(here) => here.entry_of(message.chain, before),
        None => None,
    }
}

/// What the entry of the hop before the message's sends.
fn sent_before<K: Keeper>(
    alloc: Global,
    set: &ChainSet,
    servers: &[Server<K>],
    message: &Message,
) -> Result<Option<Message>, Memory>
    ensures { IfOk result (λ sent. sent
        ≡ sent_before set.now (histories_of servers.now) message.now message.now.hop) }
{
    let Some(before) = message.hop.checked_sub(1) else {
        return Ok(None);
    };
    match sender_at(set, servers, message, before) {
        Some(entry) => next_of(alloc, set, entry),
        None => Ok(None),
    }
}

/// The entry of the hop before sends this very message.
fn is_sent<K: Keeper>(
    alloc: Global,
    set: &ChainSet,
    servers: &[Server<K>],
    message: &Message,
) -> Result<bool, Memory>
    ensures { IfOk result (λ sent. IsTrue sent
        ↔ IsSentBefore set.now (histories_of servers.now) message.now) }
{
    match sent_before(alloc, set, servers, message)? {
        Some(sent) => Ok(sent == *message),
        None => Ok(false),
    }
}

/// The place of the first entry whose message isn't sent by the entry of the hop before.
fn first_unsent<K: Keeper>(
    alloc: Global,
    set: &ChainSet,
    servers: &[Server<K>],
    history: &[Entry],
) -> Result<Option<usize>, Memory>
    ensures { IfOk result (IsUnsentFirst set.now (histories_of servers.now) history.now) }
{
    for (place, entry) in history.iter().enumerate() {
        if let Entry::Hop(ran) = entry {
            if !is_sent(alloc, set, servers, &ran.message)? {
                return Ok(Some(place));
            }
        }
    }
    Ok(None)
}

/// Whether each later hop ran on a message that an entry of the hop's server before sends. Where
/// the servers are all that ran it always is so: the parts of a legal list never mismatch. Mismatch
/// names the first entry whose message nobody sends, by server and place. One look-up and two
/// copies of a message for each such entry.
pub fn check_senders<K: Keeper>(
    alloc: Global,
    set: &ChainSet,
    servers: &[Server<K>],
) -> Result<(), WeaveFault>
    requires { AreServersOf set.now servers.now }
    ensures { FindsSenders set.now (histories_of servers.now) result }
{
    for here in servers {
        if let Some(place) = first_unsent(alloc, set, servers, here.history())? {
            return Err(WeaveFault::Mismatch {
                server: here.server(),
                place: place as u64,
            });
        }
    }
    Ok(())
}
