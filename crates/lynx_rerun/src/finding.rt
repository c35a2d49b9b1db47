//! The message of a hop, by the entry of the hop before: a chain's begin stands at its origin, and
//! tells the program.
ghost use Rattle.std.specs.Prelude.{◌≡◌, IfOk, option_copied};
ghost use Rattle.lynx_world.specs.inner.Senders.{home_of};
ghost use Rattle.lynx_rerun.specs.Events.{act_at, act_found, sent_message};

use lynx_entry::{Entry, Message};
use lynx_keep::Keeper;
use lynx_names::{ChainId, Memory, ServerId};
use lynx_rules::next_of;
use lynx_server::Server;
use lynx_set::ChainSet;
use std::alloc::Global;

/// The entry of that hop of the chain at this server: two look-ups there.
fn act_at<'a, K: Keeper>(
    servers: &'a [Server<K>],
    server: ServerId,
    chain: &ChainId,
    hop: u8,
) -> Option<&'a Entry>
    ensures { option_copied result ≡ act_at chain.now hop servers.now server }
{
    match servers.get(server.index()) {
        Some(here) => here.entry_of(*chain, hop),
        None => None,
    }
}

/// The server of that hop, for a chain that began with this entry.
fn home_of(set: &ChainSet, begun: &Entry, hop: u8) -> Option<ServerId>
    ensures { result ≡ home_of set.now hop begun.now }
{
    match begun {
        Entry::Begun(begun) => match set.hop(begun.request.program, usize::from(hop)) {
            Some(hop) => Some(hop.server),
            None => None,
        },
        Entry::Refused(_) | Entry::Hop(_) => None,
    }
}

/// The entry of that hop of the chain: two look-ups at its origin, and two at the hop's server.
fn find_act<'a, K: Keeper>(
    set: &ChainSet,
    servers: &'a [Server<K>],
    chain: &ChainId,
    hop: u8,
) -> Option<&'a Entry>
    ensures { option_copied result ≡ act_found set.now chain.now hop servers.now }
{
    let begun = act_at(servers, chain.origin, chain, 0)?;
    if hop == 0 {
        return Some(begun);
    }
    let server = home_of(set, begun, hop)?;
    act_at(servers, server, chain, hop)
}

/// The message of that hop of the chain, if an entry of the servers sends it.
pub(crate) fn sent_message<K: Keeper>(
    alloc: Global,
    set: &ChainSet,
    servers: &[Server<K>],
    chain: &ChainId,
    hop: u8,
) -> Result<Option<Message>, Memory>
    ensures { IfOk result (λ found. found ≡ sent_message set.now chain.now hop servers.now) }
{
    let Some(before) = hop.checked_sub(1) else {
        return Ok(None);
    };
    match find_act(set, servers, chain, before) {
        Some(entry) => next_of(alloc, set, entry),
        None => Ok(None),
    }
}
