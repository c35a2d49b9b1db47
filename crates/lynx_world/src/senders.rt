//! The entries of hops, where they must have run: a chain's begin stands at its origin, and tells
//! the program.
ghost use Rattle.std.specs.Prelude.{◌≡◌, option_copied};
ghost use Rattle.lynx_world.specs.inner.Senders.{act_at, act_found, home_of};

use crate::listed::server_at;
use lynx_entry::Entry;
use lynx_keep::MemoryKeeper;
use lynx_names::{ChainId, ServerId};
use lynx_server::Server;
use lynx_set::ChainSet;

/// The entry of that hop of the chain at this server: two look-ups there.
fn act_at<'a>(
    servers: &'a [Server<MemoryKeeper>],
    server: ServerId,
    chain: &ChainId,
    hop: u8,
) -> Option<&'a Entry>
    ensures { option_copied result ≡ act_at chain.now hop servers.now server }
{
    match server_at(servers, server) {
        Some(here) => here.entry_of(*chain, hop),
        None => None,
    }
}

/// The server of that hop, for a chain that began with this entry.
fn home_of(set: &ChainSet, begun: &Entry, hop: u8) -> Option<ServerId>
    ensures { result ≡ home_of set.now hop begun.now }
{
    match begun {
        Entry::Begun(begun) => match set.hop(begun.request.program, usize::from(hop)) {
            Some(hop) => Some(hop.server),
            None => None,
        },
        Entry::Refused(_) | Entry::Hop(_) => None,
    }
}

/// The entry of that hop of the chain: two look-ups at its origin, and two at the hop's server.
pub(crate) fn find_act<'a>(
    set: &ChainSet,
    servers: &'a [Server<MemoryKeeper>],
    chain: &ChainId,
    hop: u8,
) -> Option<&'a Entry>
    ensures { option_copied result ≡ act_found set.now chain.now hop servers.now }
{
    let begun = act_at(servers, chain.origin, chain, 0)?;
    if hop == 0 {
        return Some(begun);
    }
    let server = home_of(set, begun, hop)?;
    act_at(servers, server, chain, hop)
}
