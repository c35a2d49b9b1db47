//! What happens at servers: begins, deliveries, wakes and looks, in an order by luck.
use crate::caller::Caller;
use crate::luck::Luck;
use lynx_entry::{Delivered, Message};
use lynx_keep::Keeper;
use lynx_names::{ChainId, Memory, ServerId};
use lynx_server::Server;
use lynx_set::ChainSet;
use std::alloc::Global;

/// The caller asks the server where the program begins.
fn begin<K: Keeper>(
    alloc: Global,
    set: &ChainSet,
    servers: &mut [Server<K>],
    caller: &mut Caller,
) -> Result<(), Memory> {
    let request = caller.request(alloc)?;
    let Some(origin) = set.origin(request.program) else {
        return Ok(());
    };
    if origin.index() >= servers.len() {
        return Ok(());
    }
    let answer = servers[origin.index()].begin(alloc, request, caller.greatest());
    caller.hear(alloc, origin, answer)
}

/// A message that the server owes, from that place of its history on, and the number of the server
/// that it is for.
fn due<K: Keeper>(
    alloc: Global,
    set: &ChainSet,
    server: &Server<K>,
    from: u64,
) -> Result<Option<(usize, Message)>, Memory> {
    let Some((_, message)) = server.messages_due(alloc, from)? else {
        return Ok(None);
    };
    match set.hop(message.program, usize::from(message.hop)) {
        Some(hop) => Ok(Some((hop.server.index(), message))),
        None => Ok(None),
    }
}

/// Delivers the message to the server. Whether its hop is done.
fn deliver_to<K: Keeper>(
    alloc: Global,
    servers: &mut [Server<K>],
    to: usize,
    message: Message,
) -> bool {
    if to >= servers.len() {
        return false;
    }
    let delivered = servers[to].deliver(alloc, message);
    matches!(delivered, Delivered::Done { .. } | Delivered::Repeat { .. })
}

/// Delivers a message that the server owes, from some place of its history on. What comes back of
/// it may be lost.
fn deliver<K: Keeper>(
    alloc: Global,
    set: &ChainSet,
    servers: &mut [Server<K>],
    sender: usize,
    luck: &mut Luck,
) -> Result<(), Memory> {
    if sender >= servers.len() {
        return Ok(());
    }
    let from = luck.below(servers[sender].history().len() as u64);
    let Some((to, message)) = due(alloc, set, &servers[sender], from)? else {
        return Ok(());
    };
    let (chain, hop) = (message.chain, message.hop);
    if deliver_to(alloc, servers, to, message) && sender < servers.len() && !luck.once_in(5) {
        servers[sender].acknowledge(chain, hop);
    }
    Ok(())
}

/// Wakes a message that the server holds.
fn wake<K: Keeper>(alloc: Global, servers: &mut [Server<K>], at: usize) {
    if at < servers.len() {
        let _ = servers[at].wake(alloc);
    }
}

/// The caller looks at the server for that hop of the chain.
fn look_at<K: Keeper>(
    alloc: Global,
    server: &Server<K>,
    caller: &mut Caller,
    chain: &ChainId,
    hop: u8,
) -> Result<(), Memory> {
    match server.results(*chain, hop) {
        Some(seen) => caller.see(alloc, server.server(), chain, hop, seen),
        None => Ok(()),
    }
}

/// The caller looks at the server for some hop of some chain.
fn look<K: Keeper>(
    alloc: Global,
    server: &Server<K>,
    caller: &mut Caller,
    luck: &mut Luck,
) -> Result<(), Memory> {
    let origin = ServerId::among(3, luck.below(3)).unwrap_or(ServerId::first());
    let index = luck.below(20);
    let hop = u8::try_from(luck.below(3)).unwrap_or(0);
    look_at(alloc, server, caller, &ChainId { origin, index }, hop)
}

/// Something happens.
pub fn step<K: Keeper>(
    alloc: Global,
    set: &ChainSet,
    servers: &mut [Server<K>],
    caller: &mut Caller,
    luck: &mut Luck,
) -> Result<(), Memory> {
    let at = luck.server(servers.len());
    match luck.below(12) {
        0..=3 => {
            caller.choose(luck);
            begin(alloc, set, servers, caller)
        }
        4..=8 => deliver(alloc, set, servers, at, luck),
        9 | 10 => {
            wake(alloc, servers, at);
            Ok(())
        }
        _ if at < servers.len() => look(alloc, &servers[at], caller, luck),
        _ => Ok(()),
    }
}

/// Asks again what a caller asked last, where it doesn't know what became of it. Whether all know.
fn ask_again<K: Keeper>(
    alloc: Global,
    set: &ChainSet,
    servers: &mut [Server<K>],
    callers: &mut [Caller],
) -> Result<bool, Memory> {
    let mut is_quiet = true;
    for caller in callers {
        if caller.is_waiting() {
            is_quiet = false;
            begin(alloc, set, servers, caller)?;
        }
    }
    Ok(is_quiet)
}

/// Delivers a message of each server, and wakes one. Whether none is owed.
fn deliver_all<K: Keeper>(
    alloc: Global,
    set: &ChainSet,
    servers: &mut [Server<K>],
    luck: &mut Luck,
) -> Result<bool, Memory> {
    let mut is_quiet = true;
    for at in 0..servers.len() {
        if at < servers.len() && servers[at].messages_due(alloc, 0)?.is_some() {
            is_quiet = false;
        }
        deliver(alloc, set, servers, at, luck)?;
        wake(alloc, servers, at);
    }
    Ok(is_quiet)
}

/// All that is left to do is done, as far as servers can. Whether nothing is left.
pub fn settle<K: Keeper>(
    alloc: Global,
    set: &ChainSet,
    servers: &mut [Server<K>],
    callers: &mut [Caller],
    luck: &mut Luck,
) -> Result<bool, Memory> {
    for _ in 0..10_000u32 {
        let all_know = ask_again(alloc, set, servers, callers)?;
        if deliver_all(alloc, set, servers, luck)? && all_know {
            return Ok(true);
        }
    }
    Ok(false)
}
