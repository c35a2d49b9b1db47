//! How much of each server's history fits together.
ghost use Rattle.std.specs.Prelude.{◌≡◌, ◌↔◌, IfErr, IfOk, IsTrue, length, option_copied};
ghost use Rattle.lynx_weave.specs.Cuts.{IsCut, IsCutFault, fronts};
ghost use Rattle.lynx_weave.specs.Rebuilt.{histories_in};
ghost use Rattle.lynx_weave.specs.Senders.{IsSentBefore, sender_at, sent_before};
ghost use Rattle.lynx_weave.specs.Servers.{histories_of};
ghost use Rattle.lynx_weave.specs.inner.Taken.{MayTake};
ghost use Rattle.lynx_weave.specs.inner.Rebuilt.{AreRebuilt};

use crate::fault::WeaveFault;
use crate::order::least_next;
use crate::rebuilding::rebuild_all;
use lynx_entry::{Entry, Message};
use lynx_keep::MemoryKeeper;
use lynx_names::Memory;
use lynx_rules::next_of;
use lynx_server::Server;
use lynx_set::ChainSet;
use std::alloc::Global;

/// The entry of that hop of the message's chain, at the server of that hop, where it is among those
/// that were taken: one look-up there.
fn taken_at<'a>(
    set: &ChainSet,
    servers: &'a [Server<MemoryKeeper>],
    counts: &[usize],
    message: &Message,
    before: u8,
) -> Option<&'a Entry>
    requires servers { AreRebuilt set.now servers.now }
    requires counts { length counts.now ≡ length servers.now }
    ensures { option_copied result
        ≡ sender_at set.now (fronts counts.now (histories_of servers.now)) message.now before }
{
    let Some(hop) = set.hop(message.program, usize::from(before)) else {
        return None;
    };
    let number = hop.server.index();
    if number >= servers.len() {
        return None;
    }
    let here = &servers[number];
    let Some(place) = here.place_of(message.chain, before) else {
        return None;
    };
    if place < counts[number] {
        here.entry(place)
    } else {
        None
    }
}

/// What the entry of the hop before the message's sends, where that entry was taken.
fn taken_before(
    alloc: Global,
    set: &ChainSet,
    servers: &[Server<MemoryKeeper>],
    counts: &[usize],
    message: &Message,
) -> Result<Option<Message>, Memory>
    requires servers { AreRebuilt set.now servers.now }
    requires counts { length counts.now ≡ length servers.now }
    ensures { IfOk result (λ sent. sent ≡ sent_before set.now
        (fronts counts.now (histories_of servers.now)) message.now message.now.hop) }
{
    let Some(before) = message.hop.checked_sub(1) else {
        return Ok(None);
    };
    match taken_at(set, servers, counts, message, before) {
        Some(entry) => next_of(alloc, set, entry),
        None => Ok(None),
    }
}

/// An entry that was taken sends this very message.
fn is_sent(
    alloc: Global,
    set: &ChainSet,
    servers: &[Server<MemoryKeeper>],
    counts: &[usize],
    message: &Message,
) -> Result<bool, Memory>
    requires servers { AreRebuilt set.now servers.now }
    requires counts { length counts.now ≡ length servers.now }
    ensures { IfOk result (λ sent. IsTrue sent
        ↔ IsSentBefore set.now (fronts counts.now (histories_of servers.now)) message.now) }
{
    match taken_before(alloc, set, servers, counts, message)? {
        Some(sent) => Ok(sent == *message),
        None => Ok(false),
    }
}

/// The entry ran on no message, or on one that an entry sends which was taken.
fn may_take(
    alloc: Global,
    set: &ChainSet,
    servers: &[Server<MemoryKeeper>],
    counts: &[usize],
    entry: &Entry,
) -> Result<bool, Memory>
    requires servers { AreRebuilt set.now servers.now }
    requires counts { length counts.now ≡ length servers.now }
    ensures { IfOk result (λ taken. IsTrue taken
        ↔ MayTake set.now (fronts counts.now (histories_of servers.now)) entry.now) }
{
    match entry {
        Entry::Hop(ran) => is_sent(alloc, set, servers, counts, &ran.message),
        Entry::Begun(_) | Entry::Refused(_) => Ok(true),
    }
}

/// The counts of the servers. Entries are gone over in order of stamp, then server. One whose
/// message no entry sends that was taken before ends what is taken of its server: a sender has a
/// lower stamp.
fn cut_servers(
    alloc: Global,
    set: &ChainSet,
    servers: &[Server<MemoryKeeper>],
) -> Result<Vec<usize>, Memory>
    requires { AreRebuilt set.now servers.now }
    ensures { IfOk result (λ counts. IsCut set.now (histories_of servers.now) counts.items) }
{
    let mut places = vec![in alloc; 0; usize::from(set.servers())]?;
    let mut counts = vec![in alloc; 0; usize::from(set.servers())]?;
    while let Some(number) = least_next(servers, places.as_slice()) {
        let history = servers[number].history();
        let place = places[number];
        if may_take(alloc, set, servers, counts.as_slice(), &history[place])? {
            places[number] = place + 1;
            counts[number] = place + 1;
        } else {
            places[number] = history.len();
        }
    }
    Ok(counts)
}

/// How many of the first entries of each of these histories, one for each server of the set, fit
/// together: as many as can be, of each server at once. Where all of them do, that is how long the
/// histories are. Mismatch names the first entry of a history that isn't lawful there; Told is
/// never answered. An entry takes the work of its hop, a few look-ups and a walk over the servers.
pub fn cut(
    alloc: Global,
    set: &ChainSet,
    histories: Vec<Vec<Entry>>,
) -> Result<Vec<usize>, WeaveFault>
    requires { length histories.items ≡ set.now.servers }
    ensures cut { IfOk result (λ counts. IsCut set.now (histories_in histories.items)
        counts.items) }
    ensures fault { IfErr result (IsCutFault set.now (histories_in histories.items)) }
{
    let servers = rebuild_all(alloc, set, histories)?;
    Ok(cut_servers(alloc, set, servers.as_slice())?)
}
