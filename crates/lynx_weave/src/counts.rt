//! How many answers of each server were told, and how many it gave.
ghost use Rattle.std.specs.Prelude.{◌≡◌, ◌+◌, ◌<◌, ◌^◌, ℕ, IfOk, count_by, drop, length, map, slice_index};
ghost use Rattle.std.specs.List.{range_with_len};
ghost use Rattle.lynx_weave.specs.Rebuilt.{told_in};
ghost use Rattle.lynx_weave.specs.Servers.{histories_of};
ghost use Rattle.lynx_weave.specs.Since.{answers_begin, counts_at, is_fresh_of};
ghost use Rattle.lynx_weave.specs.Weaving.{all_told};

use crate::told::ToldItem;
use lynx_entry::Entry;
use lynx_keep::MemoryKeeper;
use lynx_names::Memory;
use lynx_server::Server;
use std::alloc::Global;

/// How many answers of one server sessions were told as fresh, and how many it gave since they
/// began.
#[derive(Clone, Copy, Debug, PartialEq, Eq)]
pub struct ServerCounts {
    /// The items of all sessions that are fresh and tell of the server.
    pub fresh: u64,
    /// The entries of begins and refusals in its history from its start on.
    pub begins: u64,
}

/// The entry answers a begin.
fn answers_begin(entry: &Entry) -> bool
    ensures { result ≡ answers_begin entry.now }
{
    matches!(entry, Entry::Begun(_) | Entry::Refused(_))
}

/// How many of the entries answer a begin.
fn begins_of(entries: &[Entry]) -> usize
    ensures { result ≡ count_by answers_begin entries.now }
{
    entries.iter().filter(|entry| answers_begin(entry)).count()
}

/// How many entries from that place on answer a begin: none where the history is shorter. Only
/// those are gone over.
fn begins_since(history: &[Entry], start: u64) -> u64
    ensures { result ≡ count_by answers_begin (drop start history.now) }
{
    match history.get(start as usize..) {
        Some(since) => begins_of(since) as u64,
        None => 0,
    }
}

/// One more, at its server, for each item that is fresh.
fn count_items(fresh: &mut [u64], items: &[ToldItem])
    requires { (server : ℕ) → server < length fresh.old →
        slice_index fresh.old server + count_by (is_fresh_of server) items.now < 2 ^ 64 }
    ensures { (server : ℕ) → server < length fresh.old → slice_index fresh.new server
        ≡ slice_index fresh.old server + count_by (is_fresh_of server) items.now }
{
    for item in items {
        let number = item.server().index();
        if item.is_fresh() && number < fresh.len() {
            fresh[number] += 1;
        }
    }
}

/// The fresh items of so many servers. Each item is gone over once.
fn fresh_of(alloc: Global, servers: usize, told: &[Vec<ToldItem>]) -> Result<Vec<u64>, Memory>
    requires { (server : ℕ) → server < servers →
        count_by (is_fresh_of server) (all_told (told_in told.now)) < 2 ^ 64 }
    ensures { IfOk result (λ fresh. fresh.items ≡ map
        (λ server. count_by (is_fresh_of server) (all_told (told_in told.now)))
        (range_with_len 0 servers)) }
{
    let mut fresh = vec![in alloc; 0; servers]?;
    for items in told {
        count_items(fresh.as_mut_slice(), items.as_slice());
    }
    Ok(fresh)
}

/// The counts of each server. The items are gone over once, and so is each history from its start
/// on.
pub(crate) fn counts_of(
    alloc: Global,
    servers: &[Server<MemoryKeeper>],
    starts: &[u64],
    told: &[Vec<ToldItem>],
) -> Result<Vec<ServerCounts>, Memory>
    requires starts { length starts.now ≡ length servers.now }
    requires few { (server : ℕ) → server < length servers.now →
        count_by (is_fresh_of server) (all_told (told_in told.now)) < 2 ^ 64 }
    ensures { IfOk result (λ counts. counts.items
        ≡ map (counts_at (histories_of servers.now) starts.now (all_told (told_in told.now)))
        (range_with_len 0 (length servers.now))) }
{
    let fresh = fresh_of(alloc, servers.len(), told)?;
    let mut counts = Vec::new(alloc);
    for (number, here) in servers.iter().enumerate() {
        counts.push(ServerCounts {
            fresh: fresh[number],
            begins: begins_since(here.history(), starts[number]),
        })?;
    }
    Ok(counts)
}
