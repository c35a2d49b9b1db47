//! What is seen of a running cluster by whoever has no session: nothing is noted of it, and no
//! audit asks for it.
ghost use Rattle.std.specs.Prelude.{◌≡◌, All, IfOk, IfSome, drop, take};
ghost use Rattle.lynx_codec.specs.Entries.{IsEntryInRange};
ghost use Rattle.lynx_resting.specs.Resting.{settled_front, settled_part};
ghost use Rattle.lynx_server.specs.Acts.{act_of};
ghost use Rattle.lynx_cluster.specs.Glances.{AreEntriesFrom, AreLastEntries, IsRecalled, IsSeen, glance_of, last_of};
ghost use Rattle.lynx_cluster.specs.Looks.{looked_at};

use crate::cluster::{Frontend, is_of};
use crate::gate::Gate;
use lynx_codec::Looked;
use lynx_entry::Entry;
use lynx_keep::BatchKeeper;
use lynx_names::{ChainId, Memory, ServerId, Stamp, TryCopy, Values, learn};
use lynx_resting::{Resting, clock_of};
use std::alloc::Global;
use std::sync::Wait;

/// What is seen at a glance of what is settled of a server.
#[derive(Clone, Copy, Debug, PartialEq, Eq)]
pub struct Glance {
    /// How many of its entries are settled.
    pub entries: u64,
    /// The stamp of the last of them, 0 where there is none.
    pub clock: Stamp,
    /// How many messages it holds.
    pub held: u64,
    /// It answers: its store hasn't failed.
    pub is_running: bool,
}

/// What is seen of the server.
fn glance_of<K: BatchKeeper>(state: &Resting<K>) -> Glance
    ensures { result ≡ glance_of (settled_part state.now) }
{
    let history = state.settled();
    Glance {
        entries: history.len() as u64,
        clock: clock_of(history),
        held: state.held().len() as u64,
        is_running: !state.is_stopped(),
    }
}

/// Copies of the entries.
fn copies_of(alloc: Global, entries: &[Entry]) -> Result<Vec<Entry>, Memory>
    ensures { IfOk result (λ copies. copies.items ≡ entries.now) }
{
    let mut copies = Vec::with_capacity(alloc, entries.len())?;
    for entry in entries {
        copies.push(entry.copy(alloc)?)?;
    }
    Ok(copies)
}

/// Copies of the last entries of a history, so many at most.
fn last_of(alloc: Global, history: &[Entry], most: usize) -> Result<Vec<Entry>, Memory>
    ensures { IfOk result (λ entries. entries.items ≡ last_of most history.now) }
{
    copies_of(alloc, &history[history.len().saturating_sub(most)..])
}

/// Copies of the entries of a server from a place on, so many at most.
fn entries_from<K: BatchKeeper>(
    alloc: Global,
    state: &Resting<K>,
    from: usize,
    most: usize,
) -> Result<Vec<Entry>, Memory>
    ensures entries { IfOk result (λ entries. entries.items
        ≡ take most (drop from (settled_front state.now))) }
    ensures range { IfOk result (λ entries. All IsEntryInRange entries.items) }
{
    // A lawful entry is in range where the server's number is.
    learn(state.server().number());
    let history = state.settled();
    let start = from.min(history.len());
    let end = start.saturating_add(most).min(history.len());
    copies_of(alloc, &history[start..end])
}

/// What there is of that hop of the chain.
fn looked_at<K: BatchKeeper>(
    alloc: Global,
    state: &Resting<K>,
    chain: &ChainId,
    hop: u8,
) -> Result<Looked, Memory>
    ensures { IfOk result (λ looked. looked
        ≡ looked_at (act_of chain.now hop (settled_front state.now))) }
{
    match state.results(*chain, hop) {
        Some((stamp, results)) => Ok(Looked::Found {
            stamp,
            results: Values::from_vec(Vec::from_slice(alloc, results)?),
        }),
        None => Ok(Looked::Absent),
    }
}

impl<K: BatchKeeper, G: Gate> Frontend<K, G> {
    /// What the cluster tells of its steps.
    pub fn gate(&self) -> &G {
        &self.gate
    }

    /// What is seen of that server, under its lock. None where there is no such server. It costs a
    /// walk over the set, and takes no memory.
    pub fn glance<R: Wait>(&self, rt: &R, server: ServerId) -> Option<Glance>
        ensures { IfSome result (IsSeen self.now.set server) }
    {
        let state = self.shared_servers.as_slice().get(server.index())?.look(rt);
        if !is_of(&state, &self.set, server) {
            return None;
        }
        // By its type the history is lawful.
        learn(state.settled());
        Some(glance_of(&state))
    }

    /// Copies of the last settled entries of that server, so many at most, made under its lock;
    /// none where there is no such server.
    pub fn last_entries<R: Wait>(
        &self,
        rt: &R,
        alloc: Global,
        server: ServerId,
        most: usize,
    ) -> Result<Vec<Entry>, Memory>
        ensures { IfOk result (λ entries. AreLastEntries self.now.set server most entries.items) }
    {
        let Some(shared) = self.shared_servers.as_slice().get(server.index()) else {
            return Ok(Vec::new(alloc));
        };
        let state = shared.look(rt);
        if !is_of(&state, &self.set, server) {
            return Ok(Vec::new(alloc));
        }
        last_of(alloc, state.settled(), most)
    }

    /// Copies of the settled entries of that server from a place on, so many at most, made under
    /// its lock; none where there is no such server.
    pub fn entries_from<R: Wait>(
        &self,
        rt: &R,
        alloc: Global,
        server: ServerId,
        from: usize,
        most: usize,
    ) -> Result<Vec<Entry>, Memory>
        ensures read { IfOk result (λ entries. AreEntriesFrom self.now.set server from most
            entries.items) }
        ensures range { IfOk result (λ entries. All IsEntryInRange entries.items) }
    {
        let Some(shared) = self.shared_servers.as_slice().get(server.index()) else {
            return Ok(Vec::new(alloc));
        };
        let state = shared.look(rt);
        if !is_of(&state, &self.set, server) {
            return Ok(Vec::new(alloc));
        }
        // By its type the history is lawful.
        learn(state.settled());
        entries_from(alloc, &state, from, most)
    }

    /// What there is of that hop of the chain at that server, and is settled, under its lock:
    /// absent also where there is no such server.
    pub fn recall<R: Wait>(
        &self,
        rt: &R,
        alloc: Global,
        server: ServerId,
        chain: ChainId,
        hop: u8,
    ) -> Result<Looked, Memory>
        ensures { IfOk result (IsRecalled self.now.set server chain hop) }
    {
        let Some(shared) = self.shared_servers.as_slice().get(server.index()) else {
            return Ok(Looked::Absent);
        };
        let state = shared.look(rt);
        if !is_of(&state, &self.set, server) {
            return Ok(Looked::Absent);
        }
        // By its type the history is lawful.
        learn(state.settled());
        looked_at(alloc, &state, &chain, hop)
    }
}
