//! Looks up the entries that record a client's request. The caller needs no session.
ghost use Rattle.std.specs.Prelude.{◌≡◌, ◌++◌, IfOk, IfSome, OnOk};
ghost use Rattle.lynx_cluster.specs.Records.{AreRecords, IsBeginning, recorded_at};
ghost use Rattle.lynx_entry.specs.Entry.{History};
ghost use Rattle.lynx_resting.specs.Resting.{settled_front};
ghost use Rattle.lynx_rules.specs.Lawful.{record_of};
ghost use Rattle.lynx_server.specs.Acts.{act_of};
ghost use Rattle.lynx_server.specs.History.{IsLawfulHistory};

use crate::cluster::{Frontend, is_of};
use crate::gate::Gate;
use lynx_entry::{Entry, Request};
use lynx_keep::BatchKeeper;
use lynx_names::{ChainId, ClientId, Memory, ProgramId, ServerId, TryCopy, Values, learn};
use lynx_resting::Resting;
use std::alloc::Global;
use std::sync::Wait;

/// An entry that records a request, and the server at which it stands.
#[derive(Debug, Drop)]
pub struct Recorded {
    pub server: ServerId,
    pub entry: Entry,
}

/// Adds the settled entry of a server that records the request, if there is one.
fn add_recorded<K: BatchKeeper>(
    alloc: Global,
    found: &mut Vec<Recorded>,
    state: &Resting<K>,
    server: ServerId,
    request: &Request,
) -> Result<(), Memory>
    ensures { OnOk result (found.new.items ≡ found.old.items
        ++ recorded_at server (record_of request.now (settled_front state.now))) }
{
    if let Some(entry) = state.record_of(request) {
        let entry = entry.copy(alloc)?;
        found.push(Recorded { server, entry })?;
    }
    Ok(())
}

/// A copy of the settled entry of the chain's first hop, if the chain began here.
fn beginning_at<K: BatchKeeper>(
    alloc: Global,
    state: &Resting<K>,
    chain: ChainId,
) -> Result<Option<Entry>, Memory>
    ensures { IfOk result (λ found. found ≡ act_of chain 0 (settled_front state.now)) }
{
    match state.entry_of(chain, 0) {
        Some(entry) => Ok(Some(entry.copy(alloc)?)),
        None => Ok(None),
    }
}

impl<K: BatchKeeper, G: Gate> Frontend<K, G> {
    /// Adds what that server has recorded of the request, under its lock.
    fn find_at<R: Wait>(
        &self,
        rt: &R,
        alloc: Global,
        found: &mut Vec<Recorded>,
        server: ServerId,
        request: &Request,
    ) -> Result<(), Memory>
        ensures { OnOk result ((history : History)
            × IsLawfulHistory self.now.set server history × (found.new.items
            ≡ found.old.items ++ recorded_at server (record_of request.now history))) }
    {
        let Some(shared) = self.shared_servers.as_slice().get(server.index()) else {
            return Ok(());
        };
        let state = shared.look(rt);
        if !is_of(&state, &self.set, server) {
            return Ok(());
        }
        // By its type the history is lawful.
        learn(state.settled());
        add_recorded(alloc, found, &state, server, request)
    }

    /// The settled entries that record a request of this client and number, by server: one at most,
    /// unless the client used the number at several servers. One server's lock is taken after
    /// another. No session notes it.
    pub fn find<R: Wait>(
        &self,
        rt: &R,
        alloc: Global,
        client: ClientId,
        number: u64,
    ) -> Result<Vec<Recorded>, Memory>
        ensures { IfOk result (λ found. AreRecords self.now.set client number found.items) }
    {
        let Some(program) = ProgramId::new(0) else {
            unreachable!()
        };
        let request = Request {
            client,
            number,
            program,
            args: Values::new(alloc),
        };
        let mut found = Vec::new(alloc);
        for server in 0..self.set.servers() {
            self.find_at(rt, alloc, &mut found, ServerId::at(server), &request)?;
        }
        Ok(found)
    }

    /// The settled entry in which a chain began, under the lock of its origin. None where it hasn't
    /// begun. No session notes it.
    pub fn beginning<R: Wait>(
        &self,
        rt: &R,
        alloc: Global,
        chain: ChainId,
    ) -> Result<Option<Entry>, Memory>
        ensures { IfOk result (λ found. IfSome found (IsBeginning self.now.set chain)) }
    {
        let Some(shared) = self.shared_servers.as_slice().get(chain.origin.index()) else {
            return Ok(None);
        };
        let state = shared.look(rt);
        if !is_of(&state, &self.set, chain.origin) {
            return Ok(None);
        }
        // By its type the history is lawful.
        learn(state.settled());
        beginning_at(alloc, &state, chain)
    }
}
