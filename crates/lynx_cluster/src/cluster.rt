//! A cluster, and the frontend of it that threads are lent.
ghost use Rattle.std.specs.Prelude.{◌≡◌, ◌↔◌, ◌+◌, ◌<◌, ◌≤◌, [], IfNone, IfOk, IfSome, IsTrue, MatchOption, OnErr, length, true};
ghost use Rattle.lynx_codec.specs.Ranges.{IsLookedInRange};
ghost use Rattle.lynx_cluster.specs.Calls.{AnswersBegin};
ghost use Rattle.lynx_cluster.specs.Clusters.{IsOf, home_of};
ghost use Rattle.lynx_cluster.specs.Looks.{Looks};
ghost use Rattle.lynx_cluster.specs.Records.{IsProgramOf};
ghost use Rattle.lynx_cluster.specs.Sessions.{new_session};

use crate::gate::Gate;
use crate::session::Session;
use crate::shared_server::SharedServer;
use crate::signals::Signals;
use lynx_codec::Looked;
use lynx_entry::{Answer, Entry, Request};
use lynx_keep::BatchKeeper;
use lynx_names::{ChainId, Memory, ProgramId, ServerId, learn};
use lynx_resting::Resting;
use lynx_set::ChainSet;
use std::alloc::Global;
use std::marker::Model;
use std::sync::atomic::AtomicBool;
use std::sync::{Arc, Mutex, Wait};
use std::thread::JoinHandle;
use std::time::Clock;

/// Sessions that one cluster makes, at most.
pub const MAX_SESSIONS: u64 = 1_000_000;

/// The servers of a set behind locks of their own, at which any thread may begin and look by a `&`.
/// Contracts see the set, and how long each server's history was at the start.
#[derive(Drop)]
pub struct Frontend<K: BatchKeeper, G: Gate> {
    pub(crate) set: Arc<ChainSet>,
    pub(crate) starts: Vec<u64>,
    pub(crate) shared_servers: Vec<Arc<SharedServer<K>>>,
    pub(crate) gate: Arc<G>,
    pub(crate) signals: Arc<Signals>,
    pub(crate) sessions: Mutex<u64>,
}

impl<K: BatchKeeper, G: Gate> Model for Frontend<K, G> {
    ghost use Rattle.std.specs.Prelude.{◌≡◌, length};
    ghost use Rattle.lynx_cluster.specs.Clusters.{ClusterState};

    ghost Value = { ClusterState };

    ghost view = { λ frontend.
        record { set = frontend.set.value; starts = frontend.starts.items } };

    ghost invariant = { λ frontend. record {
      one_start : length frontend.starts.items ≡ frontend.set.value.servers;
      one_shared : length frontend.shared_servers.items ≡ frontend.set.value.servers;
    } };
}

/// A running cluster: the servers behind their locks, and a worker thread for each. Other threads
/// are lent its frontend. It can't be let go: [`Cluster::close`] is the one way to be rid of it, so
/// that every worker is joined. Fallible work is done before the start or on the frontend.
pub struct Cluster<K: BatchKeeper, G: Gate> {
    pub(crate) frontend: Frontend<K, G>,
    pub(crate) stop: Arc<AtomicBool>,
    pub(crate) workers: Vec<JoinHandle<()>>,
}

impl<K: BatchKeeper, G: Gate> Model for Cluster<K, G> {
    ghost use Rattle.lynx_cluster.specs.Clusters.{ClusterState};

    ghost Value = { ClusterState };

    ghost view = { λ cluster. cluster.frontend };
}

/// The state is that of this server of this set: a walk over the set. Nothing else is known of a
/// state behind a lock.
pub(crate) fn is_of<K: BatchKeeper>(state: &Resting<K>, set: &ChainSet, server: ServerId) -> bool
    ensures { IsTrue result ↔ IsOf set.now server state.now.here }
{
    state.server() == server && state.set().is_same(set)
}

/// The next session, whose number is how many were made, and one more is made then. None once
/// [`MAX_SESSIONS`] were made. Takes no memory.
fn next_session(alloc: Global, made: &mut u64) -> Option<Session>
    ensures { MatchOption result ((MAX_SESSIONS ≤ made.old) × (made.new ≡ made.old))
        (λ session. (session ≡ new_session made.old) × (made.old < MAX_SESSIONS)
        × (made.new ≡ made.old + 1)) }
{
    let number = *made;
    if number >= MAX_SESSIONS {
        return None;
    }
    *made = number + 1;
    Some(Session::new(alloc, number))
}

impl<K: BatchKeeper, G: Gate> Cluster<K, G> {
    /// What other threads are lent.
    pub fn frontend(&self) -> &Frontend<K, G>
        ensures { result.now ≡ self.now }
    {
        &self.frontend
    }

    /// A new session: [`Frontend::session`].
    pub fn session<R: Wait>(&self, rt: &R, alloc: Global) -> Option<Session>
        ensures { IfSome result (λ session. session.told ≡ []) }
    {
        self.frontend.session(rt, alloc)
    }

    /// One begin: [`Frontend::begin`].
    pub fn begin<R: Wait + Clock>(
        &self,
        rt: &R,
        alloc: Global,
        session: &mut Session,
        request: Request,
    ) -> Answer
        ensures { AnswersBegin self.now.set session.old request result session.new }
    {
        self.frontend.begin(rt, alloc, session, request)
    }

    /// One look: [`Frontend::look`].
    pub fn look<R: Wait>(
        &self,
        rt: &R,
        alloc: Global,
        session: &mut Session,
        chain: ChainId,
        hop: u8,
    ) -> Result<Looked, Memory>
        ensures looks { IfOk result (λ looked. Looks self.now.set session.old chain hop looked
            session.new) }
        ensures same { OnErr result (session.new ≡ session.old) }
        ensures range { IfOk result IsLookedInRange }
    {
        self.frontend.look(rt, alloc, session, chain, hop)
    }
}

impl<K: BatchKeeper, G: Gate> Frontend<K, G> {
    /// The set of the cluster.
    pub fn set(&self) -> &ChainSet
        ensures { result.now ≡ self.now.set }
    {
        &*self.set
    }

    /// The server at which a request begins: the origin of its program, server 0 where the set
    /// hasn't the program.
    pub(crate) fn home_of(&self, request: &Request) -> ServerId
        ensures { result ≡ home_of self.now.set request.now }
    {
        match self.set.origin(request.program) {
            Some(origin) => origin,
            None => ServerId::first(),
        }
    }

    /// A new session, which was told nothing. None once [`MAX_SESSIONS`] were made. Takes no
    /// memory.
    pub fn session<R: Wait>(&self, rt: &R, alloc: Global) -> Option<Session>
        ensures told { IfSome result (λ session. session.told ≡ []) }
        ensures few { IfSome result (λ session. session.number < MAX_SESSIONS) }
    {
        let mut made = self.sessions.lock(rt);
        next_session(alloc, &mut made)
    }

    /// The program of the chain, by its entry at its origin, whose lock is taken and given back.
    /// None where it hasn't begun.
    pub fn program_of<R: Wait>(&self, rt: &R, chain: &ChainId) -> Option<ProgramId>
        ensures { IfSome result (IsProgramOf self.now.set chain.now) }
    {
        let state = self
            .shared_servers
            .as_slice()
            .get(chain.origin.index())?
            .look(rt);
        if !is_of(&state, &self.set, chain.origin) {
            return None;
        }
        // By its type the history is lawful.
        learn(state.settled());
        match state.entry_of(*chain, 0)? {
            Entry::Begun(begun) => Some(begun.request.program),
            Entry::Refused(_) | Entry::Hop(_) => None,
        }
    }

    /// What there is of that hop of the chain, and is settled. First the chain's program is read
    /// under the lock of its origin, then the hop's entry under that of its server. Absent also
    /// where the chain hasn't begun or has no such hop. The session notes what was found. It costs
    /// a walk over the set for each lock, and two copies of the results.
    pub fn look<R: Wait>(
        &self,
        rt: &R,
        alloc: Global,
        session: &mut Session,
        chain: ChainId,
        hop: u8,
    ) -> Result<Looked, Memory>
        ensures looks { IfOk result (λ looked. Looks self.now.set session.old chain hop looked
            session.new) }
        ensures same { OnErr result (session.new ≡ session.old) }
        ensures range { IfOk result IsLookedInRange }
    {
        let Some(program) = self.program_of(rt, &chain) else {
            return Ok(Looked::Absent);
        };
        let Some(asked) = self.set.hop(program, usize::from(hop)) else {
            return Ok(Looked::Absent);
        };
        let server = asked.server;
        let Some(shared) = self.shared_servers.as_slice().get(server.index()) else {
            return Ok(Looked::Absent);
        };
        let state = shared.look(rt);
        if !is_of(&state, &self.set, server) {
            return Ok(Looked::Absent);
        }
        session.look_at(alloc, &state, &chain, hop)
    }
}
