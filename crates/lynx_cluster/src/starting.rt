//! Starting a cluster.
ghost use Rattle.std.specs.Prelude.{◌≡◌, IfErr, IfOk, length, map};
ghost use Rattle.lynx_weave.specs.Servers.{AreServersOf};
ghost use Rattle.lynx_cluster.specs.Starting.{IsStarted, IsUnstarted, Starts, start_of};
ghost use Rattle.lynx_cluster.specs.inner.Opening.{IsLate};

use crate::cluster::{Cluster, Frontend};
use crate::fault::StartFault;
use crate::gate::Gate;
use crate::opening::Opened;
use crate::settling::settle;
use crate::shared_server::{Pace, SharedServer};
use crate::signals::Signals;
use crate::workers::{lend_all, start_all};
use lynx_keep::BatchKeeper;
use lynx_names::Memory;
use lynx_resting::Resting;
use lynx_server::Server;
use lynx_set::ChainSet;
use std::alloc::Global;
use std::sync::atomic::AtomicBool;
use std::sync::{Arc, Mutex, Wait};
use std::thread::Threads;
use std::time::Clock;

/// Servers behind their locks, and how long each history was before.
#[derive(Drop)]
struct SharedAll<K: BatchKeeper> {
    shared_servers: Vec<Arc<SharedServer<K>>>,
    starts: Vec<u64>,
}

/// How long the history of each server is.
fn starts_of<K: BatchKeeper>(alloc: Global, servers: &[Server<K>]) -> Result<Vec<u64>, Memory>
    ensures { IfOk result (λ starts. starts.items ≡ map start_of servers.now) }
{
    let mut starts = Vec::new(alloc);
    for server in servers {
        starts.push(server.history().len() as u64)?;
    }
    Ok(starts)
}

/// Puts each server behind a lock.
fn share_all<K: BatchKeeper + Drop>(
    alloc: Global,
    servers: Vec<Server<K>>,
    pace: Pace,
) -> Result<SharedAll<K>, Memory>
    ensures starts { IfOk result (λ shared. shared.starts.items ≡ map start_of servers.items) }
    ensures shared { IfOk result (λ shared. length shared.shared_servers.items ≡ length
        servers.items) }
{
    let starts = starts_of(alloc, servers.as_slice())?;
    let mut shared_servers = Vec::new(alloc);
    for server in servers {
        let state = Resting::new(alloc, server);
        shared_servers.push(Arc::new(alloc, SharedServer::new(alloc, state, pace))?)?;
    }
    Ok(SharedAll {
        shared_servers,
        starts,
    })
}

impl<K: BatchKeeper + Drop> Opened<K> {
    /// Starts a worker thread for each server. The set is copied for each of them. Messages whose
    /// hops were done before aren't sent again. Where it fails the keepers are dropped, what they
    /// stored stands, and no thread is left.
    pub fn start<R: Threads + Wait + Clock + Copy + Send + 'static, G: Gate + Drop>(
        self,
        rt: R,
        alloc: Global,
        gate: G,
        pace: Pace,
    ) -> Result<Cluster<K, G>, StartFault>
    where
        K: Send + 'static,
        G: Send + Sync + 'static,
        requires { AreServersOf self.set self.servers.items }
        ensures started { IfOk result (Starts self.set self.servers.items) }
        ensures fault { IfErr result IsLate }
    {
        let Opened { set, mut servers } = self;
        // Where there is no memory for it, messages that need not come again do.
        let _ = settle(alloc, servers.as_mut_slice());
        let SharedAll {
            shared_servers,
            starts,
        } = share_all(alloc, servers, pace)?;
        let gate = Arc::new(alloc, gate)?;
        let stop = Arc::new(alloc, AtomicBool::new(false))?;
        let signals = Arc::new(alloc, Signals::new(alloc, set.servers())?)?;
        let shares = lend_all(alloc, &set, shared_servers.as_slice(), &gate, &signals)?;
        let servers = set.servers();
        let set = Arc::new(alloc, set)?;
        let workers = start_all(rt, alloc, servers, shares, &signals, &stop)?;
        let frontend = Frontend {
            set,
            starts,
            shared_servers,
            gate,
            signals,
            sessions: Mutex::new(0),
        };
        Ok(Cluster {
            frontend,
            stop,
            workers,
        })
    }
}

impl<K: BatchKeeper + Drop, G: Gate + Drop> Cluster<K, G> {
    /// Opens each server of the set over its keeper, in order, and starts a worker thread for each:
    /// [`Opened::open`] and [`Opened::start`], with settlings that are shared.
    pub fn start<R: Threads + Wait + Clock + Copy + Send + 'static>(
        rt: R,
        alloc: Global,
        set: &ChainSet,
        keepers: Vec<K>,
        gate: G,
    ) -> Result<Cluster<K, G>, StartFault>
    where
        K: Send + 'static,
        G: Send + Sync + 'static,
        ensures started { IfOk result (IsStarted K.terms set.now keepers.items) }
        ensures fault { IfErr result (IsUnstarted K.terms set.now keepers.items) }
    {
        let opened = Opened::open(alloc, set, keepers)?;
        opened.start(rt, alloc, gate, Pace::Shared)
    }
}
