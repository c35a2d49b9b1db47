//! The worker threads of a cluster: making them, and ending them.
ghost use Rattle.std.specs.Prelude.{IfErr};
ghost use Rattle.lynx_cluster.specs.inner.Opening.{IsLate};

use crate::fault::StartFault;
use crate::gate::Gate;
use crate::shared_server::SharedServer;
use crate::signals::Signals;
use crate::worker_share::WorkerShare;
use lynx_keep::BatchKeeper;
use lynx_link::{Ends, links};
use lynx_names::{ServerId, TryCopy};
use lynx_set::ChainSet;
use lynx_worker::Worker;
use std::alloc::Global;
use std::sync::atomic::{AtomicBool, Ordering};
use std::sync::{Arc, Wait};
use std::thread;
use std::thread::{JoinHandle, Threads};
use std::time::Clock;

/// Stops the workers, and waits for each to end.
pub(crate) fn stop_all<R: Threads>(
    rt: &R,
    stop: &AtomicBool,
    signals: &Signals,
    workers: Vec<JoinHandle<()>>,
) {
    stop.store(true, Ordering::SeqCst);
    signals.signal_all();
    for worker in workers {
        worker.join(rt);
    }
}

/// One more worker.
fn start_worker<
    K: BatchKeeper + Send + Drop + 'static,
    G: Gate + Send + Sync + Drop + 'static,
    R: Threads + Wait + Clock + Copy + Send + 'static,
>(
    rt: R,
    alloc: Global,
    share: WorkerShare<K, G>,
    ends: Ends,
    stop: Arc<AtomicBool>,
) -> Result<JoinHandle<()>, StartFault>
    ensures { IfErr result IsLate }
{
    let servers = share.servers();
    let worker = Worker::new(alloc, share, ends, servers)?;
    match thread::spawn(&rt, move || worker.run(&rt, alloc, &stop)) {
        Ok(worker) => Ok(worker),
        Err(_) => Err(StartFault::NoThread),
    }
}

/// The next worker, added to those that run.
fn start_next<
    K: BatchKeeper + Send + Drop + 'static,
    G: Gate + Send + Sync + Drop + 'static,
    R: Threads + Wait + Clock + Copy + Send + 'static,
>(
    rt: R,
    alloc: Global,
    share: WorkerShare<K, G>,
    ends: Ends,
    stop: &Arc<AtomicBool>,
    workers: &mut Vec<JoinHandle<()>>,
) -> Result<(), StartFault>
    ensures { IfErr result IsLate }
{
    workers.reserve(1)?;
    let stop = Arc::try_clone(stop)?;
    workers.push_reserved(start_worker(rt, alloc, share, ends, stop)?);
    Ok(())
}

/// A worker for each server. Where one can't be started, those that run are stopped, and have
/// ended.
pub(crate) fn start_all<
    K: BatchKeeper + Send + Drop + 'static,
    G: Gate + Send + Sync + Drop + 'static,
    R: Threads + Wait + Clock + Copy + Send + 'static,
>(
    rt: R,
    alloc: Global,
    servers: u8,
    shares: Vec<WorkerShare<K, G>>,
    signals: &Signals,
    stop: &Arc<AtomicBool>,
) -> Result<Vec<JoinHandle<()>>, StartFault>
    ensures { IfErr result IsLate }
{
    let ends = links(alloc, servers)?;
    let mut workers = Vec::new(alloc);
    for (share, ends) in shares.into_iter().zip(ends) {
        if let Err(fault) = start_next(rt, alloc, share, ends, stop, &mut workers) {
            stop_all(&rt, stop, signals, workers);
            return Err(fault);
        }
    }
    Ok(workers)
}

/// The share of the worker of that server.
fn lend<K: BatchKeeper + Drop, G: Gate + Drop>(
    alloc: Global,
    set: &ChainSet,
    server: ServerId,
    shared: &Arc<SharedServer<K>>,
    gate: &Arc<G>,
    signals: &Arc<Signals>,
) -> Result<WorkerShare<K, G>, StartFault>
    ensures { IfErr result IsLate }
{
    let set = set.copy(alloc)?;
    let shared = Arc::try_clone(shared)?;
    let gate = Arc::try_clone(gate)?;
    let signals = Arc::try_clone(signals)?;
    Ok(WorkerShare::new(set, server, shared, gate, signals))
}

/// The share of each worker.
pub(crate) fn lend_all<K: BatchKeeper + Drop, G: Gate + Drop>(
    alloc: Global,
    set: &ChainSet,
    shared_servers: &[Arc<SharedServer<K>>],
    gate: &Arc<G>,
    signals: &Arc<Signals>,
) -> Result<Vec<WorkerShare<K, G>>, StartFault>
    ensures { IfErr result IsLate }
{
    let mut shares = Vec::new(alloc);
    for number in 0..set.servers() {
        if let Some(shared) = shared_servers.get(usize::from(number)) {
            let server = ServerId::at(number);
            shares.push(lend(alloc, set, server, shared, gate, signals)?)?;
        }
    }
    Ok(shares)
}
