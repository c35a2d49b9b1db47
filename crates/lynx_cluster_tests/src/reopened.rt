//! A cluster over what another left.
use crate::keepers::empty;
use crate::sessions::TRIPS;
use crate::talk::talked;
use crate::trouble::Trouble;
use lynx_cluster::{Cluster, Gate, OpenGate, StepKind};
use lynx_entry::Delivered;
use lynx_fixtures::texts::set_of;
use lynx_keep::MemoryKeeper;
use lynx_names::{Memory, ServerId};
use std::alloc::Global;
use std::sync::atomic::{AtomicU64, Ordering};
use std::sync::{Arc, Wait};
use std::thread;
use std::thread::Threads;
use std::time::{Clock, Duration, Instant};

/// Counts all messages that are delivered.
#[derive(Drop)]
struct Counting {
    deliveries: Arc<AtomicU64>,
}

impl Gate for Counting {
    fn enter(&self, _server: ServerId, _step: StepKind) {}

    fn leave(&self, _server: ServerId, _step: StepKind) {}

    fn delivered(&self, _server: ServerId, _delivered: &Delivered, _since: Option<Instant>) {
        self.deliveries.fetch_add(1, Ordering::SeqCst);
    }
}

/// What a cluster keeps in which a trip went and came back.
fn keepers_after_trip<R: Threads + Wait + Clock + Copy + Send + 'static>(
    rt: R,
    alloc: Global,
) -> Result<Vec<MemoryKeeper>, Trouble> {
    let set = set_of(alloc, TRIPS.set)?;
    let keepers = empty(alloc, set.servers())?;
    let cluster = Cluster::start(rt, alloc, &set, keepers, OpenGate)?;
    let (sessions, _) = talked(&rt, alloc, cluster.frontend(), &TRIPS.asked[..2]);
    Ok(cluster.close(&rt, alloc, sessions)?.keepers)
}

/// How many messages a cluster over these keepers delivers in 200 milliseconds in which nobody
/// begins.
fn deliveries_over<R: Threads + Wait + Clock + Copy + Send + 'static>(
    rt: R,
    alloc: Global,
    keepers: Vec<MemoryKeeper>,
) -> Result<u64, Trouble> {
    let set = set_of(alloc, TRIPS.set)?;
    let deliveries = Arc::new(alloc, AtomicU64::new(0)).map_err(|_| Memory)?;
    let gate = Counting {
        deliveries: Arc::try_clone(&deliveries).map_err(|_| Memory)?,
    };
    let cluster = Cluster::start(rt, alloc, &set, keepers, gate)?;
    thread::sleep(&rt, Duration::from_millis(200));
    cluster.close(&rt, alloc, Vec::new(alloc))?;
    Ok(deliveries.load(Ordering::SeqCst))
}

/// How many messages come again where a cluster starts over what one left in which all was done.
fn come_again<R: Threads + Wait + Clock + Copy + Send + 'static>(
    rt: R,
    alloc: Global,
) -> Result<u64, Trouble> {
    let keepers = keepers_after_trip(rt, alloc)?;
    deliveries_over(rt, alloc, keepers)
}

#[test]
fn what_was_done_before_a_start_does_not_come_again(rt: HostRuntime) {
    assert!(rt; come_again(rt, rt.alloc()) == Ok(0));
}
