//! A cluster that has nothing to do.
use crate::fault::Fault;
use crate::load::closed_well;
use crate::repeats::counting_gate;
use crate::starting::start;
use lynx_cluster::Host;
use std::alloc::Global;
use std::thread;
use std::time::Duration;

/// Has a cluster of so many servers, 1 to 16, run for so many seconds with nothing to do, and
/// closes it. So the time of the processor that it takes can be measured from outside.
pub fn idle<R: Host>(rt: R, alloc: Global, servers: u8, seconds: u64) -> Result<(), Fault> {
    let (gate, _) = counting_gate(alloc)?;
    let cluster = start(rt, alloc, servers, gate)?;
    thread::sleep(&rt, Duration::from_secs(seconds));
    closed_well(alloc, cluster.close(&rt, alloc, Vec::new(alloc)))?;
    Ok(())
}
