//! Clusters in memory.
use crate::fault::Fault;
use crate::repeats::Repeats;
use crate::texts::set_for;
use lynx_cluster::{Cluster, Frontend, Host};
use lynx_keep::MemoryKeeper;
use lynx_world::empty_keepers;
use std::alloc::Global;

/// What the threads of such a cluster's clients are lent.
pub(crate) type CountedFrontend = Frontend<MemoryKeeper, Repeats>;

/// A cluster of so many servers, 1 to 16, over keepers in memory, with a worker thread for each
/// server.
pub(crate) fn start<R: Host>(
    rt: R,
    alloc: Global,
    servers: u8,
    gate: Repeats,
) -> Result<Cluster<MemoryKeeper, Repeats>, Fault> {
    let set = set_for(alloc, servers)?;
    let keepers = empty_keepers(alloc, &set)?;
    match Cluster::start(rt, alloc, &set, keepers, gate) {
        Ok(cluster) => Ok(cluster),
        Err(fault) => Err(Fault::from(fault)),
    }
}
