//! Clusters in memory: one that carries a load of payments, and one that has nothing to do.
ghost use Rattle.std.specs.Prelude.{◌≡◌, ◌*◌, ◌/◌, max};
ghost use Rattle.std.specs.Duration.{as_nanos};

use crate::fault::Fault;
use crate::idling::idle;
use crate::load::{Load, Measured, measure};
use lynx_cluster::Host;
use std::alloc::Global;
use std::fmt;
use std::time::Duration;

/// What a cluster is started for.
#[derive(Clone, Copy)]
pub enum ClusterWork {
    /// It carries a load.
    Carry(Load),
    /// It has nothing to do for so many seconds.
    Idle { servers: u8, seconds: u64 },
}

/// What a cluster did.
#[derive(Clone, Copy)]
pub enum ClusterDone {
    /// It carried a load, which took so long.
    Carried(Measured),
    /// It had nothing to do for so many seconds.
    Idled { servers: u8, seconds: u64 },
}

impl ClusterWork {
    /// Starts a cluster for it, and closes that.
    pub fn run<R: Host>(self, rt: R, alloc: Global) -> Result<ClusterDone, Fault> {
        match self {
            ClusterWork::Carry(load) => { Ok(ClusterDone::Carried(measure(rt, alloc, load)?)) }
            ClusterWork::Idle { servers, seconds } => {
                idle(rt, alloc, servers, seconds)?;
                Ok(ClusterDone::Idled { servers, seconds })
            }
        }
    }
}

/// How many of so many chains there are a second, where all take that time, a microsecond at least.
fn a_second(chains: u64, time: Duration) -> u128
    ensures { result ≡ chains * 1_000_000 / max (as_nanos time / 1_000) 1 }
{
    u128::from(chains) * 1_000_000 / time.as_micros().max(1)
}

impl fmt::Display for ClusterDone {
    fn fmt<W: fmt::Write>(&self, f: &mut fmt::Formatter<W>) -> fmt::Result {
        match self {
            ClusterDone::Carried(measured) => write!(
                f,
                "{measured}: {} begins and {} chains a second",
                a_second(measured.begun, measured.begin),
                a_second(measured.begun, measured.done)
            ),
            ClusterDone::Idled { servers, seconds } => {
                write!(f, "servers {servers}, idle for {seconds} s")
            }
        }
    }
}
