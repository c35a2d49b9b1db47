//! Why a cluster doesn't start.
use crate::keepers::{began, empty};
use crate::texts::GO_AND_COME;
use crate::trouble::Trouble;
use lynx_cluster::{Cluster, OpenGate, StartFault};
use lynx_fixtures::made::server;
use lynx_fixtures::parts::RequestParts;
use lynx_fixtures::texts::set_of;
use lynx_keep::{BatchKeeper, MemoryKeeper};
use lynx_names::{Memory, ServerId};
use lynx_server::OpenFault;
use std::alloc::Global;
use std::sync::Wait;
use std::test::Fail;
use std::thread::Threads;
use std::time::Clock;

/// Why a cluster doesn't start over these keepers. None where it does.
fn fault_over<
    R: Threads + Wait + Clock + Copy + Send + 'static,
    K: BatchKeeper + Send + Drop + 'static,
>(rt: R, alloc: Global, keepers: Vec<K>) -> Result<Option<StartFault>, Trouble> {
    let set = set_of(alloc, GO_AND_COME)?;
    match Cluster::start(rt, alloc, &set, keepers, OpenGate) {
        Ok(cluster) => {
            cluster.close(&rt, alloc, Vec::new(alloc))?;
            Ok(None)
        }
        Err(fault) => Ok(Some(fault)),
    }
}

#[test]
fn each_server_needs_a_keeper(rt: HostRuntime) -> Result<(), Fail> {
    for (count, fault) in [
        (0, Some(StartFault::OtherCount)),
        (1, Some(StartFault::OtherCount)),
        (2, None),
        (3, Some(StartFault::OtherCount)),
    ] {
        let keepers = empty(rt.alloc(), count)?;
        assert!(rt;
            fault_over(rt, rt.alloc(), keepers) == Ok(fault),
            "{count} keepers"
        );
    }
    Ok(())
}

/// Server 1 has the keeper that server 0 used.
fn mixed_up(alloc: Global) -> Result<Vec<MemoryKeeper>, Trouble> {
    let asked = RequestParts {
        client: 1,
        number: 1,
        program: 0,
        args: &[],
    };
    let used = began(alloc, GO_AND_COME, ServerId::first(), asked)?;
    let mut keepers = empty(alloc, 1)?;
    match keepers.push(used) {
        Ok(()) => Ok(keepers),
        Err(_) => Err(Trouble::from(Memory)),
    }
}

#[test]
fn the_server_that_does_not_open_is_told(rt: HostRuntime) -> Result<(), Fail> {
    let keepers = mixed_up(rt.alloc())?;
    let fault = StartFault::Open {
        server: server(1)?,
        fault: OpenFault::Damaged { place: 0 },
    };
    assert!(rt; fault_over(rt, rt.alloc(), keepers) == Ok(Some(fault)));
    Ok(())
}
