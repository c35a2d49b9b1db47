//! Why a cluster doesn't close well.
use crate::keepers::{empty, failing};
use crate::talk::{Asked, hand_in, talked};
use crate::texts::PUTS;
use crate::trouble::Trouble;
use lynx_cluster::{CloseFault, Cluster, Frontend, Gate, OpenGate, Session};
use lynx_fixtures::made::{message, server};
use lynx_fixtures::parts::{AnswerParts, RequestParts};
use lynx_fixtures::payments::SENT;
use lynx_fixtures::texts::{PAYMENT, set_of};
use lynx_keep::{BatchKeeper, MemoryKeeper, Planned};
use lynx_names::ServerId;
use lynx_server::Server;
use std::alloc::Global;
use std::sync::Wait;
use std::test::Fail;
use std::thread::Threads;
use std::time::Clock;

const FIRST: RequestParts = RequestParts {
    client: 1,
    number: 1,
    program: 0,
    args: &[7],
};

/// Server 0 keeps the first put, and stops at the second. Server 1 goes on.
const PUTS_AT_A_STOP: &[Asked] = &[
    Asked::Begin(
        FIRST,
        AnswerParts::Begun {
            origin: 0,
            index: 0,
            time: 1,
            results: &[],
            again: false,
        },
    ),
    Asked::Begin(RequestParts { number: 2, ..FIRST }, AnswerParts::Stopped),
    Asked::Begin(FIRST, AnswerParts::Stopped),
    Asked::Begin(
        RequestParts {
            number: 3,
            program: 2,
            ..FIRST
        },
        AnswerParts::Begun {
            origin: 1,
            index: 0,
            time: 2,
            results: &[],
            again: false,
        },
    ),
];

/// Whether a session over these keepers is told this, and why its cluster doesn't close. None where
/// it does.
fn fault_after<
    R: Threads + Wait + Clock + Copy + Send + 'static,
    K: BatchKeeper + Send + Drop + 'static,
>(
    rt: R,
    alloc: Global,
    text: &str,
    keepers: Vec<K>,
    asked: &[Asked],
) -> Result<(bool, Option<CloseFault>), Trouble> {
    let set = set_of(alloc, text)?;
    let cluster = Cluster::start(rt, alloc, &set, keepers, OpenGate)?;
    let (sessions, is_right) = talked(&rt, alloc, cluster.frontend(), asked);
    let fault = cluster.close(&rt, alloc, sessions).err();
    Ok((is_right, fault))
}

#[test]
fn a_server_whose_store_failed_is_stopped(rt: HostRuntime) -> Result<(), Fail> {
    for planned in [Planned::FailsBefore, Planned::FailsAfter] {
        let keepers = failing(rt.alloc(), 2, 0, 1, planned)?;
        let ended = fault_after(rt, rt.alloc(), PUTS, keepers, PUTS_AT_A_STOP);
        let stopped = CloseFault::Stopped {
            server: ServerId::first(),
        };
        assert!(rt; ended == Ok((true, Some(stopped))), "{planned:?}");
    }
    Ok(())
}

/// Server 0 kept nothing, and server 1 a hop on a message that nobody sent.
fn without_sender(alloc: Global) -> Result<Vec<MemoryKeeper>, Trouble> {
    let set = set_of(alloc, PAYMENT)?;
    let mut keepers = empty(alloc, 1)?;
    let payee = ServerId::new(1).ok_or(Trouble::Open)?;
    let Ok(mut payee) = Server::open(alloc, &set, payee, MemoryKeeper::new(alloc)) else {
        return Err(Trouble::Open);
    };
    let _ = payee.deliver(alloc, message(alloc, SENT)?);
    match keepers.push(payee.into_keeper()) {
        Ok(()) => Ok(keepers),
        Err(_) => Err(Trouble::Memory),
    }
}

#[test]
fn a_hop_that_nobody_sent_is_a_mismatch(rt: HostRuntime) -> Result<(), Fail> {
    let keepers = without_sender(rt.alloc())?;
    let mismatch = CloseFault::Mismatch {
        server: server(1)?,
        place: 0,
    };
    let ended = fault_after(rt, rt.alloc(), PAYMENT, keepers, &[]);
    assert!(rt; ended == Ok((true, Some(mismatch))));
    Ok(())
}

/// The first of three sessions, and the third. The second is abandoned.
fn two_of_three<R: Wait, K: BatchKeeper, G: Gate>(
    rt: &R,
    alloc: Global,
    frontend: &Frontend<K, G>,
) -> Vec<Session> {
    let mut sessions = Vec::new(alloc);
    for _ in 0..3 {
        let Some(session) = frontend.session(rt, alloc) else {
            continue;
        };
        if session.number() == 1 {
            session.abandon();
        } else {
            hand_in(&mut sessions, session);
        }
    }
    sessions
}

/// Why a cluster over these keepers doesn't close without its second session.
fn fault_without_second<
    R: Threads + Wait + Clock + Copy + Send + 'static,
    K: BatchKeeper + Send + Drop + 'static,
>(rt: R, alloc: Global, keepers: Vec<K>) -> Result<Option<CloseFault>, Trouble> {
    let set = set_of(alloc, PUTS)?;
    let cluster = Cluster::start(rt, alloc, &set, keepers, OpenGate)?;
    let sessions = two_of_three(&rt, alloc, cluster.frontend());
    Ok(cluster.close(&rt, alloc, sessions).err())
}

#[test]
fn a_session_that_is_abandoned_is_absent(rt: HostRuntime) -> Result<(), Fail> {
    let keepers = empty(rt.alloc(), 2)?;
    let absent = CloseFault::Absent { session: 1 };
    assert!(rt; fault_without_second(rt, rt.alloc(), keepers) == Ok(Some(absent)));
    Ok(())
}

/// The session of another cluster of the set, over these keepers, which was told a begin and isn't
/// handed in there.
fn stranger<
    R: Threads + Wait + Clock + Copy + Send + 'static,
    K: BatchKeeper + Send + Drop + 'static,
>(rt: R, alloc: Global, frontend: &Frontend<K, OpenGate>, keepers: Vec<K>) -> Vec<Session> {
    let Ok(cluster) = Cluster::start(rt, alloc, frontend.set(), keepers, OpenGate) else {
        return Vec::new(alloc);
    };
    let asked = PUTS_AT_A_STOP.split_at(1).0;
    let (sessions, _) = talked(&rt, alloc, cluster.frontend(), asked);
    let _ = cluster.close(&rt, alloc, Vec::new(alloc));
    sessions
}

/// Why a cluster whose servers began nothing doesn't close with a session of another.
fn fault_of_stranger<
    R: Threads + Wait + Clock + Copy + Send + 'static,
    K: BatchKeeper + Send + Drop + 'static,
>(rt: R, alloc: Global, one: Vec<K>, other: Vec<K>) -> Result<Option<CloseFault>, Trouble> {
    let set = set_of(alloc, PUTS)?;
    let cluster = Cluster::start(rt, alloc, &set, one, OpenGate)?;
    let strangers = stranger(rt, alloc, cluster.frontend(), other);
    Ok(cluster.close(&rt, alloc, strangers).err())
}

#[test]
fn what_another_cluster_told_does_not_stand(rt: HostRuntime) -> Result<(), Fail> {
    let (one, other) = (empty(rt.alloc(), 2)?, empty(rt.alloc(), 2)?);
    let told = CloseFault::Told {
        session: 0,
        place: 0,
    };
    assert!(rt; fault_of_stranger(rt, rt.alloc(), one, other) == Ok(Some(told)));
    Ok(())
}
