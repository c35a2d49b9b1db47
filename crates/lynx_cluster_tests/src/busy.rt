//! A chain that is still to return to its origin.
use crate::barrier::make_barrier;
use crate::keepers::empty;
use crate::sessions::{FIRST_IS_BACK, FIRST_TRIP, SECOND, SECOND_TRIP};
use crate::talk::{Asked, hand_in, is_explained, talk};
use crate::trouble::Trouble;
use lynx_cluster::{Cluster, Frontend, Gate, Session};
use lynx_fixtures::parts::AnswerParts;
use lynx_fixtures::texts::{TRIP, set_of};
use lynx_keep::BatchKeeper;
use std::alloc::Global;
use std::sync::Wait;
use std::sync::atomic::{AtomicBool, Ordering};
use std::test::Fail;
use std::thread::Threads;
use std::time::Clock;

/// The first trip begins, the second is busy, ..
const WHILE_AWAY: &[Asked] = &[FIRST_TRIP, Asked::Begin(SECOND, AnswerParts::Busy)];

/// .. and begins once the first is back.
const BACK: &[Asked] = &[FIRST_IS_BACK, SECOND_TRIP];

/// A session that asks while the first trip is away and when it is back, and whether it is told
/// rightly.
fn talked<R: Wait + Clock, K: BatchKeeper, G: Gate>(
    rt: &R,
    alloc: Global,
    frontend: &Frontend<K, G>,
    is_open: &AtomicBool,
) -> (Vec<Session>, bool) {
    let mut sessions = Vec::new(alloc);
    let Some(mut session) = frontend.session(rt, alloc) else {
        return (sessions, false);
    };
    let is_busy = talk(rt, alloc, frontend, &mut session, WHILE_AWAY);
    is_open.store(true, Ordering::SeqCst);
    let is_back = talk(rt, alloc, frontend, &mut session, BACK);
    hand_in(&mut sessions, session);
    (sessions, is_busy && is_back)
}

/// Whether the second trip is busy while the first is away.
fn is_busy<
    R: Threads + Wait + Clock + Copy + Drop + Send + Sync + 'static,
    K: BatchKeeper + Send + Drop + 'static,
>(rt: R, alloc: Global, keepers: Vec<K>) -> Result<bool, Trouble> {
    let set = set_of(alloc, TRIP)?;
    let (gate, is_open) = make_barrier(rt, alloc)?;
    let cluster = Cluster::start(rt, alloc, &set, keepers, gate)?;
    let (sessions, is_right) = talked(&rt, alloc, cluster.frontend(), &is_open);
    let closed = cluster.close(&rt, alloc, sessions)?;
    Ok(is_right && is_explained(alloc, &closed.world, &[(0, 0), (0, 1)])?)
}

#[test]
fn an_origin_is_busy_until_the_chain_returns(rt: HostRuntime) -> Result<(), Fail> {
    let keepers = empty(rt.alloc(), 2)?;
    assert!(rt; is_busy(rt, rt.alloc(), keepers) == Ok(true));
    Ok(())
}
