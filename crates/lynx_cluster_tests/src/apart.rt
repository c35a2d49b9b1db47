//! A server that stands still, and those that don't wait for it.
use crate::barrier::make_barrier;
use crate::keepers::empty;
use crate::talk::hand_in;
use crate::texts::FAN;
use crate::trouble::Trouble;
use lynx_cluster::{Cluster, Frontend, Gate, Session};
use lynx_codec::Looked;
use lynx_entry::Answer;
use lynx_fixtures::made::{chain, request};
use lynx_fixtures::parts::RequestParts;
use lynx_fixtures::texts::set_of;
use lynx_keep::BatchKeeper;
use lynx_names::Memory;
use lynx_order::{Explained, explain};
use std::alloc::Global;
use std::sync::Wait;
use std::sync::atomic::{AtomicBool, Ordering};
use std::test::Fail;
use std::thread;
use std::thread::Threads;
use std::time::{Clock, Duration};

/// Chains that go to the server that stands still: more than a ring and its worker's inbox hold.
const STUCK: u64 = 600;

/// As often is looked at most, with a millisecond between two looks.
const MOST_LOOKS: u32 = 5_000;

/// Begins a program without arguments. Whether it began.
fn begins<R: Wait + Clock, K: BatchKeeper, G: Gate>(
    rt: &R,
    alloc: Global,
    frontend: &Frontend<K, G>,
    session: &mut Session,
    program: u8,
    number: u64,
) -> Result<bool, Memory> {
    let parts = RequestParts {
        client: 1,
        number,
        program,
        args: &[],
    };
    let answer = frontend.begin(rt, alloc, session, request(alloc, parts)?);
    Ok(matches!(answer, Answer::Begun { .. }))
}

/// Whether the last hop of that chain is done soon.
fn is_done<R: Wait + Clock, K: BatchKeeper, G: Gate>(
    rt: &R,
    alloc: Global,
    frontend: &Frontend<K, G>,
    session: &mut Session,
    index: u64,
) -> Result<bool, Memory> {
    for _ in 0..MOST_LOOKS {
        if frontend.look(rt, alloc, session, chain(0, index)?, 1)? != Looked::Absent {
            return Ok(true);
        }
        thread::sleep(rt, Duration::from_millis(1));
    }
    Ok(false)
}

/// Whether a chain to the last server is done while the other one stands still, and the chains to
/// that one are once it goes on.
fn are_done<R: Wait + Clock, K: BatchKeeper, G: Gate>(
    rt: &R,
    alloc: Global,
    frontend: &Frontend<K, G>,
    session: &mut Session,
    is_open: &AtomicBool,
) -> Result<bool, Memory> {
    for number in 0..STUCK {
        if !begins(rt, alloc, frontend, session, 0, number)? {
            return Ok(false);
        }
    }
    let has_begun = begins(rt, alloc, frontend, session, 1, STUCK)?;
    let passes = is_done(rt, alloc, frontend, session, STUCK)?;
    is_open.store(true, Ordering::SeqCst);
    Ok(has_begun && passes && is_done(rt, alloc, frontend, session, STUCK - 1)?)
}

/// Whether that is so in a cluster, and an order explains all.
fn are_apart<
    R: Threads + Wait + Clock + Copy + Drop + Send + Sync + 'static,
    K: BatchKeeper + Send + Drop + 'static,
>(rt: R, alloc: Global, keepers: Vec<K>) -> Result<bool, Trouble> {
    let set = set_of(alloc, FAN)?;
    let (gate, is_open) = make_barrier(rt, alloc)?;
    let cluster = Cluster::start(rt, alloc, &set, keepers, gate)?;
    let mut sessions = Vec::new(alloc);
    let mut are_done_all = false;
    if let Some(mut session) = cluster.session(&rt, alloc) {
        let done = are_done(&rt, alloc, cluster.frontend(), &mut session, &is_open);
        are_done_all = done == Ok(true);
        hand_in(&mut sessions, session);
    }
    let closed = cluster.close(&rt, alloc, sessions)?;
    match explain(alloc, &closed.world)? {
        Explained::Order(chains) => Ok(are_done_all && chains.len() as u64 == STUCK + 1),
        Explained::Cycle(_) => Ok(false),
    }
}

#[test]
fn a_server_that_stands_still_holds_up_no_other(rt: HostRuntime) -> Result<(), Fail> {
    let keepers = empty(rt.alloc(), 3)?;
    assert!(rt; are_apart(rt, rt.alloc(), keepers) == Ok(true));
    Ok(())
}
