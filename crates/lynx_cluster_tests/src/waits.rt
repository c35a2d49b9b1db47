//! How long a begin waits for the worker of its server.
use crate::barrier::make_barrier;
use crate::slow::{SlowKeeper, slow_keeper};
use crate::talk::hand_in;
use crate::texts::PURSES;
use crate::trouble::Trouble;
use lynx_cluster::{Cluster, Frontend, Gate, Session};
use lynx_entry::Answer;
use lynx_fixtures::made::request;
use lynx_fixtures::parts::RequestParts;
use lynx_fixtures::texts::set_of;
use lynx_keep::BatchKeeper;
use lynx_names::Memory;
use std::alloc::Global;
use std::sync::atomic::{AtomicBool, AtomicU64, Ordering};
use std::sync::{Arc, Wait};
use std::test::Fail;
use std::thread;
use std::thread::Threads;
use std::time::{Clock, Duration};

/// Chains that are held at the slow server until the first one comes there.
const HELD: u64 = 60;

/// Commits of the slow server while one begins there, at most.
const MOST_COMMITS: u64 = 12;

/// Begins at the slow server while they are woken.
const BEGINS: u64 = 5;

/// What a commit of the slow server takes, in milliseconds.
const PAUSE_MILLIS: u64 = 20;

/// Programs of the set of purses: the first server's seed, near and far, and the third one's seed.
const SEED: u8 = 0;

const NEAR: u8 = 1;

const FAR: u8 = 2;

const SLOW_SEED: u8 = 8;

/// A program, with what it is given.
#[derive(Clone, Copy)]
struct Call {
    program: u8,
    args: &'static [u64],
}

/// Begins it. Whether it began.
fn begins<R: Wait + Clock, K: BatchKeeper, G: Gate>(
    rt: &R,
    alloc: Global,
    frontend: &Frontend<K, G>,
    session: &mut Session,
    number: u64,
    call: Call,
) -> Result<bool, Memory> {
    let parts = RequestParts {
        client: 1,
        number,
        program: call.program,
        args: call.args,
    };
    let answer = frontend.begin(rt, alloc, session, request(alloc, parts)?);
    Ok(matches!(answer, Answer::Begun { .. }))
}

/// Lets a chain go the long way, and then many the short one: they are held at the slow server, and
/// woken one after another once the barrier is open.
fn send_ahead<R: Wait + Clock, K: BatchKeeper, G: Gate>(
    rt: &R,
    alloc: Global,
    frontend: &Frontend<K, G>,
    session: &mut Session,
) -> Result<bool, Memory> {
    let seed = Call {
        program: SEED,
        args: &[1_000],
    };
    let far = Call {
        program: FAR,
        args: &[1, 1],
    };
    let near = Call {
        program: NEAR,
        args: &[1],
    };
    let mut have_begun = begins(rt, alloc, frontend, session, 0, seed)?
        && begins(rt, alloc, frontend, session, 1, far)?;
    for number in 0..HELD {
        have_begun = have_begun && begins(rt, alloc, frontend, session, 2 + number, near)?;
    }
    Ok(have_begun)
}

/// The most commits of the slow server while one begins there, its own included.
fn most_commits<R: Wait + Clock, K: BatchKeeper, G: Gate>(
    rt: &R,
    alloc: Global,
    frontend: &Frontend<K, G>,
    session: &mut Session,
    commits: &AtomicU64,
) -> Result<Option<u64>, Memory> {
    let call = Call {
        program: SLOW_SEED,
        args: &[1],
    };
    let mut most: u64 = 0;
    for number in 0..BEGINS {
        let before = commits.load(Ordering::SeqCst);
        if !begins(rt, alloc, frontend, session, 1_000 + number, call)? {
            return Ok(None);
        }
        let after = commits.load(Ordering::SeqCst);
        most = most.max(after.saturating_sub(before));
        thread::sleep(rt, Duration::from_millis(PAUSE_MILLIS));
    }
    Ok(Some(most))
}

/// Whether no begin at the slow server waits for the line of commits: for the one under way, or for
/// some where its thread has to wait for a processor, but never for all that are woken.
fn is_short<R: Wait + Clock, K: BatchKeeper, G: Gate>(
    rt: &R,
    alloc: Global,
    frontend: &Frontend<K, G>,
    session: &mut Session,
    is_open: &AtomicBool,
    commits: &AtomicU64,
) -> Result<bool, Memory> {
    let have_begun = send_ahead(rt, alloc, frontend, session)?;
    is_open.store(true, Ordering::SeqCst);
    for _ in 0..1_000 {
        if commits.load(Ordering::SeqCst) > 2 {
            break;
        }
        thread::sleep(rt, Duration::from_millis(1));
    }
    match most_commits(rt, alloc, frontend, session, commits)? {
        Some(most) => Ok(have_begun && most <= MOST_COMMITS),
        None => Ok(false),
    }
}

/// Keepers of which the third takes its time, and its count.
fn keepers<R: Clock + Copy + Drop>(
    rt: R,
    alloc: Global,
) -> Result<(Vec<SlowKeeper<R>>, Arc<AtomicU64>), Memory> {
    let mut keepers = Vec::new(alloc);
    let (first, _) = slow_keeper(rt, alloc, Duration::ZERO)?;
    keepers.push(first)?;
    let (second, _) = slow_keeper(rt, alloc, Duration::ZERO)?;
    keepers.push(second)?;
    let (third, commits) = slow_keeper(rt, alloc, Duration::from_millis(PAUSE_MILLIS))?;
    keepers.push(third)?;
    let (fourth, _) = slow_keeper(rt, alloc, Duration::ZERO)?;
    keepers.push(fourth)?;
    Ok((keepers, commits))
}

/// Whether begins get their turn while held messages are woken.
fn take_turns<R: Threads + Wait + Clock + Copy + Drop + Send + Sync + 'static>(
    rt: R,
    alloc: Global,
) -> Result<bool, Trouble> {
    let set = set_of(alloc, PURSES)?;
    let (keepers, commits) = keepers(rt, alloc)?;
    let (gate, is_open) = make_barrier(rt, alloc)?;
    let cluster = Cluster::start(rt, alloc, &set, keepers, gate)?;
    let mut sessions = Vec::new(alloc);
    let mut are_short = false;
    if let Some(mut session) = cluster.session(&rt, alloc) {
        let short = is_short(
            &rt,
            alloc,
            cluster.frontend(),
            &mut session,
            &is_open,
            &commits,
        );
        are_short = short == Ok(true);
        hand_in(&mut sessions, session);
    }
    cluster.close(&rt, alloc, sessions)?;
    Ok(are_short)
}

#[test]
fn a_begin_waits_for_no_line_of_commits(rt: HostRuntime) -> Result<(), Fail> {
    assert!(rt; take_turns(rt, rt.alloc()) == Ok(true));
    Ok(())
}
