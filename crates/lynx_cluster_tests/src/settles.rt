//! A store that fails in a settling, with clients that wait for it.
use crate::keepers::failing;
use crate::talk::{hand_in, two_sessions};
use crate::texts::PUTS;
use crate::trouble::Trouble;
use lynx_cluster::{CloseFault, Cluster, Frontend, Gate, OpenGate, Session};
use lynx_codec::Looked;
use lynx_entry::Answer;
use lynx_fixtures::made::{chain, request};
use lynx_fixtures::parts::RequestParts;
use lynx_fixtures::texts::set_of;
use lynx_keep::{BatchKeeper, Planned};
use lynx_names::{Memory, ServerId};
use std::alloc::Global;
use std::sync::Wait;
use std::test::Fail;
use std::thread;
use std::thread::Threads;
use std::time::Clock;

/// Begins of a client, at most: more than the settlings before the one that fails.
const MOST_BEGINS: u64 = 200;

/// Settlings before the one that fails.
const SETTLINGS: u64 = 40;

/// Begins, one after another, until one isn't answered by a begin: how many were, and that answer.
fn begin_on<R: Wait + Clock, K: BatchKeeper, G: Gate>(
    rt: &R,
    alloc: Global,
    frontend: &Frontend<K, G>,
    session: &mut Session,
    client: u64,
) -> Result<(u64, bool), Memory> {
    for number in 1..=MOST_BEGINS {
        let parts = RequestParts {
            client,
            number,
            program: 0,
            args: &[7],
        };
        match frontend.begin(rt, alloc, session, request(alloc, parts)?) {
            Answer::Begun { .. } => {}
            answer => return Ok((number.saturating_sub(1), answer == Answer::Stopped)),
        }
    }
    Ok((MOST_BEGINS, false))
}

/// Two sessions that begin at once until the store fails: how many begins both were told, and
/// whether one was told Stopped at its end, and the other, too.
fn begin_both<
    R: Threads + Wait + Clock + Sync,
    K: BatchKeeper + Send + Drop,
    G: Gate + Send + Sync + Drop,
>(
    rt: &R,
    alloc: Global,
    frontend: &Frontend<K, G>,
    one: &mut Session,
    other: &mut Session,
) -> Result<(u64, bool, bool), Memory> {
    let (first, second) = thread::join(
        rt,
        || begin_on(rt, alloc, frontend, one, 1),
        || begin_on(rt, alloc, frontend, other, 2),
    );
    let (first, second) = (first?, second?);
    let told = first.0.saturating_add(second.0);
    Ok((told, first.1, second.1))
}

/// Whether just so many chains are seen of the server, and whether it has stopped.
fn shows<R: Wait, K: BatchKeeper, G: Gate>(
    rt: &R,
    alloc: Global,
    frontend: &Frontend<K, G>,
    session: &mut Session,
    told: u64,
    has_stopped: bool,
) -> Result<bool, Memory> {
    let Some(glance) = frontend.glance(rt, ServerId::first()) else {
        return Ok(false);
    };
    let next = frontend.look(rt, alloc, session, chain(0, told)?, 0)?;
    let last = match told.checked_sub(1) {
        Some(last) => frontend.look(rt, alloc, session, chain(0, last)?, 0)?,
        None => Looked::Absent,
    };
    Ok(
        glance.entries == told
            && glance.is_running != has_stopped
            && next == Looked::Absent
            && last != Looked::Absent,
    )
}

/// The sessions of two clients that begin at once until the store fails, and whether all that was
/// told is seen, and no more, and the server stops or doesn't.
fn both_told<
    R: Threads + Wait + Clock + Sync,
    K: BatchKeeper + Send + Drop,
    G: Gate + Send + Sync + Drop,
>(rt: &R, alloc: Global, frontend: &Frontend<K, G>, stops: bool) -> (Vec<Session>, bool) {
    let mut sessions = Vec::new(alloc);
    let Some((mut one, mut other)) = two_sessions(rt, alloc, frontend) else {
        return (sessions, false);
    };
    let is_right = match begin_both(rt, alloc, frontend, &mut one, &mut other) {
        Ok((told, first, second)) => {
            first == stops
                && second == stops
                && shows(rt, alloc, frontend, &mut one, told, stops) == Ok(true)
        }
        Err(Memory) => false,
    };
    hand_in(&mut sessions, one);
    hand_in(&mut sessions, other);
    (sessions, is_right)
}

/// Whether all that was told is seen, and no more, where the store fails so in a settling, and
/// whether the server stops by it.
fn is_kept<R: Threads + Wait + Clock + Copy + Send + Sync + 'static>(
    rt: R,
    alloc: Global,
    planned: Planned,
    stops: bool,
) -> Result<bool, Trouble> {
    let set = set_of(alloc, PUTS)?;
    let keepers = failing(alloc, 2, 0, SETTLINGS, planned)?;
    let cluster = Cluster::start(rt, alloc, &set, keepers, OpenGate)?;
    let (sessions, is_right) = both_told(&rt, alloc, cluster.frontend(), stops);
    let fault = cluster.close(&rt, alloc, sessions).err();
    let stopped = CloseFault::Stopped {
        server: ServerId::first(),
    };
    Ok(is_right && fault == if stops { Some(stopped) } else { None })
}

#[test]
fn what_is_not_settled_is_told_to_nobody(rt: HostRuntime) -> Result<(), Fail> {
    // Where memory is wanting once, the settling is tried again.
    let faults = [
        (Planned::FailsBefore, true),
        (Planned::FailsAfter, true),
        (Planned::Memory, false),
    ];
    for (planned, stops) in faults {
        assert!(rt; is_kept(rt, rt.alloc(), planned, stops) == Ok(true));
    }
    Ok(())
}
