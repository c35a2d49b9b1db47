//! What a session asks, and is to be told.
use crate::trouble::Trouble;
use lynx_cluster::{Frontend, Gate, Session};
use lynx_codec::Looked;
use lynx_fixtures::made::{answer, chain, request, stamp, values};
use lynx_fixtures::parts::{AnswerParts, RequestParts};
use lynx_keep::BatchKeeper;
use lynx_names::{ChainId, Memory};
use lynx_order::{Explained, explain};
use lynx_world::World;
use std::alloc::{AllocFailed, Global};
use std::sync::Wait;
use std::thread;
use std::time::{Clock, Duration};

/// As often is looked at most, with a millisecond between two looks.
const MOST_LOOKS: u32 = 10_000;

/// A chain: its origin and its index.
pub type Chain = (u8, u64);

/// One thing that a session asks, with what it is to be told.
#[derive(Clone, Copy)]
pub enum Asked {
    Begin(RequestParts, AnswerParts),
    /// It looks at the hop until there is an entry, of that stamp.
    Find {
        chain: Chain,
        hop: u8,
        time: u64,
        results: &'static [u64],
    },
    /// There is no such hop.
    Miss {
        chain: Chain,
        hop: u8,
    },
}

/// What there is of the hop, as soon as there is something.
fn found<R: Wait + Clock, K: BatchKeeper, G: Gate>(
    rt: &R,
    alloc: Global,
    frontend: &Frontend<K, G>,
    session: &mut Session,
    chain: &ChainId,
    hop: u8,
) -> Result<Looked, Memory> {
    for _ in 0..MOST_LOOKS {
        let looked = frontend.look(rt, alloc, session, *chain, hop)?;
        if looked != Looked::Absent {
            return Ok(looked);
        }
        thread::sleep(rt, Duration::from_millis(1));
    }
    Ok(Looked::Absent)
}

/// Whether the session is told what it is to be told.
fn is_told<R: Wait + Clock, K: BatchKeeper, G: Gate>(
    rt: &R,
    alloc: Global,
    frontend: &Frontend<K, G>,
    session: &mut Session,
    asked: Asked,
) -> Result<bool, Memory> {
    match asked {
        Asked::Begin(parts, want) => {
            let told = frontend.begin(rt, alloc, session, request(alloc, parts)?);
            Ok(told == answer(alloc, want)?)
        }
        Asked::Find {
            chain: (origin, index),
            hop,
            time,
            results,
        } => {
            let sought = chain(origin, index)?;
            let told = found(rt, alloc, frontend, session, &sought, hop)?;
            let (stamp, results) = (stamp(time)?, values(alloc, results)?);
            Ok(told == Looked::Found { stamp, results })
        }
        Asked::Miss {
            chain: (origin, index),
            hop,
        } => {
            let told = frontend.look(rt, alloc, session, chain(origin, index)?, hop)?;
            Ok(told == Looked::Absent)
        }
    }
}

/// Asks one thing after another, up to the first that is told wrongly. Whether there is none.
pub fn talk<R: Wait + Clock, K: BatchKeeper, G: Gate>(
    rt: &R,
    alloc: Global,
    frontend: &Frontend<K, G>,
    session: &mut Session,
    asked: &[Asked],
) -> bool {
    for asked in asked {
        if is_told(rt, alloc, frontend, session, *asked) != Ok(true) {
            return false;
        }
    }
    true
}

/// Puts the session in the list of those that are handed in. For want of memory it is abandoned,
/// and the close tells of it.
pub fn hand_in(sessions: &mut Vec<Session>, session: Session) {
    if let Err(AllocFailed { value }) = sessions.push(session) {
        value.abandon();
    }
}

/// Two sessions of the cluster. One alone is abandoned.
pub fn two_sessions<R: Wait, K: BatchKeeper, G: Gate>(
    rt: &R,
    alloc: Global,
    frontend: &Frontend<K, G>,
) -> Option<(Session, Session)> {
    let first = frontend.session(rt, alloc)?;
    let Some(second) = frontend.session(rt, alloc) else {
        first.abandon();
        return None;
    };
    Some((first, second))
}

/// A session that asked all this, alone in a list, and whether it was told rightly.
pub fn talked<R: Wait + Clock, K: BatchKeeper, G: Gate>(
    rt: &R,
    alloc: Global,
    frontend: &Frontend<K, G>,
    asked: &[Asked],
) -> (Vec<Session>, bool) {
    let mut sessions = Vec::new(alloc);
    let Some(mut session) = frontend.session(rt, alloc) else {
        return (sessions, false);
    };
    let is_right = talk(rt, alloc, frontend, &mut session, asked);
    hand_in(&mut sessions, session);
    (sessions, is_right)
}

/// The chains are these.
fn are_chains(chains: &[ChainId], want: &[Chain]) -> bool {
    for (chain, want) in chains.iter().zip(want) {
        if (chain.origin.number(), chain.index) != *want {
            return false;
        }
    }
    chains.len() == want.len()
}

/// Whether the order that explains the world is this.
pub fn is_explained(alloc: Global, world: &World, want: &[Chain]) -> Result<bool, Trouble> {
    match explain(alloc, world)? {
        Explained::Order(chains) => Ok(are_chains(chains.as_slice(), want)),
        Explained::Cycle(_) => Ok(false),
    }
}
