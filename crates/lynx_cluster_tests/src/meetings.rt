//! Two threads inside two servers at once.
use crate::crossing::make_crossing;
use crate::keepers::{began, empty};
use crate::talk::{Asked, hand_in, is_explained, talk, talked, two_sessions};
use crate::texts::{GO_AND_COME, PUTS};
use crate::trouble::Trouble;
use lynx_cluster::{Closed, Cluster, Frontend, Gate, Session, StepKind};
use lynx_fixtures::cells::are_cells;
use lynx_fixtures::made::server;
use lynx_fixtures::parts::{AnswerParts, RequestParts};
use lynx_fixtures::texts::set_of;
use lynx_keep::{BatchKeeper, MemoryKeeper};
use std::alloc::Global;
use std::sync::Wait;
use std::test::Fail;
use std::thread;
use std::thread::Threads;
use std::time::Clock;

/// What the first session begins at server 0, ..
const AT_FIRST: &[Asked] = &[Asked::Begin(
    RequestParts {
        client: 1,
        number: 1,
        program: 0,
        args: &[7],
    },
    AnswerParts::Begun {
        origin: 0,
        index: 0,
        time: 1,
        results: &[],
        again: false,
    },
)];

/// .. what the second begins at server 1 meanwhile, ..
const AT_SECOND: &[Asked] = &[Asked::Begin(
    RequestParts {
        client: 2,
        number: 1,
        program: 2,
        args: &[8],
    },
    AnswerParts::Begun {
        origin: 1,
        index: 0,
        time: 1,
        results: &[],
        again: false,
    },
)];

/// .. and what the first begins then.
const AFTERWARDS: &[Asked] = &[Asked::Begin(
    RequestParts {
        client: 1,
        number: 2,
        program: 1,
        args: &[],
    },
    AnswerParts::Begun {
        origin: 0,
        index: 1,
        time: 2,
        results: &[7],
        again: false,
    },
)];

/// The sessions of two threads that begin at once, and whether they are told rightly.
fn both_begin<
    R: Threads + Wait + Clock + Sync,
    K: BatchKeeper + Send + Drop,
    G: Gate + Send + Sync + Drop,
>(rt: &R, alloc: Global, frontend: &Frontend<K, G>) -> (Vec<Session>, bool) {
    let mut sessions = Vec::new(alloc);
    let Some((mut first, mut second)) = two_sessions(rt, alloc, frontend) else {
        return (sessions, false);
    };
    let (left, right) = thread::join(
        rt,
        || talk(rt, alloc, frontend, &mut first, AT_FIRST),
        || talk(rt, alloc, frontend, &mut second, AT_SECOND),
    );
    let is_right = left && right && talk(rt, alloc, frontend, &mut first, AFTERWARDS);
    hand_in(&mut sessions, first);
    hand_in(&mut sessions, second);
    (sessions, is_right)
}

/// Whether two begins are inside two servers at once, all is told rightly, and the cluster closes
/// as it should.
fn begins_meet<
    R: Threads + Wait + Clock + Copy + Drop + Send + Sync + 'static,
    K: BatchKeeper + Send + Drop + 'static,
>(rt: R, alloc: Global, keepers: Vec<K>) -> Result<bool, Trouble> {
    let set = set_of(alloc, PUTS)?;
    let (gate, marks) = make_crossing(rt, alloc, StepKind::Begin)?;
    let cluster = Cluster::start(rt, alloc, &set, keepers, gate)?;
    let (sessions, is_right) = both_begin(&rt, alloc, cluster.frontend());
    let closed = cluster.close(&rt, alloc, sessions)?;
    let order = &[(0, 0), (1, 0), (0, 1)];
    Ok(is_right && marks.have_met() && is_explained(alloc, &closed.world, order)?)
}

#[test]
fn two_begins_are_inside_at_once(rt: HostRuntime) -> Result<(), Fail> {
    let keepers = empty(rt.alloc(), 2)?;
    assert!(rt; begins_meet(rt, rt.alloc(), keepers) == Ok(true));
    Ok(())
}

/// Keepers that kept a chain each, which still has to go to the other server.
fn under_way(alloc: Global) -> Result<Vec<MemoryKeeper>, Trouble> {
    let mut keepers = Vec::new(alloc);
    for number in 0..2u8 {
        let asked = RequestParts {
            client: u64::from(number).saturating_add(1),
            number: 1,
            program: number,
            args: &[],
        };
        let keeper = began(alloc, GO_AND_COME, server(number)?, asked)?;
        if keepers.push(keeper).is_err() {
            return Err(Trouble::Memory);
        }
    }
    Ok(keepers)
}

/// Both chains come to the other server.
const ARRIVALS: &[Asked] = &[
    Asked::Find {
        chain: (0, 0),
        hop: 1,
        time: 2,
        results: &[],
    },
    Asked::Find {
        chain: (1, 0),
        hop: 1,
        time: 2,
        results: &[],
    },
];

/// Whether the world is that of both chains.
fn have_crossed<K: BatchKeeper>(alloc: Global, closed: &Closed<K>) -> Result<bool, Trouble> {
    let cells = closed.world.cells(alloc)?;
    Ok(
        are_cells(cells.as_slice(), &[(0, 0, 2), (0, 10, 2)])
            && is_explained(alloc, &closed.world, &[(0, 0), (1, 0)])?,
    )
}

/// Whether two deliveries are inside two servers at once, and the cluster closes as it should.
fn deliveries_meet<
    R: Threads + Wait + Clock + Copy + Drop + Send + Sync + 'static,
    K: BatchKeeper + Send + Drop + 'static,
>(rt: R, alloc: Global, keepers: Vec<K>) -> Result<bool, Trouble> {
    let set = set_of(alloc, GO_AND_COME)?;
    let (gate, marks) = make_crossing(rt, alloc, StepKind::Deliver)?;
    let cluster = Cluster::start(rt, alloc, &set, keepers, gate)?;
    let (sessions, is_right) = talked(&rt, alloc, cluster.frontend(), ARRIVALS);
    let closed = cluster.close(&rt, alloc, sessions)?;
    Ok(is_right && marks.have_met() && have_crossed(alloc, &closed)?)
}

#[test]
fn two_deliveries_are_inside_at_once(rt: HostRuntime) -> Result<(), Fail> {
    let keepers = under_way(rt.alloc())?;
    assert!(rt; deliveries_meet(rt, rt.alloc(), keepers) == Ok(true));
    Ok(())
}
