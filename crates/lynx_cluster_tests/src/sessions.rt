//! The worked sessions.
use crate::keepers::empty;
use crate::talk::{Asked, Chain, is_explained, talked};
use crate::texts::PUTS;
use crate::trouble::Trouble;
use lynx_cluster::{Cluster, OpenGate};
use lynx_fixtures::parts::{AnswerParts, RequestParts};
use lynx_fixtures::texts::{TRIP, set_of};
use lynx_keep::BatchKeeper;
use std::alloc::Global;
use std::sync::Wait;
use std::test::Fail;
use std::thread::Threads;
use std::time::Clock;

/// A set, what one session asks, and the order of its world.
#[derive(Clone, Copy)]
pub struct Row {
    pub set: &'static str,
    pub asked: &'static [Asked],
    order: &'static [Chain],
}

const PUT: RequestParts = RequestParts {
    client: 1,
    number: 1,
    program: 0,
    args: &[7],
};

/// Puts at two servers, one of them again, another under the same number, and looks.
const PUTTING: Row = Row {
    set: PUTS,
    asked: &[
        Asked::Begin(
            PUT,
            AnswerParts::Begun {
                origin: 0,
                index: 0,
                time: 1,
                results: &[],
                again: false,
            },
        ),
        Asked::Begin(
            RequestParts {
                client: 1,
                number: 2,
                program: 2,
                args: &[8],
            },
            AnswerParts::Begun {
                origin: 1,
                index: 0,
                time: 2,
                results: &[],
                again: false,
            },
        ),
        Asked::Begin(
            PUT,
            AnswerParts::Begun {
                origin: 0,
                index: 0,
                time: 1,
                results: &[],
                again: true,
            },
        ),
        Asked::Begin(RequestParts { args: &[9], ..PUT }, AnswerParts::Clash),
        Asked::Find {
            chain: (0, 0),
            hop: 0,
            time: 1,
            results: &[],
        },
        Asked::Miss {
            chain: (0, 1),
            hop: 0,
        },
        // A hop that the program hasn't, and servers that the set hasn't.
        Asked::Miss {
            chain: (0, 0),
            hop: 1,
        },
        Asked::Miss {
            chain: (2, 0),
            hop: 0,
        },
    ],
    order: &[(0, 0), (1, 0)],
};

/// The first trip begins.
pub const FIRST_TRIP: Asked = Asked::Begin(
    RequestParts {
        client: 1,
        number: 1,
        program: 0,
        args: &[],
    },
    AnswerParts::Begun {
        origin: 0,
        index: 0,
        time: 1,
        results: &[],
        again: false,
    },
);

/// It is back at its origin.
pub const FIRST_IS_BACK: Asked = Asked::Find {
    chain: (0, 0),
    hop: 2,
    time: 3,
    results: &[],
};

/// What the second trip asks.
pub const SECOND: RequestParts = RequestParts {
    client: 1,
    number: 2,
    program: 0,
    args: &[],
};

/// The second trip begins.
pub const SECOND_TRIP: Asked = Asked::Begin(
    SECOND,
    AnswerParts::Begun {
        origin: 0,
        index: 1,
        time: 4,
        results: &[],
        again: false,
    },
);

/// A trip, and when it came back the next.
pub const TRIPS: Row = Row {
    set: TRIP,
    asked: &[FIRST_TRIP, FIRST_IS_BACK, SECOND_TRIP],
    order: &[(0, 0), (0, 1)],
};

/// Whether a session over these keepers is told all rightly, and the cluster closes with that
/// order.
fn is_met<
    R: Threads + Wait + Clock + Copy + Send + Sync + 'static,
    K: BatchKeeper + Send + Drop + 'static,
>(rt: R, alloc: Global, row: Row, keepers: Vec<K>) -> Result<bool, Trouble> {
    let set = set_of(alloc, row.set)?;
    let cluster = Cluster::start(rt, alloc, &set, keepers, OpenGate)?;
    let (sessions, is_right) = talked(&rt, alloc, cluster.frontend(), row.asked);
    let closed = cluster.close(&rt, alloc, sessions)?;
    Ok(is_right && is_explained(alloc, &closed.world, row.order)?)
}

#[test]
fn sessions_over_memory_are_told_what_they_should(rt: HostRuntime) -> Result<(), Fail> {
    for row in [PUTTING, TRIPS] {
        let keepers = empty(rt.alloc(), 2)?;
        assert!(rt; is_met(rt, rt.alloc(), row, keepers) == Ok(true));
    }
    Ok(())
}
