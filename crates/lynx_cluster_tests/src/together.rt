//! Begins that are asked together, with and without a store that fails.
use crate::keepers::failing;
use crate::talk::hand_in;
use crate::texts::PUTS;
use crate::trouble::Trouble;
use lynx_cluster::{CloseFault, Cluster, Frontend, Gate, OpenGate, Opened, Pace, Session};
use lynx_fixtures::made::{answer, request};
use lynx_fixtures::parts::{AnswerParts, RequestParts};
use lynx_fixtures::texts::set_of;
use lynx_keep::{BatchKeeper, Planned};
use lynx_names::{Memory, ServerId};
use std::alloc::Global;
use std::sync::Wait;
use std::test::Fail;
use std::thread::Threads;
use std::time::Clock;

/// How the first server's store fails: at the commit after so many.
#[derive(Clone, Copy)]
struct Row {
    pace: Pace,
    commits: u64,
    answers: &'static [AnswerParts],
    /// How many entries of the first server are seen then.
    entries: u64,
}

const PUT: RequestParts = RequestParts {
    client: 1,
    number: 1,
    program: 0,
    args: &[7],
};

/// Four at the first server, of which one comes again and one clashes, one at the second server,
/// one of a program that isn't, and two at the first server.
const ASKED: &[RequestParts] = &[
    PUT,
    PUT,
    RequestParts { args: &[9], ..PUT },
    RequestParts {
        number: 2,
        args: &[8],
        ..PUT
    },
    RequestParts {
        number: 3,
        program: 2,
        ..PUT
    },
    RequestParts {
        number: 4,
        program: 9,
        ..PUT
    },
    RequestParts {
        number: 5,
        program: 1,
        args: &[],
        ..PUT
    },
    RequestParts { number: 6, ..PUT },
];

/// The chains of the first server.
const FIRST: AnswerParts = AnswerParts::Begun {
    origin: 0,
    index: 0,
    time: 1,
    results: &[],
    again: false,
};

const FIRST_AGAIN: AnswerParts = AnswerParts::Begun {
    origin: 0,
    index: 0,
    time: 1,
    results: &[],
    again: true,
};

const SECOND: AnswerParts = AnswerParts::Begun {
    origin: 0,
    index: 1,
    time: 2,
    results: &[],
    again: false,
};

const READ: AnswerParts = AnswerParts::Begun {
    origin: 0,
    index: 2,
    time: 4,
    results: &[8],
    again: false,
};

const LAST: AnswerParts = AnswerParts::Begun {
    origin: 0,
    index: 3,
    time: 5,
    results: &[],
    again: false,
};

/// The chain of the other server, behind two, one or none of the first.
const THIRD_AT_OTHER: AnswerParts = AnswerParts::Begun {
    origin: 1,
    index: 0,
    time: 3,
    results: &[],
    again: false,
};

const SECOND_AT_OTHER: AnswerParts = AnswerParts::Begun {
    origin: 1,
    index: 0,
    time: 2,
    results: &[],
    again: false,
};

const FIRST_AT_OTHER: AnswerParts = AnswerParts::Begun {
    origin: 1,
    index: 0,
    time: 1,
    results: &[],
    again: false,
};

/// No store fails.
const ALL: &[AnswerParts] = &[
    FIRST,
    FIRST_AGAIN,
    AnswerParts::Clash,
    SECOND,
    THIRD_AT_OTHER,
    AnswerParts::UnknownProgram,
    READ,
    LAST,
];

/// The first server's store fails in the second settling: of the second run of begins nobody is
/// told.
const SECOND_RUN_FAILS: &[AnswerParts] = &[
    FIRST,
    FIRST_AGAIN,
    AnswerParts::Clash,
    SECOND,
    THIRD_AT_OTHER,
    AnswerParts::Stopped,
    AnswerParts::Stopped,
    AnswerParts::Stopped,
];

/// It fails in the first one.
const FIRST_RUN_FAILS: &[AnswerParts] = &[
    AnswerParts::Stopped,
    AnswerParts::Stopped,
    AnswerParts::Stopped,
    AnswerParts::Stopped,
    FIRST_AT_OTHER,
    AnswerParts::Stopped,
    AnswerParts::Stopped,
    AnswerParts::Stopped,
];

/// Each begin is settled by itself, and the second entry isn't kept.
const SECOND_ENTRY_FAILS: &[AnswerParts] = &[
    FIRST,
    FIRST_AGAIN,
    AnswerParts::Clash,
    AnswerParts::Stopped,
    SECOND_AT_OTHER,
    AnswerParts::Stopped,
    AnswerParts::Stopped,
    AnswerParts::Stopped,
];

const ROWS: &[Row] = &[
    Row {
        pace: Pace::Shared,
        commits: u64::MAX,
        answers: ALL,
        entries: 4,
    },
    Row {
        pace: Pace::Each,
        commits: u64::MAX,
        answers: ALL,
        entries: 4,
    },
    Row {
        pace: Pace::Shared,
        commits: 1,
        answers: SECOND_RUN_FAILS,
        entries: 2,
    },
    Row {
        pace: Pace::Shared,
        commits: 0,
        answers: FIRST_RUN_FAILS,
        entries: 0,
    },
    Row {
        pace: Pace::Each,
        commits: 1,
        answers: SECOND_ENTRY_FAILS,
        entries: 1,
    },
];

/// Whether the session is told so when it asks all together.
fn is_told<R: Wait + Clock, K: BatchKeeper, G: Gate>(
    rt: &R,
    alloc: Global,
    frontend: &Frontend<K, G>,
    session: &mut Session,
    row: Row,
) -> Result<bool, Memory> {
    let mut requests = Vec::new(alloc);
    for asked in ASKED {
        requests.push(request(alloc, *asked)?)?;
    }
    let mut answers = Vec::with_capacity(alloc, requests.len())?;
    frontend.begin_all(rt, alloc, session, requests, &mut answers);
    let mut wanted = Vec::new(alloc);
    for parts in row.answers {
        wanted.push(answer(alloc, *parts)?)?;
    }
    let entries = frontend
        .glance(rt, ServerId::first())
        .map(|glance| glance.entries);
    Ok(answers == wanted && entries == Some(row.entries))
}

/// Whether the session is told what it should, and the cluster closes so.
fn is_met<R: Threads + Wait + Clock + Copy + Send + Sync + 'static>(
    rt: R,
    alloc: Global,
    row: Row,
) -> Result<bool, Trouble> {
    let set = set_of(alloc, PUTS)?;
    let keepers = failing(alloc, 2, 0, row.commits, Planned::FailsBefore)?;
    let opened = Opened::open(alloc, &set, keepers)?;
    let cluster = opened.start(rt, alloc, OpenGate, row.pace)?;
    let mut sessions = Vec::new(alloc);
    let mut is_right = false;
    if let Some(mut session) = cluster.session(&rt, alloc) {
        let told = is_told(&rt, alloc, cluster.frontend(), &mut session, row);
        is_right = told == Ok(true);
        hand_in(&mut sessions, session);
    }
    let stopped = CloseFault::Stopped {
        server: ServerId::first(),
    };
    let wanted = if row.commits == u64::MAX {
        None
    } else {
        Some(stopped)
    };
    let fault = cluster.close(&rt, alloc, sessions).err();
    Ok(is_right && fault == wanted)
}

#[test]
fn begins_that_are_asked_together_are_answered_as_one_by_one(rt: HostRuntime) -> Result<(), Fail> {
    for row in ROWS {
        assert!(rt; is_met(rt, rt.alloc(), *row) == Ok(true));
    }
    Ok(())
}
