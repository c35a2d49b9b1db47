//! Messages that may not run: those that nobody can have sent, those out of turn, and those past
//! the last stamp.
use crate::cases::{Case, NEVER, Row, come_out, made};
use crate::steps::Call;
use lynx_entry::Delivered;
use lynx_fixtures::made::message;
use lynx_fixtures::parts::{AnswerParts, DeliveredParts, MessageParts, RequestParts};
use lynx_fixtures::payments::DONE_AT_THREE;
use lynx_keep::FaultKeeper;
use lynx_names::Memory;
use lynx_names::limits::STAMP_LIMIT;
use lynx_server::Server;
use std::alloc::Global;

/// Its programs move an amount from the first server to a cell of the second, and come back; the
/// second program then goes there once more.
const MOVE: &str =
    "lynx 1\nservers 2\ntable acct\nshard 0 999 0\nshard 1000 18446744073709551615 1\nprogram move to n\nhop 0\nget x acct 0\nsub acct 0 n\nhop 1\nadd acct to n\nhop 0\nadd acct 1 1\nend\nprogram round to n\nhop 0\nget x acct 0\nsub acct 0 n\nhop 1\nadd acct to n\nhop 0\nadd acct 1 1\nhop 1\nadd acct to 1\nend\n";

/// What the first move sends to server 1: it read 0, and adds 30 to the cell 1000.
const THERE: MessageParts = MessageParts {
    origin: 0,
    index: 0,
    program: 0,
    hop: 1,
    time: 1,
    args: &[1000, 30],
    numbers: &[(0, 0), (1, 0)],
    results: &[&[0]],
};

/// What it sends back to server 0.
const BACK: MessageParts = MessageParts {
    hop: 2,
    time: 2,
    results: &[&[0], &[]],
    ..THERE
};

/// What a round sends there, where it still comes once more, and what it sends back.
const ROUND: MessageParts = MessageParts {
    program: 1,
    ..THERE
};

const ROUND_BACK: MessageParts = MessageParts { program: 1, ..BACK };

/// What the next move sends to server 1, and what comes of it there.
const NEXT: MessageParts = MessageParts {
    index: 1,
    numbers: &[(0, 1), (1, 1)],
    ..THERE
};

const NEXT_BACK: MessageParts = MessageParts {
    time: 3,
    hop: 2,
    results: &[&[0], &[]],
    ..NEXT
};

/// The hop ran, and sends that message.
const DONE: DeliveredParts = DeliveredParts::Done {
    time: 2,
    results: &[],
    next: Some(BACK),
};

const ROUND_DONE: DeliveredParts = DeliveredParts::Done {
    time: 2,
    results: &[],
    next: Some(ROUND_BACK),
};

const NEXT_DONE: DeliveredParts = DeliveredParts::Done {
    time: 3,
    results: &[],
    next: Some(NEXT_BACK),
};

const ROUND_REPEATED: DeliveredParts = DeliveredParts::Repeat {
    time: 2,
    results: &[],
    next: Some(ROUND_BACK),
};

/// The request of the first move, which read 0.
const ASKED: RequestParts = RequestParts {
    client: 1,
    number: 1,
    program: 0,
    args: &[1000, 30],
};

const BEGUN: AnswerParts = AnswerParts::Begun {
    origin: 0,
    index: 0,
    time: 1,
    results: &[0],
    again: false,
};

/// Messages of the next move with a number whose turn is over, and of one after it, whose turn is
/// later.
const TURN_OVER: MessageParts = MessageParts {
    numbers: &[(0, 1), (1, 0)],
    ..NEXT
};

const LATER: MessageParts = MessageParts {
    index: 2,
    numbers: &[(0, 2), (1, 2)],
    ..NEXT
};

/// A message of the last stamp but one, whose hop has the last stamp, and what it sends back.
const LATE: MessageParts = MessageParts {
    time: STAMP_LIMIT - 2,
    ..THERE
};

const LATE_BACK: MessageParts = MessageParts {
    time: STAMP_LIMIT - 1,
    ..BACK
};

const LATE_DONE: DeliveredParts = DeliveredParts::Done {
    time: STAMP_LIMIT - 1,
    results: &[],
    next: Some(LATE_BACK),
};

const LATE_REPEATED: DeliveredParts = DeliveredParts::Repeat {
    time: STAMP_LIMIT - 1,
    results: &[],
    next: Some(LATE_BACK),
};

/// A message of the last stamp, above which there is none.
const TOO_LATE: MessageParts = MessageParts {
    time: STAMP_LIMIT - 1,
    ..THERE
};

/// Which part of a message is another one; a hop comes with the results before it.
#[derive(Clone, Copy)]
enum Change {
    Origin(u8),
    Index(u64),
    Program(u8),
    Hop(u8, &'static [&'static [u64]]),
    Time(u64),
    Args(&'static [u64]),
    Numbers(&'static [(u8, u64)]),
    Results(&'static [&'static [u64]]),
}

fn changed(parts: MessageParts, change: Change) -> MessageParts {
    let mut parts = parts;
    match change {
        Change::Origin(origin) => parts.origin = origin,
        Change::Index(index) => parts.index = index,
        Change::Program(program) => parts.program = program,
        Change::Hop(hop, results) => {
            parts.hop = hop;
            parts.results = results;
        }
        Change::Time(time) => parts.time = time,
        Change::Args(args) => parts.args = args,
        Change::Numbers(numbers) => parts.numbers = numbers,
        Change::Results(results) => parts.results = results,
    }
    parts
}

/// A server, and a message each of whose changes is malformed there, and changes nothing.
#[derive(Clone, Copy)]
struct Forged {
    name: &'static str,
    server: u8,
    before: &'static [Row],
    message: MessageParts,
    changes: &'static [Change],
    after: &'static [Row],
}

/// Messages to server 1, where nothing happened yet: no such program; a hop of server 0, and one
/// past the last; other origins; arguments too few and too many; a key of server 0; servers too
/// few, too many and another one; results of hops too few and too many, and of one hop.
const NOBODY_SENT: Forged = Forged {
    name: "messages that nobody sent",
    server: 1,
    before: &[],
    message: THERE,
    changes: &[
        Change::Program(2),
        Change::Hop(2, &[&[0], &[]]),
        Change::Hop(3, &[&[0], &[], &[]]),
        Change::Origin(1),
        Change::Origin(2),
        Change::Args(&[1000]),
        Change::Args(&[1000, 30, 0]),
        Change::Args(&[999, 30]),
        Change::Numbers(&[(1, 0)]),
        Change::Numbers(&[(0, 0), (1, 0), (2, 0)]),
        Change::Numbers(&[(1, 0), (2, 0)]),
        Change::Results(&[]),
        Change::Results(&[&[0], &[]]),
        Change::Results(&[&[]]),
        Change::Results(&[&[0, 0]]),
    ],
    after: &[(Call::Deliver(THERE, DONE), 1, 0)],
};

/// Messages to server 0, where the first move begins: for its first hop, which no message is for,
/// and of another chain, program, argument and number.
const BEGUN_OTHERWISE: Forged = Forged {
    name: "chains that began otherwise",
    server: 0,
    before: &[
        (Call::Deliver(BACK, DeliveredParts::Malformed), 0, 0),
        (Call::Begin(ASKED, 0, BEGUN), 1, 0),
    ],
    message: BACK,
    changes: &[
        Change::Hop(0, &[]),
        Change::Index(1),
        Change::Program(1),
        Change::Args(&[1000, 31]),
        Change::Numbers(&[(0, 0), (1, 1)]),
    ],
    after: &[(Call::Deliver(BACK, DONE_AT_THREE), 2, 0)],
};

/// A hop runs once, on one message. A round keeps its turn, so the turn forbids none of the others;
/// nor is it the turn of the next move.
const RAN_BEFORE: Forged = Forged {
    name: "a hop that ran before",
    server: 1,
    before: &[
        (Call::Deliver(ROUND, ROUND_DONE), 1, 0),
        (Call::Deliver(ROUND, ROUND_REPEATED), 1, 0),
    ],
    message: ROUND,
    changes: &[
        Change::Time(2),
        Change::Args(&[1000, 31]),
        Change::Numbers(&[(0, 1), (1, 0)]),
        Change::Results(&[&[1]]),
    ],
    after: &[
        (Call::Deliver(NEXT, DeliveredParts::Held), 1, 1),
        (Call::Idle, 1, 1),
    ],
};

/// The next move waits for its turn. One whose turn is over is malformed, and one whose turn is
/// later waits.
const TURNS: Forged = Forged {
    name: "turns",
    server: 1,
    before: &[
        (Call::Deliver(NEXT, DeliveredParts::Held), 0, 1),
        (Call::Idle, 0, 1),
        (Call::Deliver(THERE, DONE), 1, 1),
    ],
    message: NEXT,
    changes: &[Change::Numbers(&[(0, 1), (1, 0)])],
    after: &[
        (Call::Deliver(LATER, DeliveredParts::Held), 1, 2),
        (Call::Wake(1, 1, NEXT_DONE), 2, 1),
    ],
};

/// A hop has no stamp left above its message's, or above that of the server's last entry; but a
/// message is judged before its stamp is.
const LAST_STAMPS: Forged = Forged {
    name: "the last stamps",
    server: 1,
    before: &[(Call::Deliver(TOO_LATE, DeliveredParts::Full), 0, 0)],
    message: TOO_LATE,
    changes: &[Change::Program(2)],
    after: &[
        (Call::Deliver(NEXT, DeliveredParts::Held), 0, 1),
        (Call::Deliver(LATE, LATE_DONE), 1, 1),
        (Call::Deliver(LATE, LATE_REPEATED), 1, 1),
        (Call::Wake(1, 1, DeliveredParts::Full), 1, 1),
        (Call::Deliver(NEXT, DeliveredParts::Full), 1, 1),
        (Call::Deliver(TURN_OVER, DeliveredParts::Malformed), 1, 1),
        (Call::Deliver(LATER, DeliveredParts::Held), 1, 2),
    ],
};

/// Whether each change of the message is malformed, and changes nothing.
fn are_malformed(
    alloc: Global,
    server: &mut Server<FaultKeeper>,
    forged: &Forged,
) -> Result<bool, Memory> {
    let (entries, held) = (server.history().len(), server.held().len());
    for change in forged.changes {
        let message = message(alloc, changed(forged.message, *change))?;
        if server.deliver(alloc, message) != Delivered::Malformed {
            return Ok(false);
        }
    }
    Ok(server.history().len() == entries && server.held().len() == held)
}

/// Whether all comes out as it says.
fn is_turned_away(alloc: Global, forged: &Forged) -> Result<bool, Memory> {
    let case = Case {
        name: forged.name,
        set: MOVE,
        server: forged.server,
        fails: NEVER,
        lives: &[],
    };
    let mut server = made(alloc, &case)?;
    Ok(
        come_out(alloc, &mut server, forged.before)?
            && are_malformed(alloc, &mut server, forged)?
            && come_out(alloc, &mut server, forged.after)?,
    )
}

const FORGED: &[Forged] = &[NOBODY_SENT, BEGUN_OTHERWISE, RAN_BEFORE, TURNS, LAST_STAMPS];

#[test]
fn messages_that_may_not_run(rt: HostRuntime) {
    for forged in FORGED {
        let name = forged.name;
        assert!(rt; is_turned_away(rt.alloc(), forged) == Ok(true), "{name}");
    }
}
