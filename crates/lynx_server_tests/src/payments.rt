//! Payments, trips and the last stamp, as one server sees them.
use crate::cases::{Case, NEVER, Row, lives};
use crate::steps::Call;
use lynx_fixtures::parts::{AnswerParts, DeliveredParts, MessageParts, RequestParts};
use lynx_fixtures::payments::{
    DONE_AT_FOUR, DONE_AT_THREE, PAY, PAY_BEGUN, PAY_BEGUN_AGAIN, REPEATED_AT_THREE, SEED,
    SEED_BEGUN, SENT,
};
use lynx_fixtures::texts::{PAYMENT, PAYMENT_AND_PUT, TRIP};
use lynx_names::limits::STAMP_LIMIT;

/// Another seed under the number of the first one.
const OTHER_SEED: RequestParts = RequestParts {
    args: &[99],
    ..SEED
};

/// A program that there isn't.
const NO_PROGRAM: RequestParts = RequestParts {
    number: 3,
    program: 3,
    ..PAY
};

/// A payment with an argument too many.
const TWO_AMOUNTS: RequestParts = RequestParts {
    number: 3,
    args: &[30, 1],
    ..PAY
};

/// A payment of more than there is.
const TOO_MUCH: RequestParts = RequestParts {
    number: 3,
    args: &[101],
    ..PAY
};

/// What is asked before the server restarts.
const PAYING: &[Row] = &[
    (Call::Begin(SEED, 0, SEED_BEGUN), 1, 0),
    (Call::Begin(PAY, 0, PAY_BEGUN), 2, 0),
    (Call::Begin(PAY, 0, PAY_BEGUN_AGAIN), 2, 0),
    (Call::Begin(OTHER_SEED, 0, AnswerParts::Clash), 2, 0),
    (
        Call::Begin(NO_PROGRAM, 0, AnswerParts::UnknownProgram),
        2,
        0,
    ),
    (Call::Begin(TWO_AMOUNTS, 0, AnswerParts::ArgCount), 2, 0),
    (
        Call::Begin(
            TOO_MUCH,
            0,
            AnswerParts::Refused {
                need: 0,
                time: 3,
                again: false,
            },
        ),
        3,
        0,
    ),
    (
        Call::Begin(
            TOO_MUCH,
            0,
            AnswerParts::Refused {
                need: 0,
                time: 3,
                again: true,
            },
        ),
        3,
        0,
    ),
    (Call::Cell(0, 70), 3, 0),
    (Call::Owes(0, 1, SENT), 3, 0),
    (Call::Owes(1, 1, SENT), 3, 0),
    (Call::OwesNothing(2), 3, 0),
    (Call::OwesNothing(u64::MAX), 3, 0),
    // What no entry here sends can't be acknowledged: a first hop, one after the last, a chain that
    // didn't begin.
    (Call::Acknowledge(1, 0), 3, 0),
    (Call::Acknowledge(1, 2), 3, 0),
    (Call::Acknowledge(7, 1), 3, 0),
    (Call::Owes(0, 1, SENT), 3, 0),
    (Call::Acknowledge(1, 1), 3, 0),
    (Call::OwesNothing(0), 3, 0),
];

/// What it is asked then: acknowledgements are forgotten, and a stamp is above what the session was
/// told.
const PAYING_ON: &[Row] = &[
    (Call::Begin(PAY, 0, PAY_BEGUN_AGAIN), 3, 0),
    (Call::Owes(0, 1, SENT), 3, 0),
    (
        Call::Begin(
            RequestParts {
                number: 4,
                args: &[20],
                ..PAY
            },
            8,
            AnswerParts::Begun {
                origin: 0,
                index: 2,
                time: 9,
                results: &[70],
                again: false,
            },
        ),
        4,
        0,
    ),
    (
        Call::Owes(
            2,
            3,
            MessageParts {
                index: 2,
                time: 9,
                args: &[20],
                numbers: &[(0, 2), (1, 1)],
                results: &[&[70]],
                ..SENT
            },
        ),
        4,
        0,
    ),
    (Call::Cell(0, 50), 4, 0),
];

/// The message of a payment of 20 behind that of 30.
pub const NEXT: MessageParts = MessageParts {
    index: 2,
    time: 3,
    args: &[20],
    numbers: &[(0, 2), (1, 1)],
    results: &[&[70]],
    ..SENT
};

/// The second payment comes first, and waits.
const WAITING: &[Row] = &[
    (Call::Begin(PAY, 0, AnswerParts::WrongOrigin), 0, 0),
    (Call::Deliver(NEXT, DeliveredParts::Held), 0, 1),
    (Call::Idle, 0, 1),
];

/// A restart forgot it. It waits again until the first one came, which comes twice.
const ARRIVING: &[Row] = &[
    (Call::Idle, 0, 0),
    (Call::Deliver(NEXT, DeliveredParts::Held), 0, 1),
    (Call::Deliver(SENT, DONE_AT_THREE), 1, 1),
    (Call::Deliver(SENT, REPEATED_AT_THREE), 1, 1),
    (Call::Wake(2, 1, DONE_AT_FOUR), 2, 0),
    (Call::Idle, 2, 0),
    (Call::Cell(1000, 50), 2, 0),
];

/// A key of server 0, and one of server 1.
const PUTTING: &[Row] = &[
    (
        Call::Begin(
            RequestParts {
                program: 2,
                args: &[1000],
                ..SEED
            },
            0,
            AnswerParts::WrongShard,
        ),
        0,
        0,
    ),
    (
        Call::Begin(
            RequestParts {
                program: 2,
                args: &[999],
                ..SEED
            },
            0,
            SEED_BEGUN,
        ),
        1,
        0,
    ),
];

/// The request of the first trip.
const FIRST_TRIP: RequestParts = RequestParts { args: &[], ..SEED };

const SECOND_TRIP: RequestParts = RequestParts {
    number: 2,
    ..FIRST_TRIP
};

/// What the first trip sends to server 1.
const THERE: MessageParts = MessageParts {
    origin: 0,
    index: 0,
    program: 0,
    hop: 1,
    time: 1,
    args: &[],
    numbers: &[(0, 0), (1, 0)],
    results: &[&[]],
};

/// What it sends back.
const BACK: MessageParts = MessageParts {
    hop: 2,
    time: 2,
    results: &[&[], &[]],
    ..THERE
};

/// No second trip begins until the first one has returned.
const TRIPS: &[Row] = &[
    (Call::Begin(FIRST_TRIP, 0, SEED_BEGUN), 1, 0),
    (Call::Begin(SECOND_TRIP, 0, AnswerParts::Busy), 1, 0),
    (Call::Deliver(BACK, DONE_AT_THREE), 2, 0),
    (
        Call::Begin(
            SECOND_TRIP,
            0,
            AnswerParts::Begun {
                origin: 0,
                index: 1,
                time: 4,
                results: &[],
                again: false,
            },
        ),
        3,
        0,
    ),
];

const TURNING_ROUND: &[Row] = &[
    (
        Call::Deliver(
            THERE,
            DeliveredParts::Done {
                time: 2,
                results: &[],
                next: Some(BACK),
            },
        ),
        1,
        0,
    ),
    (Call::Owes(0, 0, BACK), 1, 0),
];

/// The last stamp is taken; then the server is full, and still answers from the record.
const LAST_STAMP: &[Row] = &[
    (
        Call::Begin(
            SEED,
            STAMP_LIMIT - 2,
            AnswerParts::Begun {
                origin: 0,
                index: 0,
                time: STAMP_LIMIT - 1,
                results: &[],
                again: false,
            },
        ),
        1,
        0,
    ),
    (Call::Begin(PAY, 0, AnswerParts::Full), 1, 0),
    (
        Call::Begin(
            SEED,
            0,
            AnswerParts::Begun {
                origin: 0,
                index: 0,
                time: STAMP_LIMIT - 1,
                results: &[],
                again: true,
            },
        ),
        1,
        0,
    ),
];

const CASES: &[Case] = &[
    Case {
        name: "payments leave",
        set: PAYMENT,
        server: 0,
        fails: NEVER,
        lives: &[PAYING, PAYING_ON],
    },
    Case {
        name: "payments arrive",
        set: PAYMENT,
        server: 1,
        fails: NEVER,
        lives: &[WAITING, ARRIVING],
    },
    Case {
        name: "keys are placed",
        set: PAYMENT_AND_PUT,
        server: 0,
        fails: NEVER,
        lives: &[PUTTING],
    },
    Case {
        name: "trips return",
        set: TRIP,
        server: 0,
        fails: NEVER,
        lives: &[TRIPS],
    },
    Case {
        name: "a trip turns round",
        set: TRIP,
        server: 1,
        fails: NEVER,
        lives: &[TURNING_ROUND],
    },
    Case {
        name: "the last stamp",
        set: PAYMENT,
        server: 0,
        fails: NEVER,
        lives: &[LAST_STAMP],
    },
];

#[test]
fn servers_without_faults(rt: HostRuntime) {
    for case in CASES {
        let name = case.name;
        assert!(rt; lives(rt.alloc(), case) == Ok(case.lives.len()), "{name}");
    }
}
