//! Histories that weave, and histories that don't, with nothing told.
use crate::weaving::{Case, Woven, comes_out};
use lynx_fixtures::parts::{BegunParts, EntryParts, HopParts, MessageParts, RequestParts};
use lynx_fixtures::payments::{ARRIVED, AT_FIRST, AT_SECOND, PAID, PAY, SEED, SEEDED, SENT};
use lynx_fixtures::texts::{CROSSING, PAYMENT};

/// Payments of 5 in both directions, each behind a seed of 100 at its server.
const PAID_OVER: BegunParts = BegunParts {
    request: RequestParts {
        number: 3,
        program: 0,
        args: &[5],
        ..PAY
    },
    ..PAID
};

const PAID_BACK: BegunParts = BegunParts {
    request: RequestParts {
        number: 4,
        args: &[5],
        ..PAY
    },
    origin: 1,
    numbers: &[(0, 0), (1, 1)],
    ..PAID
};

/// What the payments send.
const OVER: MessageParts = MessageParts {
    program: 0,
    args: &[5],
    ..SENT
};

const BACK: MessageParts = MessageParts {
    origin: 1,
    args: &[5],
    numbers: &[(0, 0), (1, 1)],
    ..SENT
};

const CROSSING_FIRST: &[EntryParts] = &[
    EntryParts::Begun(BegunParts {
        request: RequestParts { program: 2, ..SEED },
        ..SEEDED
    }),
    EntryParts::Begun(PAID_OVER),
    EntryParts::Hop(HopParts {
        message: BACK,
        ..ARRIVED
    }),
];

const CROSSING_SECOND: &[EntryParts] = &[
    EntryParts::Begun(BegunParts {
        request: RequestParts {
            number: 2,
            program: 3,
            ..SEED
        },
        origin: 1,
        numbers: &[(1, 0)],
        ..SEEDED
    }),
    EntryParts::Begun(PAID_BACK),
    EntryParts::Hop(HopParts {
        message: OVER,
        ..ARRIVED
    }),
];

/// The payment's hop on the message with the stamp 9, and with a stamp of its own that fits.
const RESTAMPED: &[EntryParts] = &[EntryParts::Hop(HopParts {
    message: MessageParts { time: 9, ..SENT },
    ..ARRIVED
})];

const BOTH_RESTAMPED: &[EntryParts] = &[EntryParts::Hop(HopParts {
    message: MessageParts { time: 9, ..SENT },
    time: 10,
    ..ARRIVED
})];

/// A payment of 1000 of the first chain of server 0, which didn't begin it.
const FORGED: &[EntryParts] = &[EntryParts::Hop(HopParts {
    message: MessageParts {
        index: 0,
        time: 1,
        args: &[1000],
        numbers: &[(0, 0), (1, 0)],
        results: &[&[1000]],
        ..SENT
    },
    time: 2,
    ..ARRIVED
})];

/// The payment that read another balance.
const ALTERED: &[EntryParts] = &[
    EntryParts::Begun(SEEDED),
    EntryParts::Begun(BegunParts {
        results: &[99],
        ..PAID
    }),
];

const NOTHING_TOLD: Case = Case {
    name: "a payment",
    set: PAYMENT,
    first: AT_FIRST,
    second: AT_SECOND,
    told: &[],
    want: Woven::World(&[(0, 1), (0, 2), (1, 3)]),
};

const CASES: &[Case] = &[
    NOTHING_TOLD,
    Case {
        name: "entries of one stamp stand by server",
        set: CROSSING,
        first: CROSSING_FIRST,
        second: CROSSING_SECOND,
        want: Woven::World(&[(0, 1), (1, 1), (0, 2), (1, 2), (0, 3), (1, 3)]),
        ..NOTHING_TOLD
    },
    Case {
        name: "another stamp in a message",
        second: RESTAMPED,
        want: Woven::Mismatch(1, 0),
        ..NOTHING_TOLD
    },
    Case {
        name: "a later message",
        second: BOTH_RESTAMPED,
        want: Woven::Mismatch(1, 0),
        ..NOTHING_TOLD
    },
    Case {
        name: "a message without its sender",
        first: &[EntryParts::Begun(SEEDED)],
        want: Woven::Mismatch(1, 0),
        ..NOTHING_TOLD
    },
    Case {
        name: "a message that nobody sent",
        first: &[],
        second: FORGED,
        want: Woven::Mismatch(1, 0),
        ..NOTHING_TOLD
    },
    Case {
        name: "other results",
        first: ALTERED,
        want: Woven::Mismatch(0, 1),
        ..NOTHING_TOLD
    },
];

#[test]
fn histories_weave(rt: HostRuntime) {
    for case in CASES {
        let name = case.name;
        assert!(rt; comes_out(rt.alloc(), case), "{name}");
    }
}
