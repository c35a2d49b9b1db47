//! What sessions were told, judged by the histories of a payment and of a refusal.
use crate::told::ToldParts;
use crate::weaving::{Case, Woven, comes_out};
use lynx_fixtures::parts::{AnswerParts, EntryParts, RefusedParts, RequestParts};
use lynx_fixtures::payments::{
    AT_FIRST, AT_SECOND, PAY, PAY_BEGUN, PAY_BEGUN_AGAIN, SEED, SEED_BEGUN, SEEDED,
};
use lynx_fixtures::texts::PAYMENT;

pub const TOLD_SEED: ToldParts = ToldParts::Answered(SEED, SEED_BEGUN);

pub const TOLD_PAID: ToldParts = ToldParts::Answered(PAY, PAY_BEGUN);

/// The same from the record.
const TOLD_AGAIN: ToldParts = ToldParts::Answered(PAY, PAY_BEGUN_AGAIN);

/// The payment as a chain that didn't begin.
const TOLD_AS_ANOTHER: ToldParts = ToldParts::Answered(
    PAY,
    AnswerParts::Begun {
        origin: 0,
        index: 7,
        time: 2,
        results: &[100],
        again: false,
    },
);

/// The payment with other results.
const TOLD_OTHERWISE: ToldParts = ToldParts::Answered(
    PAY,
    AnswerParts::Begun {
        origin: 0,
        index: 1,
        time: 2,
        results: &[99],
        again: true,
    },
);

/// Another seed under the number of the first one clashed; and that very seed.
const CLASHED: ToldParts = ToldParts::Answered(
    RequestParts {
        args: &[99],
        ..SEED
    },
    AnswerParts::Clash,
);

const CLASHED_WITH_ITSELF: ToldParts = ToldParts::Answered(SEED, AnswerParts::Clash);

/// A third request.
const THIRD: RequestParts = RequestParts {
    number: 3,
    args: &[1],
    ..SEED
};

/// The first hop of the payment, and the second.
const LEFT: ToldParts = ToldParts::Seen {
    server: 0,
    index: 1,
    hop: 0,
    time: 2,
    results: &[100],
};

const ARRIVED: ToldParts = ToldParts::Seen {
    server: 1,
    index: 1,
    hop: 1,
    time: 3,
    results: &[],
};

const ARRIVED_LATER: ToldParts = ToldParts::Seen {
    server: 1,
    index: 1,
    hop: 1,
    time: 4,
    results: &[],
};

/// A second hop of the seed.
const SEED_ARRIVED: ToldParts = ToldParts::Seen {
    server: 1,
    index: 0,
    hop: 1,
    time: 2,
    results: &[],
};

/// A payment of more than there is.
const TOO_MUCH: RequestParts = RequestParts {
    args: &[101],
    ..PAY
};

const REFUSING: &[EntryParts] = &[
    EntryParts::Begun(SEEDED),
    EntryParts::Refused(RefusedParts {
        request: TOO_MUCH,
        seen: 0,
        need: 0,
        time: 2,
    }),
];

/// It was refused by its need, and by another one.
const REFUSED: ToldParts = ToldParts::Answered(
    TOO_MUCH,
    AnswerParts::Refused {
        need: 0,
        time: 2,
        again: false,
    },
);

const REFUSED_BY_ANOTHER: ToldParts = ToldParts::Answered(
    TOO_MUCH,
    AnswerParts::Refused {
        need: 1,
        time: 2,
        again: false,
    },
);

/// All that two sessions were told stands.
const STANDS: Case = Case {
    name: "answers and looks",
    set: PAYMENT,
    first: AT_FIRST,
    second: AT_SECOND,
    told: &[
        &[TOLD_SEED, TOLD_PAID, ARRIVED, LEFT],
        &[TOLD_AGAIN, CLASHED],
    ],
    want: Woven::World(&[(0, 1), (0, 2), (1, 3)]),
};

/// The first thing that a session was told doesn't stand.
const FALLS: Case = Case {
    want: Woven::Told(0, 0),
    ..STANDS
};

const CASES: &[Case] = &[
    STANDS,
    Case {
        name: "a recorded answer may come late",
        told: &[&[ARRIVED, TOLD_AGAIN]],
        ..STANDS
    },
    Case {
        name: "a refusal",
        first: REFUSING,
        second: &[],
        told: &[&[TOLD_SEED, REFUSED]],
        want: Woven::World(&[(0, 1), (0, 2)]),
        ..STANDS
    },
    Case {
        name: "a refusal by another need",
        first: REFUSING,
        second: &[],
        told: &[&[REFUSED_BY_ANOTHER]],
        ..FALLS
    },
    Case {
        name: "a chain that didn't begin",
        told: &[&[TOLD_AS_ANOTHER]],
        ..FALLS
    },
    Case {
        name: "other results",
        told: &[&[TOLD_OTHERWISE]],
        ..FALLS
    },
    Case {
        name: "a look of another stamp",
        told: &[&[ARRIVED_LATER]],
        ..FALLS
    },
    Case {
        name: "a look at a hop that didn't run",
        told: &[&[SEED_ARRIVED]],
        ..FALLS
    },
    Case {
        name: "a clash of the same request",
        told: &[&[CLASHED_WITH_ITSELF]],
        ..FALLS
    },
    Case {
        name: "full where there is room",
        told: &[&[ToldParts::Answered(THIRD, AnswerParts::Full)]],
        ..FALLS
    },
    Case {
        name: "busy",
        told: &[&[ToldParts::Answered(THIRD, AnswerParts::Busy)]],
        ..FALLS
    },
    Case {
        name: "a fresh answer below what was told",
        told: &[&[ARRIVED, TOLD_PAID]],
        want: Woven::Told(0, 1),
        ..STANDS
    },
    Case {
        name: "one entry as fresh to two sessions",
        told: &[&[TOLD_PAID], &[TOLD_PAID]],
        want: Woven::Told(1, 0),
        ..STANDS
    },
    Case {
        name: "one entry as fresh twice",
        told: &[&[TOLD_PAID, TOLD_PAID]],
        want: Woven::Told(0, 1),
        ..STANDS
    },
];

#[test]
fn sessions_are_judged(rt: HostRuntime) {
    for case in CASES {
        let name = case.name;
        assert!(rt; comes_out(rt.alloc(), case), "{name}");
    }
}
