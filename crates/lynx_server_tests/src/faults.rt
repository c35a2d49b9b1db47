//! Servers whose keeper answers one commit by a fault.
use crate::cases::{Case, Row, lives};
use crate::payments::NEXT;
use crate::steps::Call;
use lynx_fixtures::parts::{AnswerParts, DeliveredParts};
use lynx_fixtures::payments::{
    DONE_AT_FOUR, DONE_AT_THREE, PAY, PAY_BEGUN, PAY_BEGUN_AGAIN, REPEATED_AT_THREE, SEED,
    SEED_BEGUN, SENT,
};
use lynx_fixtures::texts::PAYMENT;
use lynx_keep::Planned;

/// The same request begins with the index and the stamp that it would have had.
const BEGUN_WITHOUT_MEMORY: &[Row] = &[
    (Call::Begin(SEED, 0, SEED_BEGUN), 1, 0),
    (Call::Begin(PAY, 0, AnswerParts::Memory), 1, 0),
    (Call::Begin(PAY, 0, PAY_BEGUN), 2, 0),
];

/// After the failed commit all is answered so, also a request that is recorded, and nothing is
/// added.
const STOPPED_BY_A_BEGIN: &[Row] = &[
    (Call::Begin(SEED, 0, SEED_BEGUN), 1, 0),
    (Call::Begin(PAY, 0, AnswerParts::Stopped), 1, 0),
    (Call::Begin(PAY, 0, AnswerParts::Stopped), 1, 0),
    (Call::Begin(SEED, 0, AnswerParts::Stopped), 1, 0),
    (Call::Deliver(SENT, DeliveredParts::Stopped), 1, 0),
    (Call::Idle, 1, 0),
];

/// The restarted server begins the payment where nothing of it was kept.
const BEGUN_THEN: &[Row] = &[(Call::Begin(PAY, 0, PAY_BEGUN), 2, 0)];

/// It answers from the record where the whole entry was kept.
const RECORDED_THEN: &[Row] = &[(Call::Begin(PAY, 0, PAY_BEGUN_AGAIN), 2, 0)];

const DELIVERED_WITHOUT_MEMORY: &[Row] = &[
    (Call::Deliver(SENT, DeliveredParts::Memory), 0, 0),
    (Call::Deliver(SENT, DONE_AT_THREE), 1, 0),
];

const STOPPED_BY_A_DELIVERY: &[Row] = &[
    (Call::Deliver(SENT, DeliveredParts::Stopped), 0, 0),
    (Call::Deliver(SENT, DeliveredParts::Stopped), 0, 0),
    (Call::Deliver(NEXT, DeliveredParts::Stopped), 0, 0),
    (Call::Begin(SEED, 0, AnswerParts::Stopped), 0, 0),
];

const DONE_THEN: &[Row] = &[(Call::Deliver(SENT, DONE_AT_THREE), 1, 0)];

const REPEATED_THEN: &[Row] = &[(Call::Deliver(SENT, REPEATED_AT_THREE), 1, 0)];

/// The message whose delivery failed stays held.
const STOPPED_BY_A_WAKING: &[Row] = &[
    (Call::Deliver(NEXT, DeliveredParts::Held), 0, 1),
    (Call::Deliver(SENT, DONE_AT_THREE), 1, 1),
    (Call::Wake(2, 1, DeliveredParts::Stopped), 1, 1),
    (Call::Wake(2, 1, DeliveredParts::Stopped), 1, 1),
    (Call::Deliver(SENT, DeliveredParts::Stopped), 1, 1),
];

const NEXT_DONE_THEN: &[Row] = &[
    (Call::Idle, 1, 0),
    (Call::Deliver(NEXT, DONE_AT_FOUR), 2, 0),
];

const NEXT_REPEATED_THEN: &[Row] = &[
    (Call::Idle, 2, 0),
    (
        Call::Deliver(
            NEXT,
            DeliveredParts::Repeat {
                time: 4,
                results: &[],
                next: None,
            },
        ),
        2,
        0,
    ),
];

const CASES: &[Case] = &[
    Case {
        name: "want of memory in a begin",
        set: PAYMENT,
        server: 0,
        fails: (1, Planned::Memory),
        lives: &[BEGUN_WITHOUT_MEMORY],
    },
    Case {
        name: "a begin that isn't kept",
        set: PAYMENT,
        server: 0,
        fails: (1, Planned::FailsBefore),
        lives: &[STOPPED_BY_A_BEGIN, BEGUN_THEN],
    },
    Case {
        name: "a begin that is kept",
        set: PAYMENT,
        server: 0,
        fails: (1, Planned::FailsAfter),
        lives: &[STOPPED_BY_A_BEGIN, RECORDED_THEN],
    },
    Case {
        name: "want of memory in a delivery",
        set: PAYMENT,
        server: 1,
        fails: (0, Planned::Memory),
        lives: &[DELIVERED_WITHOUT_MEMORY],
    },
    Case {
        name: "a delivery that isn't kept",
        set: PAYMENT,
        server: 1,
        fails: (0, Planned::FailsBefore),
        lives: &[STOPPED_BY_A_DELIVERY, DONE_THEN],
    },
    Case {
        name: "a delivery that is kept",
        set: PAYMENT,
        server: 1,
        fails: (0, Planned::FailsAfter),
        lives: &[STOPPED_BY_A_DELIVERY, REPEATED_THEN],
    },
    Case {
        name: "a waking that isn't kept",
        set: PAYMENT,
        server: 1,
        fails: (1, Planned::FailsBefore),
        lives: &[STOPPED_BY_A_WAKING, NEXT_DONE_THEN],
    },
    Case {
        name: "a waking that is kept",
        set: PAYMENT,
        server: 1,
        fails: (1, Planned::FailsAfter),
        lives: &[STOPPED_BY_A_WAKING, NEXT_REPEATED_THEN],
    },
];

#[test]
fn servers_with_faults(rt: HostRuntime) {
    for case in CASES {
        let name = case.name;
        assert!(rt; lives(rt.alloc(), case) == Ok(case.lives.len()), "{name}");
    }
}
