//! The parts of the payment's run: a seed of 100, and a payment of 30 that leaves server 0 for
//! server 1.
use crate::parts::{
    AnswerParts, BegunParts, DeliveredParts, EntryParts, HopParts, MessageParts, RequestParts,
};

pub const SEED: RequestParts = RequestParts {
    client: 1,
    number: 1,
    program: 0,
    args: &[100],
};

pub const PAY: RequestParts = RequestParts {
    client: 1,
    number: 2,
    program: 1,
    args: &[30],
};

/// The entry of the seed.
pub const SEEDED: BegunParts = BegunParts {
    request: SEED,
    seen: 0,
    origin: 0,
    index: 0,
    numbers: &[(0, 0)],
    time: 1,
    results: &[],
};

/// The entry of the payment, which read 100.
pub const PAID: BegunParts = BegunParts {
    request: PAY,
    seen: 0,
    origin: 0,
    index: 1,
    numbers: &[(0, 1), (1, 0)],
    time: 2,
    results: &[100],
};

/// The message that it sends.
pub const SENT: MessageParts = MessageParts {
    origin: 0,
    index: 1,
    program: 1,
    hop: 1,
    time: 2,
    args: &[30],
    numbers: &[(0, 1), (1, 0)],
    results: &[&[100]],
};

/// The entry of the payment's second hop.
pub const ARRIVED: HopParts = HopParts {
    message: SENT,
    time: 3,
    results: &[],
};

/// What server 0 did.
pub const AT_FIRST: &[EntryParts] = &[EntryParts::Begun(SEEDED), EntryParts::Begun(PAID)];

/// What server 1 did.
pub const AT_SECOND: &[EntryParts] = &[EntryParts::Hop(ARRIVED)];

/// The seed began.
pub const SEED_BEGUN: AnswerParts = AnswerParts::Begun {
    origin: 0,
    index: 0,
    time: 1,
    results: &[],
    again: false,
};

/// The payment began.
pub const PAY_BEGUN: AnswerParts = AnswerParts::Begun {
    origin: 0,
    index: 1,
    time: 2,
    results: &[100],
    again: false,
};

/// The same, from the record.
pub const PAY_BEGUN_AGAIN: AnswerParts = AnswerParts::Begun {
    origin: 0,
    index: 1,
    time: 2,
    results: &[100],
    again: true,
};

/// A last hop without results ran, with that stamp.
pub const DONE_AT_THREE: DeliveredParts = DeliveredParts::Done {
    time: 3,
    results: &[],
    next: None,
};

/// It had run.
pub const REPEATED_AT_THREE: DeliveredParts = DeliveredParts::Repeat {
    time: 3,
    results: &[],
    next: None,
};

pub const DONE_AT_FOUR: DeliveredParts = DeliveredParts::Done {
    time: 4,
    results: &[],
    next: None,
};
