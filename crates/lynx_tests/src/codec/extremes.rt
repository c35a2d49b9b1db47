//! Each kind of item with its least fields, and with its greatest.
use crate::codec::bytes::runs;
use crate::codec::feeding::is_encoding;
use crate::codec::items::ItemParts;
use lynx_codec::DecodeFault;
use lynx_fixtures::parts::{
    AnswerParts, BegunParts, EntryParts, HopParts, MessageParts, RefusedParts, RequestParts,
};
use std::alloc::Global;

const MOST: u64 = 0xffff_ffff_ffff_ffff;

const LAST: u64 = 0x3fff_ffff_ffff_ffff;

const ARGS: &[u64] = &[MOST; 8];

const RESULTS: &[u64] = &[MOST; 16];

/// The last eight servers, each with the greatest number.
const NUMBERS: &[(u8, u64)] = &[
    (8, MOST),
    (9, MOST),
    (10, MOST),
    (11, MOST),
    (12, MOST),
    (13, MOST),
    (14, MOST),
    (15, MOST),
];

const LEAST_REQUEST: RequestParts = RequestParts {
    client: 0,
    number: 0,
    program: 0,
    args: &[],
};

const GREATEST_REQUEST: RequestParts = RequestParts {
    client: MOST,
    number: MOST,
    program: 63,
    args: ARGS,
};

const LEAST_MESSAGE: MessageParts = MessageParts {
    origin: 0,
    index: 0,
    program: 0,
    hop: 0,
    time: 0,
    args: &[],
    numbers: &[(0, 0)],
    results: &[],
};

const GREATEST_MESSAGE: MessageParts = MessageParts {
    origin: 15,
    index: MOST,
    program: 63,
    hop: 255,
    time: LAST,
    args: ARGS,
    numbers: NUMBERS,
    results: &[RESULTS; 8],
};

/// So many of each byte.
type Runs = &'static [(u16, u8)];

/// The fields of a request, each the greatest that it can be.
const REQUEST: Runs = &[(16, 255), (1, 63), (1, 8), (64, 255)];

const CHAIN: Runs = &[(1, 15), (8, 255)];

const STAMP: Runs = &[(1, 0x3f), (7, 255)];

const RESULTS_RUNS: Runs = &[(1, 16), (128, 255)];

const NUMBERS_RUNS: Runs = &[
    (1, 8),
    (1, 8),
    (8, 255),
    (1, 9),
    (8, 255),
    (1, 10),
    (8, 255),
    (1, 11),
    (8, 255),
    (1, 12),
    (8, 255),
    (1, 13),
    (8, 255),
    (1, 14),
    (8, 255),
    (1, 15),
    (8, 255),
];

const EIGHT: Runs = &[(1, 8)];

/// What a message has between its chain and its arguments, with the arguments.
const HEAD: Runs = &[(1, 63), (1, 255), (1, 0x3f), (7, 255), (1, 8), (64, 255)];

/// Runs of bytes, one behind the other, and the item whose encoding they are.
const ENCODINGS: &[(&[Runs], ItemParts)] = &[
    (
        &[&[(1, 1), (3, 0), (1, 18), (18, 0)]],
        ItemParts::Request(LEAST_REQUEST),
    ),
    (
        &[&[(1, 1), (3, 0), (1, 82)], REQUEST],
        ItemParts::Request(GREATEST_REQUEST),
    ),
    (
        &[&[(1, 2), (3, 0), (1, 10), (1, 15), (9, 255)]],
        ItemParts::Look {
            origin: 15,
            index: MOST,
            hop: 255,
        },
    ),
    (
        &[&[(1, 0x11), (3, 0), (1, 20), (20, 0)]],
        ItemParts::Answer(AnswerParts::Begun {
            origin: 0,
            index: 0,
            time: 0,
            results: &[],
            again: false,
        }),
    ),
    (
        &[
            &[(1, 0x11), (3, 0), (1, 148), (1, 0)],
            CHAIN,
            STAMP,
            &[(1, 1)],
            RESULTS_RUNS,
        ],
        ItemParts::Answer(AnswerParts::Begun {
            origin: 15,
            index: MOST,
            time: LAST,
            results: RESULTS,
            again: true,
        }),
    ),
    (
        &[&[(1, 0x11), (3, 0), (1, 11), (1, 8), (10, 0)]],
        ItemParts::Answer(AnswerParts::Refused {
            need: 0,
            time: 0,
            again: false,
        }),
    ),
    (
        &[&[(1, 0x12), (3, 0), (1, 10), (1, 1), (9, 0)]],
        ItemParts::Found {
            time: 0,
            results: &[],
        },
    ),
    (
        &[&[(1, 0x12), (3, 0), (1, 138), (1, 1)], STAMP, RESULTS_RUNS],
        ItemParts::Found {
            time: LAST,
            results: RESULTS,
        },
    ),
    (
        &[&[(1, 0x21), (3, 0), (1, 31), (20, 0), (1, 1), (10, 0)]],
        ItemParts::Message(LEAST_MESSAGE),
    ),
    (
        &[
            &[(1, 0x21), (2, 0), (1, 0x04), (1, 0xa6)],
            CHAIN,
            HEAD,
            NUMBERS_RUNS,
            EIGHT,
            RESULTS_RUNS,
            RESULTS_RUNS,
            RESULTS_RUNS,
            RESULTS_RUNS,
            RESULTS_RUNS,
            RESULTS_RUNS,
            RESULTS_RUNS,
            RESULTS_RUNS,
        ],
        ItemParts::Message(GREATEST_MESSAGE),
    ),
    (
        &[&[(1, 0x22), (3, 0), (1, 54), (35, 0), (1, 1), (18, 0)]],
        ItemParts::Entry(EntryParts::Begun(BegunParts {
            request: LEAST_REQUEST,
            seen: 0,
            origin: 0,
            index: 0,
            numbers: &[(0, 0)],
            time: 0,
            results: &[],
        })),
    ),
    (
        &[
            &[(1, 0x22), (2, 0), (1, 0x01), (1, 0x35)],
            REQUEST,
            STAMP,
            CHAIN,
            NUMBERS_RUNS,
            STAMP,
            RESULTS_RUNS,
        ],
        ItemParts::Entry(EntryParts::Begun(BegunParts {
            request: GREATEST_REQUEST,
            seen: LAST,
            origin: 15,
            index: MOST,
            numbers: NUMBERS,
            time: LAST,
            results: RESULTS,
        })),
    ),
    (
        &[&[(1, 0x23), (3, 0), (1, 35), (35, 0)]],
        ItemParts::Entry(EntryParts::Refused(RefusedParts {
            request: LEAST_REQUEST,
            seen: 0,
            need: 0,
            time: 0,
        })),
    ),
    (
        &[
            &[(1, 0x23), (3, 0), (1, 99)],
            REQUEST,
            STAMP,
            &[(1, 15)],
            STAMP,
        ],
        ItemParts::Entry(EntryParts::Refused(RefusedParts {
            request: GREATEST_REQUEST,
            seen: LAST,
            need: 15,
            time: LAST,
        })),
    ),
    (
        &[&[(1, 0x24), (3, 0), (1, 40), (20, 0), (1, 1), (19, 0)]],
        ItemParts::Entry(EntryParts::Hop(HopParts {
            message: LEAST_MESSAGE,
            time: 0,
            results: &[],
        })),
    ),
    (
        &[
            &[(1, 0x24), (2, 0), (1, 0x05), (1, 0x2f)],
            CHAIN,
            HEAD,
            NUMBERS_RUNS,
            EIGHT,
            RESULTS_RUNS,
            RESULTS_RUNS,
            RESULTS_RUNS,
            RESULTS_RUNS,
            RESULTS_RUNS,
            RESULTS_RUNS,
            RESULTS_RUNS,
            RESULTS_RUNS,
            STAMP,
            RESULTS_RUNS,
        ],
        ItemParts::Entry(EntryParts::Hop(HopParts {
            message: GREATEST_MESSAGE,
            time: LAST,
            results: RESULTS,
        })),
    ),
];

/// Whether these runs are the encoding of the item.
fn is_joined(alloc: Global, parts: &[Runs], item: ItemParts) -> Result<bool, DecodeFault> {
    let encoding = runs(alloc, parts)?;
    is_encoding(alloc, encoding.as_slice(), item)
}

#[test]
fn least_and_greatest_fields(rt: HostRuntime) {
    for (place, &(parts, item)) in ENCODINGS.iter().enumerate() {
        assert!(rt;
            is_joined(rt.alloc(), parts, item) == Ok(true),
            "form {place}"
        );
    }
}
