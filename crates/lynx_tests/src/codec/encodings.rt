//! Worked encodings, byte for byte.
use crate::codec::bytes::hex;
use crate::codec::feeding::is_encoding;
use crate::codec::items::ItemParts;
use lynx_codec::DecodeFault;
use lynx_fixtures::parts::{AnswerParts, EntryParts, RefusedParts, RequestParts};
use lynx_fixtures::payments::{ARRIVED, SEED, SEEDED, SENT};
use std::alloc::Global;

/// The answer that chain 0:0 began with the stamp 1.
const BEGUN: ItemParts = ItemParts::Answer(AnswerParts::Begun {
    origin: 0,
    index: 0,
    time: 1,
    results: &[],
    again: false,
});

const BEGUN_AGAIN: ItemParts = ItemParts::Answer(AnswerParts::Begun {
    origin: 0,
    index: 0,
    time: 1,
    results: &[],
    again: true,
});

/// A refusal by the last need, with the last stamp.
const REFUSED: ItemParts = ItemParts::Answer(AnswerParts::Refused {
    need: 15,
    time: 0x3fff_ffff_ffff_ffff,
    again: true,
});

const REFUSED_ENTRY: RefusedParts = RefusedParts {
    request: RequestParts {
        client: 1,
        number: 2,
        program: 63,
        args: &[100],
    },
    seen: 3,
    need: 2,
    time: 4,
};

/// Encodings in hexadecimal, and their items.
pub const ENCODINGS: &[(&str, ItemParts)] = &[
    (
        "01 0000001a 0000000000000001 0000000000000001 00 01 0000000000000064",
        ItemParts::Request(SEED),
    ),
    (
        "02 0000000a 00 0000000000000000 00",
        ItemParts::Look {
            origin: 0,
            index: 0,
            hop: 0,
        },
    ),
    ("03 00000000", ItemParts::Quit),
    ("04 00000000", ItemParts::Shut),
    (
        "11 00000014 00 00 0000000000000000 0000000000000001 00 00",
        BEGUN,
    ),
    (
        "11 00000014 00 00 0000000000000000 0000000000000001 01 00",
        BEGUN_AGAIN,
    ),
    ("11 0000000b 08 0f 3fffffffffffffff 01", REFUSED),
    ("11 00000001 01", ItemParts::Answer(AnswerParts::Clash)),
    (
        "11 00000001 02",
        ItemParts::Answer(AnswerParts::UnknownProgram),
    ),
    (
        "11 00000001 03",
        ItemParts::Answer(AnswerParts::WrongOrigin),
    ),
    ("11 00000001 04", ItemParts::Answer(AnswerParts::ArgCount)),
    ("11 00000001 05", ItemParts::Answer(AnswerParts::WrongShard)),
    ("11 00000001 06", ItemParts::Answer(AnswerParts::Full)),
    ("11 00000001 07", ItemParts::Answer(AnswerParts::Busy)),
    ("11 00000001 09", ItemParts::Answer(AnswerParts::Stopped)),
    ("11 00000001 0a", ItemParts::Answer(AnswerParts::Memory)),
    (
        "11 00000001 0b",
        ItemParts::Answer(AnswerParts::OutsideRange),
    ),
    ("12 00000001 00", ItemParts::Absent),
    (
        "12 0000000a 01 0000000000000001 00",
        ItemParts::Found {
            time: 1,
            results: &[],
        },
    ),
    ("13 00000000", ItemParts::Bye),
    (
        "21 00000039 00 0000000000000001 01 01 0000000000000002 01 000000000000001e \
        02 00 0000000000000001 01 0000000000000000 01 01 0000000000000064",
        ItemParts::Message(SENT),
    ),
    (
        "22 0000003e 0000000000000001 0000000000000001 00 01 0000000000000064 \
        0000000000000000 00 0000000000000000 01 00 0000000000000000 0000000000000001 00",
        ItemParts::Entry(EntryParts::Begun(SEEDED)),
    ),
    (
        "23 0000002b 0000000000000001 0000000000000002 3f 01 0000000000000064 \
        0000000000000003 02 0000000000000004",
        ItemParts::Entry(EntryParts::Refused(REFUSED_ENTRY)),
    ),
    (
        "24 00000042 00 0000000000000001 01 01 0000000000000002 01 000000000000001e \
        02 00 0000000000000001 01 0000000000000000 01 01 0000000000000064 0000000000000003 00",
        ItemParts::Entry(EntryParts::Hop(ARRIVED)),
    ),
];

/// Whether this text of hex digits is the encoding of the item.
fn is_written(alloc: Global, text: &str, parts: ItemParts) -> Result<bool, DecodeFault> {
    let encoding = hex(alloc, text)?;
    is_encoding(alloc, encoding.as_slice(), parts)
}

#[test]
fn worked_encodings(rt: HostRuntime) {
    for &(text, parts) in ENCODINGS {
        assert!(rt; is_written(rt.alloc(), text, parts) == Ok(true), "{text}");
    }
}
