//! The worked connection, whole and in pieces of all sizes.
use crate::port::bytes::hex;
use crate::port::streams::{Manner, SMOOTH};
use crate::port::talk::{Expected, PLAIN, Setting, comes_to, talk};
use lynx_names::Memory;
use lynx_port::Served;
use std::alloc::Global;

/// A request, the same again, another one of the same number, looks at its chain and at one that
/// isn't there, and Shut.
pub const INPUT: &str = "\
    01 0000001a 0000000000000001 0000000000000001 00 01 0000000000000064 \
    01 0000001a 0000000000000001 0000000000000001 00 01 0000000000000064 \
    01 0000001a 0000000000000001 0000000000000001 00 01 0000000000000063 \
    02 0000000a 00 0000000000000000 00 \
    02 0000000a 00 0000000000000001 00 \
    04 00000000";

pub const WRITTEN: &str = "\
    11 00000014 00 00 0000000000000000 0000000000000001 00 00 \
    11 00000014 00 00 0000000000000000 0000000000000001 01 00 \
    11 00000001 01 \
    12 0000000a 01 0000000000000001 00 \
    12 00000001 00 \
    13 00000000";

/// Where each frame ends in the input, and its answer in what is written.
pub const ENDS: &[(usize, usize)] = &[
    (31, 25),
    (62, 50),
    (93, 56),
    (108, 71),
    (123, 77),
    (128, 82),
];

const SERVED: Served = Served {
    answers: 6,
    shut: true,
};

const BY_BYTE: Manner = Manner {
    first: 1,
    piece: 1,
    interrupted: true,
    ..SMOOTH
};

/// Whether the connection is served whole, so read and so written.
fn is_served(alloc: Global, input: &[u8], written: &[u8], setting: Setting) -> bool {
    let outcome = talk(alloc, input, setting);
    outcome.result == Ok(SERVED) && outcome.written.as_slice() == written && outcome.asked == 5
}

/// Whether it is served in two pieces, cut after any byte, and byte by byte with interruptions.
fn is_served_in_pieces(alloc: Global) -> Result<bool, Memory> {
    let (input, written) = (hex(alloc, &[INPUT])?, hex(alloc, &[WRITTEN])?);
    for first in 1..=input.len() {
        let reads = Manner { first, ..SMOOTH };
        let setting = Setting { reads, ..PLAIN };
        if !is_served(alloc, input.as_slice(), written.as_slice(), setting) {
            return Ok(false);
        }
    }
    let setting = Setting {
        reads: BY_BYTE,
        writes: BY_BYTE,
        ..PLAIN
    };
    Ok(is_served(alloc, input.as_slice(), written.as_slice(), setting))
}

#[test]
fn the_worked_connection(rt: HostRuntime) {
    assert!(rt; is_served_in_pieces(rt.alloc()) == Ok(true));
}

/// Inputs that end otherwise, with the answers that are counted, whether all shuts, what is
/// written, and how often the desk is asked.
const ENDINGS: &[(&str, u64, bool, &str, u32)] = &[
    ("", 0, false, "", 0),
    ("03 00000000", 1, false, "13 00000000", 0),
    ("04 00000000", 1, true, "13 00000000", 0),
    // The input ends behind a whole frame.
    (
        "02 0000000a 00 0000000000000000 00",
        1,
        false,
        "12 00000001 00",
        1,
    ),
    // What stands behind the last frame is not answered, be it a frame or not.
    (
        "03 00000000 04 00000000 02 0000000a 00 0000000000000000 00",
        1,
        false,
        "13 00000000",
        0,
    ),
    ("04 00000000 03 00000000", 1, true, "13 00000000", 0),
    ("04 00000000 ff", 1, true, "13 00000000", 0),
];

#[test]
fn other_ends_of_connections(rt: HostRuntime) {
    for &(input, answers, shut, written, asked) in ENDINGS {
        let expected = Expected {
            result: Ok(Served { answers, shut }),
            written,
            asked,
        };
        assert!(rt;
            comes_to(rt.alloc(), &[input], PLAIN, expected) == Ok(true),
            "{input}"
        );
    }
}
