//! Requests that come in one read.
use crate::port::bytes::hex;
use crate::port::desk::OneChain;
use crate::port::streams::{Manner, SMOOTH, Sink, Source};
use crate::port::talk::{Expected, PLAIN, Setting, comes_to};
use lynx_codec::DecodeFault;
use lynx_names::Memory;
use lynx_port::{PortFault, Served, serve};
use std::alloc::Global;

const REQUEST: &str = "01 0000001a 0000000000000001 0000000000000001 00 01 0000000000000064";

const OTHER: &str = "01 0000001a 0000000000000001 0000000000000001 00 01 0000000000000063";

const LOOK: &str = "02 0000000a 00 0000000000000000 00";

/// What comes in one read, in how many writes it is answered, and what it comes to.
const CASES: &[(&[&str], u32, Expected)] = &[
    (
        &[REQUEST, REQUEST, OTHER, LOOK, REQUEST],
        3,
        Expected {
            result: Ok(Served {
                answers: 5,
                shut: false,
            }),
            written: "11 00000014 00 00 0000000000000000 0000000000000001 00 00 \
                11 00000014 00 00 0000000000000000 0000000000000001 01 00 \
                11 00000001 01 \
                12 0000000a 01 0000000000000001 00 \
                11 00000014 00 00 0000000000000000 0000000000000001 01 00",
            asked: 5,
        },
    ),
    // A fault stands behind two requests.
    (
        &[REQUEST, OTHER, "00", REQUEST],
        1,
        Expected {
            result: Err(PortFault::Bad(DecodeFault::BadTag)),
            written: "11 00000014 00 00 0000000000000000 0000000000000001 00 00 11 00000001 01",
            asked: 2,
        },
    ),
];

/// All further writes fail.
fn writing(good: u32) -> Setting {
    Setting {
        writes: Manner { good, ..SMOOTH },
        ..PLAIN
    }
}

#[test]
fn requests_of_one_read(rt: HostRuntime) {
    for &(input, writes, expected) in CASES {
        assert!(rt;
            comes_to(rt.alloc(), input, writing(writes), expected) == Ok(true),
            "{writes}"
        );
    }
}

/// Whether 65 requests of one read are answered in two writes: 64 together, and one.
fn are_many_answered(alloc: Global) -> Result<bool, Memory> {
    let input = hex(alloc, &[REQUEST; 65])?;
    let mut reader = Source::new(input.as_slice(), SMOOTH);
    let mut writer = Sink::new(alloc, Manner { good: 2, ..SMOOTH });
    let mut desk = OneChain::new(alloc, false);
    let result = serve(alloc, &mut reader, &mut writer, &mut desk);
    let served = Served {
        answers: 65,
        shut: false,
    };
    Ok(result == Ok(served) && desk.asked == 65 && writer.bytes.len() == 65 * 25)
}

#[test]
fn more_requests_than_are_asked_together(rt: HostRuntime) {
    assert!(rt; are_many_answered(rt.alloc()) == Ok(true));
}
