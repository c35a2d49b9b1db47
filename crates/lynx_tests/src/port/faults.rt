//! Each fault of what a client sends, and want of memory.
use crate::port::streams::{Manner, SMOOTH};
use crate::port::talk::{Expected, PLAIN, Setting, comes_to};
use lynx_codec::DecodeFault;
use lynx_port::PortFault;

const BAD_TAG: PortFault = PortFault::Bad(DecodeFault::BadTag);

const BAD_LENGTH: PortFault = PortFault::Bad(DecodeFault::BadLength);

const OUT_OF_RANGE: PortFault = PortFault::Bad(DecodeFault::OutOfRange);

/// What stands first or behind a frame that is answered, and its fault.
const FAULTS: &[(&str, PortFault)] = &[
    ("00", BAD_TAG),
    ("05", BAD_TAG),
    ("20", BAD_TAG),
    ("ff", BAD_TAG),
    // Bodies of 2,049 bytes and of the most that a length can say.
    ("01 00000801", BAD_LENGTH),
    ("01 ffffffff", BAD_LENGTH),
    ("03 00000801", BAD_LENGTH),
    // Bodies that their fields don't fill, or pass.
    ("01 00000000", BAD_LENGTH),
    ("03 00000001 00", BAD_LENGTH),
    ("04 00000001 00", BAD_LENGTH),
    // A ninth argument, a program and an origin.
    (
        "01 00000012 0000000000000001 0000000000000001 00 09",
        OUT_OF_RANGE,
    ),
    (
        "01 00000012 0000000000000001 0000000000000001 40 00",
        OUT_OF_RANGE,
    ),
    ("02 0000000a 10 0000000000000000 00", OUT_OF_RANGE),
    // Items that no client sends.
    ("11 00000001 01", PortFault::NotAsked),
    ("12 00000001 00", PortFault::NotAsked),
    ("13 00000000", PortFault::NotAsked),
    (
        "21 00000039 00 0000000000000001 01 01 0000000000000002 01 000000000000001e 02 \
        00 0000000000000001 01 0000000000000000 01 01 0000000000000064",
        PortFault::NotAsked,
    ),
    (
        "22 0000003e 0000000000000001 0000000000000001 00 01 0000000000000064 \
        0000000000000000 00 0000000000000000 01 00 0000000000000000 0000000000000001 00",
        PortFault::NotAsked,
    ),
];

/// One read gives all; a second one would fail.
const AT_ONCE: Setting = Setting {
    reads: Manner { good: 1, ..SMOOTH },
    ..PLAIN
};

const LOOK: &str = "02 0000000a 00 0000000000000000 00";

const ABSENT: &str = "12 00000001 00";

#[test]
fn faults_come_at_once(rt: HostRuntime) {
    for &(input, fault) in FAULTS {
        let first = Expected {
            result: Err(fault),
            written: "",
            asked: 0,
        };
        let second = Expected {
            result: Err(fault),
            written: ABSENT,
            asked: 1,
        };
        assert!(rt;
            comes_to(rt.alloc(), &[input], AT_ONCE, first) == Ok(true),
            "{input}"
        );
        assert!(rt;
            comes_to(rt.alloc(), &[LOOK, input, LOOK], AT_ONCE, second) == Ok(true),
            "{input}"
        );
    }
}

/// Memory is wanting to the desk.
const LACKING: Setting = Setting {
    lacks: true,
    ..PLAIN
};

#[test]
fn want_of_memory_of_the_desk(rt: HostRuntime) {
    // A begin is answered so, and the connection goes on; a look ends it.
    let request = "01 00000012 0000000000000001 0000000000000001 00 00";
    let expected = Expected {
        result: Err(PortFault::Memory),
        written: "11 00000001 0a",
        asked: 2,
    };
    assert!(rt; comes_to(rt.alloc(), &[request, LOOK, request], LACKING, expected) == Ok(true));
}
