//! The fault of each wrong encoding, and what an unfinished one ends with.
use crate::codec::bytes::hex;
use crate::codec::feeding::next;
use lynx_codec::{DecodeFault, Feed};
use std::alloc::Global;

/// What the bytes give first, if that is a fault, asked twice.
fn fault_of(alloc: Global, text: &str) -> Result<Option<DecodeFault>, DecodeFault> {
    let bytes = hex(alloc, text)?;
    let mut feed = Feed::new(alloc);
    feed.push(bytes.as_slice())?;
    let first = next(alloc, &mut feed).err();
    let second = next(alloc, &mut feed).err();
    Ok(if first == second { first } else { None })
}

const FAULTS: &[(&str, DecodeFault)] = &[
    // No tags.
    ("20", DecodeFault::BadTag),
    ("00", DecodeFault::BadTag),
    ("05", DecodeFault::BadTag),
    ("14", DecodeFault::BadTag),
    ("25", DecodeFault::BadTag),
    ("ff", DecodeFault::BadTag),
    // Too long, and known before the body has come.
    ("21 00000801", DecodeFault::BadLength),
    ("21 ffffffff", DecodeFault::BadLength),
    // A body that ends inside a field, or before its first.
    ("01 00000000", DecodeFault::BadLength),
    ("12 00000008 01 00000000000000", DecodeFault::BadLength),
    // Bytes behind the last field.
    ("03 00000001 00", DecodeFault::BadLength),
    ("11 00000002 01 00", DecodeFault::BadLength),
    // The first byte of what a look is answered, and a kind.
    ("12 00000001 02", DecodeFault::OutOfRange),
    ("11 00000001 0c", DecodeFault::OutOfRange),
    // An origin, and a stamp.
    (
        "02 0000000a 10 0000000000000000 00",
        DecodeFault::OutOfRange,
    ),
    (
        "12 0000000a 01 4000000000000000 00",
        DecodeFault::OutOfRange,
    ),
    // A count of results.
    (
        "12 0000000a 01 0000000000000001 11",
        DecodeFault::OutOfRange,
    ),
    // The first fault from the left is the one that is told.
    ("02 00000001 10", DecodeFault::OutOfRange),
    ("02 00000002 00 10", DecodeFault::BadLength),
    // Numbers of one server twice, and none.
    (
        "21 00000031 00 0000000000000001 01 01 0000000000000002 00 \
        02 01 0000000000000001 01 0000000000000000 01 01 0000000000000064",
        DecodeFault::OutOfRange,
    ),
    (
        "21 0000001f 00 0000000000000001 01 01 0000000000000002 00 \
        00 01 01 0000000000000064",
        DecodeFault::OutOfRange,
    ),
];

#[test]
fn wrong_encodings(rt: HostRuntime) {
    for &(text, fault) in FAULTS {
        assert!(rt; fault_of(rt.alloc(), text) == Ok(Some(fault)), "{text}");
    }
}

/// How a stream of these bytes ends, if they give no item.
fn end_of(alloc: Global, text: &str) -> Result<(), DecodeFault> {
    let bytes = hex(alloc, text)?;
    let mut feed = Feed::new(alloc);
    feed.push(bytes.as_slice())?;
    match next(alloc, &mut feed)? {
        None => feed.finish(),
        Some(_) => Ok(()),
    }
}

/// Nothing; a tag, a tag and a part of a length, and all but the last byte.
const ENDS: &[(&str, Result<(), DecodeFault>)] = &[
    ("", Ok(())),
    ("03", Err(DecodeFault::Short)),
    ("03 000000", Err(DecodeFault::Short)),
    ("12 0000000a 01 0000000000000001", Err(DecodeFault::Short)),
];

#[test]
fn ends_of_streams(rt: HostRuntime) {
    for &(text, end) in ENDS {
        assert!(rt; end_of(rt.alloc(), text) == end, "{text}");
    }
}

#[test]
fn numbers_of_faults(rt: HostRuntime) {
    let numbers = [
        DecodeFault::Short as u8,
        DecodeFault::BadTag as u8,
        DecodeFault::BadLength as u8,
        DecodeFault::OutOfRange as u8,
        DecodeFault::Memory as u8,
    ];
    assert!(rt; numbers == [1, 2, 3, 4, 5]);
}
