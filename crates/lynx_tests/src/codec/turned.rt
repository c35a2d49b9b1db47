//! Encodings with one byte of each value: the feed gives what the slow reading of the rules does.
use crate::codec::bytes::hex;
use crate::codec::encodings::ENCODINGS;
use crate::codec::feeding::next;
use crate::codec::slow::{Slow, read_slowly};
use lynx_codec::{DecodeFault, Feed};
use std::alloc::Global;

/// How long the encoding is that the feed gives, 0 where it isn't what stands at the front of the
/// bytes.
fn front(alloc: Global, feed: &mut Feed, bytes: &[u8]) -> Result<Option<usize>, DecodeFault> {
    match next(alloc, feed)? {
        None => Ok(None),
        Some(given) => {
            let is_there = bytes.starts_with(given.encoding.as_slice());
            Ok(Some(if is_there { given.encoding.len() } else { 0 }))
        }
    }
}

/// Whether the feed and the slow reading agree on all that stands in the bytes.
fn is_read_alike(alloc: Global, bytes: &[u8]) -> Result<bool, DecodeFault> {
    let mut feed = Feed::new(alloc);
    feed.push(bytes)?;
    let mut rest = bytes;
    for _ in 0..=bytes.len() {
        match (read_slowly(rest), front(alloc, &mut feed, rest)) {
            (Slow::Nothing, Ok(None)) => return Ok(true),
            (Slow::Fault(slow), Err(fault)) => return Ok(slow == fault),
            (Slow::Encoding(slow), Ok(Some(size))) => {
                if slow != size || rest.len() < size {
                    return Ok(false);
                }
                rest = &rest[size..];
            }
            _ => return Ok(false),
        }
    }
    Ok(false)
}

/// The same of this encoding with each value in each place.
fn are_read_alike(alloc: Global, text: &str) -> Result<bool, DecodeFault> {
    let mut bytes = hex(alloc, text)?;
    for place in 0..bytes.len() {
        for value in 0..=255u8 {
            let before = bytes.as_slice().get(place).copied();
            set(bytes.as_mut_slice(), place, Some(value));
            let is_alike = is_read_alike(alloc, bytes.as_slice())?;
            set(bytes.as_mut_slice(), place, before);
            if !is_alike {
                return Ok(false);
            }
        }
    }
    Ok(true)
}

fn set(bytes: &mut [u8], place: usize, value: Option<u8>) {
    if let (Some(slot), Some(value)) = (bytes.get_mut(place), value) {
        *slot = value;
    }
}

/// Two items in a row.
const TWO: &str = "04 00000000 12 0000000a 01 0000000000000001 00";

#[test]
fn each_value_of_each_byte(rt: HostRuntime) {
    for &(text, _) in ENCODINGS {
        assert!(rt; are_read_alike(rt.alloc(), text) == Ok(true), "{text}");
    }
    assert!(rt; are_read_alike(rt.alloc(), TWO) == Ok(true));
}
