//! The encodings of a payment, written and read again and again: none is kept, so memory stays
//! small.
ghost use Rattle.std.specs.Prelude.{◌<◌};
ghost use Rattle.lynx_codec.specs.Ranges.{IsInRange};

use lynx_codec::limits::MAX_ENCODING_BYTES;
use lynx_codec::{Feed, Item, append};
use lynx_names::Memory;
use std::alloc::Global;

/// The encoding of the entry of the server where a payment of 30 begins, which has the number 7
/// there and 5 at the next server.
const BEGUN: &[u8] = &[
    34, 0, 0, 0, 79, 0, 0, 0, 0, 0, 0, 0, 1, 0, 0, 0, 0, 0, 0, 0, 8, 0, 1, 0, 0, 0, 0, 0, 0, 0, 30,
    0, 0, 0, 0, 0, 0, 0, 0, 0, 0, 0, 0, 0, 0, 0, 0, 7, 2, 0, 0, 0, 0, 0, 0, 0, 0, 7, 1, 0, 0, 0, 0,
    0, 0, 0, 5, 0, 0, 0, 0, 0, 0, 0, 0, 1, 0, 0, 0, 0, 0, 0, 0, 100,
];

/// The encoding of the message of its second hop.
const SENT: &[u8] = &[
    33, 0, 0, 0, 57, 0, 0, 0, 0, 0, 0, 0, 0, 7, 0, 1, 0, 0, 0, 0, 0, 0, 0, 0, 1, 0, 0, 0, 0, 0, 0,
    0, 30, 2, 0, 0, 0, 0, 0, 0, 0, 0, 7, 1, 0, 0, 0, 0, 0, 0, 0, 5, 1, 1, 0, 0, 0, 0, 0, 0, 0, 100,
];

/// The encoding of the entry of the server where that hop runs.
const RAN: &[u8] = &[
    36, 0, 0, 0, 66, 0, 0, 0, 0, 0, 0, 0, 0, 7, 0, 1, 0, 0, 0, 0, 0, 0, 0, 0, 1, 0, 0, 0, 0, 0, 0,
    0, 30, 2, 0, 0, 0, 0, 0, 0, 0, 0, 7, 1, 0, 0, 0, 0, 0, 0, 0, 5, 1, 1, 0, 0, 0, 0, 0, 0, 0, 100,
    0, 0, 0, 0, 0, 0, 0, 0, 0,
];

/// Adds the encoding of an item.
fn add(item: &Item, out: &mut Vec<u8>) -> Result<(), Memory>
    requires { IsInRange item.now }
{
    out.reserve(MAX_ENCODING_BYTES)?;
    append(item, out);
    Ok(())
}

/// Adds the encoding of an item, which is let go then.
pub(crate) fn write(item: Item, out: &mut Vec<u8>) -> Result<(), Memory>
    requires { IsInRange item }
{
    let written = add(&item, out);
    drop(item);
    written
}

/// How many times an item is written until its encodings have so many bytes together.
fn write_often(item: &Item, out: &mut Vec<u8>, count: u64) -> Result<u64, Memory>
    requires { IsInRange item.now }
{
    let mut bytes: u64 = 0;
    let mut items: u64 = 0;
    for _ in 0..count {
        if bytes >= count {
            break;
        }
        out.clear();
        add(item, out)?;
        bytes = bytes.saturating_add(out.len() as u64);
        items = items.wrapping_add(1);
    }
    Ok(items)
}

/// The same, each time in the same place.
fn encode_often(alloc: Global, item: Item, count: u64) -> Result<u64, Memory>
    requires { IsInRange item }
{
    let mut out = Vec::new(alloc);
    let items = write_often(&item, &mut out, count);
    drop(item);
    items
}

/// How many messages are written until their encodings have so many bytes together.
pub fn encode_all(alloc: Global, count: u64) -> Result<u64, Memory> {
    let mut feed = Feed::new(alloc);
    feed.push(SENT)?;
    match feed.next(alloc) {
        Ok(Some(sent)) => encode_often(alloc, sent, count),
        Ok(None) => Err(Memory),
        Err(_) => Err(Memory),
    }
}

/// Adds the encodings of the two entries and the message.
fn add_round(bytes: &mut Vec<u8>) -> Result<(), Memory> {
    for encoding in [BEGUN, SENT, RAN] {
        bytes.extend_from_slice(encoding)?;
    }
    Ok(())
}

/// A round of encodings, so often that pieces of that size cut them evenly.
fn stream(alloc: Global, piece: usize) -> Result<Vec<u8>, Memory> {
    let mut bytes = Vec::new(alloc);
    for _ in 0..piece {
        add_round(&mut bytes)?;
    }
    Ok(bytes)
}

/// Takes all that the feed gives now, and counts it.
fn take_all(alloc: Global, feed: &mut Feed) -> Result<u64, Memory> {
    for items in 0..u64::MAX {
        match feed.next(alloc) {
            Ok(Some(item)) => drop(item),
            Ok(None) => return Ok(items),
            Err(_) => return Err(Memory),
        }
    }
    Ok(u64::MAX)
}

/// Pushes the stream in pieces of that size, and counts the items that the feed gives.
fn feed_once(alloc: Global, feed: &mut Feed, stream: &[u8], piece: usize) -> Result<u64, Memory>
    requires { 0 < piece }
{
    let mut items: u64 = 0;
    for bytes in stream.chunks(piece) {
        feed.push(bytes)?;
        items = items.wrapping_add(take_all(alloc, feed)?);
    }
    Ok(items)
}

/// How many items a feed gives that is pushed about so many bytes, in pieces of that size. The
/// stream is pushed whole each time, so a pass begins where the one before ended.
pub fn feed_all(alloc: Global, piece: usize, count: u64) -> Result<u64, Memory> {
    let piece = piece.max(1);
    let stream = stream(alloc, piece)?;
    let length = (stream.len() as u64).max(1);
    let mut feed = Feed::new(alloc);
    let mut items: u64 = 0;
    for _ in 0..count / length {
        let given = feed_once(alloc, &mut feed, stream.as_slice(), piece)?;
        items = items.wrapping_add(given);
    }
    Ok(items)
}
