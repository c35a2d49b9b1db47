//! Streams of many items, in pieces of many sizes.
use crate::codec::bytes::hex;
use crate::codec::encodings::ENCODINGS;
use crate::codec::feeding::next;
use lynx_codec::{DecodeFault, Feed};
use std::alloc::Global;

/// Adds the encodings of all items that the feed gives now.
fn take_all(
    alloc: Global,
    feed: &mut Feed,
    encodings: &mut Vec<u8>,
    most: usize,
) -> Result<(), DecodeFault> {
    for _ in 0..most {
        match next(alloc, feed)? {
            None => return Ok(()),
            Some(given) => encodings.extend_from_slice(given.encoding.as_slice())?,
        }
    }
    Ok(())
}

/// Whether a stream that comes in pieces of that size gives items whose encodings, joined, are the
/// stream.
fn is_given_whole(alloc: Global, stream: &[u8], size: u8) -> Result<bool, DecodeFault> {
    let mut feed = Feed::new(alloc);
    let mut encodings = Vec::new(alloc);
    for piece in stream.chunks(usize::from(size.max(1))) {
        feed.push(piece)?;
        take_all(alloc, &mut feed, &mut encodings, stream.len())?;
    }
    Ok(encodings.as_slice() == stream && next(alloc, &mut feed)?.is_none())
}

/// The worked encodings, one behind the other, so many times.
fn stream_of(alloc: Global, count: u16) -> Result<Vec<u8>, DecodeFault> {
    let mut stream = Vec::new(alloc);
    for _ in 0..count {
        for &(text, _) in ENCODINGS {
            let encoding = hex(alloc, text)?;
            stream.extend_from_slice(encoding.as_slice())?;
        }
    }
    Ok(stream)
}

fn are_given_whole(alloc: Global, count: u16, sizes: &[u8]) -> Result<bool, DecodeFault> {
    let stream = stream_of(alloc, count)?;
    for size in sizes {
        if !is_given_whole(alloc, stream.as_slice(), *size)? {
            return Ok(false);
        }
    }
    Ok(true)
}

/// How often the worked encodings stand in a stream, and the sizes of its pieces.
const STREAMS: &[(u16, &[u8])] = &[
    (1, &[1, 2, 3, 4, 5, 6, 7, 61, 62, 63, 200, 255]),
    (150, &[1, 17, 255]),
];

#[test]
fn streams_in_pieces(rt: HostRuntime) {
    for &(count, sizes) in STREAMS {
        assert!(rt;
            are_given_whole(rt.alloc(), count, sizes) == Ok(true),
            "{count} times"
        );
    }
}
