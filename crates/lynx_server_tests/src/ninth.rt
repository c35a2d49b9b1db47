//! A message for a hop past the last of eight, by its encoding.
use crate::rebuilt::rebuilt;
use lynx_codec::{DecodeFault, Feed, Item, encode};
use lynx_entry::Delivered;
use lynx_fixtures::made::entries;
use lynx_fixtures::parts::{BegunParts, EntryParts, RequestParts};
use lynx_keep::MemoryKeeper;
use lynx_server::{OpenFault, Server};
use std::alloc::Global;

/// A program of as many hops as one may have.
#[rattlefmt::skip]
const EIGHT_HOPS: &str =
    "lynx 1\nservers 1\ntable t\nshard 0 18446744073709551615 0\nprogram far\nhop 0\nadd t 0 1\nhop 0\nadd t 0 1\nhop 0\nadd t 0 1\nhop 0\nadd t 0 1\nhop 0\nadd t 0 1\nhop 0\nadd t 0 1\nhop 0\nadd t 0 1\nhop 0\nadd t 0 1\nend\n";

/// Its chain began.
const FAR: EntryParts = EntryParts::Begun(BegunParts {
    request: RequestParts {
        client: 1,
        number: 1,
        program: 0,
        args: &[],
    },
    seen: 0,
    origin: 0,
    index: 0,
    numbers: &[(0, 0)],
    time: 1,
    results: &[],
});

/// The encoding of a message of that chain for hop 8, which would be the ninth: the origin, the
/// index, the program, the hop, the stamp 8, no arguments, the number 0 for server 0, and eight
/// lists without results.
const PAST_THE_LAST: [u8; 44] = [
    0x21, 0, 0, 0, 39, 0, 0, 0, 0, 0, 0, 0, 0, 0, 0, 8, 0, 0, 0, 0, 0, 0, 0, 8, 0, 1, 0, 0, 0, 0,
    0, 0, 0, 0, 0, 8, 0, 0, 0, 0, 0, 0, 0, 0,
];

/// The item that a feed gives of that encoding, in a box, if it is written as it stands there.
fn read(alloc: Global) -> Result<Option<Box<Item>>, DecodeFault> {
    let mut feed = Feed::new(alloc);
    feed.push(&PAST_THE_LAST)?;
    match feed.next(alloc)? {
        None => Ok(None),
        Some(item) => {
            let item = Box::new(alloc, item)?;
            let encoding = encode(alloc, &item)?;
            let is_written = encoding.as_slice() == PAST_THE_LAST.as_slice();
            Ok(if is_written { Some(item) } else { None })
        }
    }
}

/// Whether the item is a message that is malformed at the server.
fn is_malformed_at(alloc: Global, server: &mut Server<MemoryKeeper>, item: Box<Item>) -> bool {
    match Box::into_inner(item) {
        Item::Message(message) => server.deliver(alloc, message) == Delivered::Malformed,
        _ => false,
    }
}

/// Whether it is so at the server of the chain, which stays as it was.
fn is_malformed(alloc: Global) -> Result<bool, OpenFault> {
    let Ok(Some(item)) = read(alloc) else {
        return Ok(false);
    };
    let mut server = rebuilt(alloc, EIGHT_HOPS, &[FAR])?;
    let is_malformed = is_malformed_at(alloc, &mut server, item);
    let before = entries(alloc, &[FAR])?;
    Ok(is_malformed && server.history() == before.as_slice() && server.held().is_empty())
}

#[test]
fn a_hop_past_the_last_of_eight(rt: HostRuntime) {
    assert!(rt; is_malformed(rt.alloc()) == Ok(true));
}
