//! What is done to a server, and what comes of it.
use lynx_entry::Message;
use lynx_fixtures::made::{answer, boxed, chain, delivered, message, request, stamp};
use lynx_fixtures::parts::{AnswerParts, DeliveredParts, MessageParts, RequestParts};
use lynx_keep::FaultKeeper;
use lynx_names::{Memory, TableId};
use lynx_server::{Server, Woken};
use std::alloc::Global;

/// Something that is done to a server, and what it answers. All chains are of server 0.
#[derive(Clone, Copy)]
pub enum Call {
    /// A request comes, of a session that was told that stamp.
    Begin(RequestParts, u64, AnswerParts),
    /// A message comes.
    Deliver(MessageParts, DeliveredParts),
    /// The held message of that chain and hop is delivered.
    Wake(u64, u8, DeliveredParts),
    /// No held message's turn it is.
    Idle,
    /// The message of that chain and hop is acknowledged.
    Acknowledge(u64, u8),
    /// From that place on the first message owed is that of the entry at the second place.
    Owes(u64, u64, MessageParts),
    /// From that place on no message is owed.
    OwesNothing(u64),
    /// The cell of that key of the first table holds that.
    Cell(u64, u64),
}

fn begins(
    alloc: Global,
    server: &mut Server<FaultKeeper>,
    asked: RequestParts,
    seen: u64,
    want: AnswerParts,
) -> Result<bool, Memory> {
    let seen = stamp(seen)?;
    let want = boxed(alloc, answer(alloc, want))?;
    let request = request(alloc, asked)?;
    Ok(server.begin(alloc, request, seen) == *want)
}

fn delivers(
    alloc: Global,
    server: &mut Server<FaultKeeper>,
    sent: MessageParts,
    want: DeliveredParts,
) -> Result<bool, Memory> {
    let want = boxed(alloc, delivered(alloc, want))?;
    let message = message(alloc, sent)?;
    Ok(server.deliver(alloc, message) == *want)
}

/// What the server wakes, in a box, which is dropped by one call.
pub fn woken(
    alloc: Global,
    server: &mut Server<FaultKeeper>,
) -> Result<Option<Box<Woken>>, Memory> {
    match server.wake(alloc) {
        Some(woken) => Ok(Some(boxed(alloc, Ok(woken))?)),
        None => Ok(None),
    }
}

fn wakes(
    alloc: Global,
    server: &mut Server<FaultKeeper>,
    index: u64,
    hop: u8,
    want: DeliveredParts,
) -> Result<bool, Memory> {
    let chain = chain(0, index)?;
    let want = boxed(alloc, delivered(alloc, want))?;
    match woken(alloc, server)? {
        Some(woken) => Ok(woken.chain == chain && woken.hop == hop && woken.delivered == *want),
        None => Ok(false),
    }
}

/// The place of the first entry from that one on whose message is owed, and that message, in a box.
fn due(
    alloc: Global,
    server: &Server<FaultKeeper>,
    from: u64,
) -> Result<Option<(u64, Box<Message>)>, Memory> {
    match server.messages_due(alloc, from)? {
        Some((place, message)) => Ok(Some((place, boxed(alloc, Ok(message))?))),
        None => Ok(None),
    }
}

fn owes(
    alloc: Global,
    server: &Server<FaultKeeper>,
    from: u64,
    place: u64,
    want: MessageParts,
) -> Result<bool, Memory> {
    let want = boxed(alloc, message(alloc, want))?;
    match due(alloc, server, from)? {
        Some((found, message)) => Ok(found == place && *message == *want),
        None => Ok(false),
    }
}

/// Does the step. Whether it comes out so.
pub fn comes_out(
    alloc: Global,
    server: &mut Server<FaultKeeper>,
    step: &Call,
) -> Result<bool, Memory> {
    match *step {
        Call::Begin(asked, seen, want) => begins(alloc, server, asked, seen, want),
        Call::Deliver(sent, want) => delivers(alloc, server, sent, want),
        Call::Wake(index, hop, want) => wakes(alloc, server, index, hop, want),
        Call::Idle => Ok(woken(alloc, server)?.is_none()),
        Call::Acknowledge(index, hop) => {
            server.acknowledge(chain(0, index)?, hop);
            Ok(true)
        }
        Call::Owes(from, place, want) => owes(alloc, server, from, place, want),
        Call::OwesNothing(from) => Ok(due(alloc, server, from)?.is_none()),
        Call::Cell(key, value) => {
            let table = TableId::new(0).ok_or(Memory)?;
            Ok(server.cells().get(table, key) == value)
        }
    }
}
