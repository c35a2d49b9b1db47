//! Items by their parts.
use lynx_codec::{Item, Look, Looked};
use lynx_fixtures::made::{answer, boxed, chain, entry, message, request, stamp, values};
use lynx_fixtures::parts::{AnswerParts, EntryParts, MessageParts, RequestParts};
use lynx_names::Memory;
use std::alloc::Global;

#[derive(Clone, Copy)]
pub enum ItemParts {
    Request(RequestParts),
    Look { origin: u8, index: u64, hop: u8 },
    Quit,
    Shut,
    Answer(AnswerParts),
    Absent,
    Found { time: u64, results: &'static [u64] },
    Bye,
    Message(MessageParts),
    Entry(EntryParts),
}

fn item_of(alloc: Global, parts: ItemParts) -> Result<Item, Memory> {
    match parts {
        ItemParts::Request(parts) => Ok(Item::Request(request(alloc, parts)?)),
        ItemParts::Look { origin, index, hop } => Ok(Item::Look(Look {
            chain: chain(origin, index)?,
            hop,
        })),
        ItemParts::Quit => Ok(Item::Quit),
        ItemParts::Shut => Ok(Item::Shut),
        ItemParts::Answer(parts) => Ok(Item::Answer(answer(alloc, parts)?)),
        ItemParts::Absent => Ok(Item::Looked(Looked::Absent)),
        ItemParts::Found { time, results } => Ok(Item::Looked(Looked::Found {
            stamp: stamp(time)?,
            results: values(alloc, results)?,
        })),
        ItemParts::Bye => Ok(Item::Bye),
        ItemParts::Message(parts) => Ok(Item::Message(message(alloc, parts)?)),
        ItemParts::Entry(parts) => Ok(Item::Entry(entry(alloc, parts)?)),
    }
}

/// The item, in a box, which is dropped by one call.
pub fn item(alloc: Global, parts: ItemParts) -> Result<Box<Item>, Memory> {
    boxed(alloc, item_of(alloc, parts))
}
