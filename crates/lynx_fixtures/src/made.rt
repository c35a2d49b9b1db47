//! What is made of parts, and of numbers that are known to be in range.
use crate::parts::{
    AnswerParts, BegunParts, DeliveredParts, EntryParts, HopParts, MessageParts, RefusedParts,
    RequestParts,
};
use lynx_entry::{
    Answer, BegunEntry, Delivered, Entry, HopEntry, Message, NumberAt, Numbers, RefusedEntry,
    Request, ResultLists,
};
use lynx_names::{ChainId, ClientId, Memory, ProgramId, ServerId, Stamp, Values};
use std::alloc::Global;

/// In a box, which is dropped by one call: that keeps the proofs of those who hold it short.
pub fn boxed<T: Drop>(alloc: Global, made: Result<T, Memory>) -> Result<Box<T>, Memory> {
    Ok(Box::new(alloc, made?)?)
}

pub fn server(number: u8) -> Result<ServerId, Memory> {
    ServerId::new(number).ok_or(Memory)
}

pub fn program(number: u8) -> Result<ProgramId, Memory> {
    ProgramId::new(number).ok_or(Memory)
}

pub fn stamp(time: u64) -> Result<Stamp, Memory> {
    Stamp::new(time).ok_or(Memory)
}

pub fn chain(origin: u8, index: u64) -> Result<ChainId, Memory> {
    Ok(ChainId {
        origin: server(origin)?,
        index,
    })
}

pub fn values(alloc: Global, items: &[u64]) -> Result<Values, Memory> {
    Ok(Values::from_vec(Vec::from_slice(alloc, items)?))
}

pub fn numbers(alloc: Global, items: &[(u8, u64)]) -> Result<Numbers, Memory> {
    let mut numbers = Numbers::new(alloc);
    for &(at, number) in items {
        let server = server(at)?;
        numbers.push(NumberAt { server, number })?;
    }
    Ok(numbers)
}

pub fn lists(alloc: Global, items: &[&[u64]]) -> Result<ResultLists, Memory> {
    let mut lists = ResultLists::new(alloc);
    for item in items {
        lists.push(values(alloc, item)?)?;
    }
    Ok(lists)
}

pub fn request(alloc: Global, parts: RequestParts) -> Result<Request, Memory> {
    Ok(Request {
        client: ClientId::new(parts.client),
        number: parts.number,
        program: program(parts.program)?,
        args: values(alloc, parts.args)?,
    })
}

pub fn message(alloc: Global, parts: MessageParts) -> Result<Message, Memory> {
    Ok(Message {
        chain: chain(parts.origin, parts.index)?,
        program: program(parts.program)?,
        hop: parts.hop,
        stamp: stamp(parts.time)?,
        args: values(alloc, parts.args)?,
        numbers: numbers(alloc, parts.numbers)?,
        results: lists(alloc, parts.results)?,
    })
}

fn begun(alloc: Global, parts: BegunParts) -> Result<BegunEntry, Memory> {
    let (seen, stamp) = (stamp(parts.seen)?, stamp(parts.time)?);
    let chain = chain(parts.origin, parts.index)?;
    Ok(BegunEntry {
        request: request(alloc, parts.request)?,
        seen,
        chain,
        numbers: numbers(alloc, parts.numbers)?,
        stamp,
        results: values(alloc, parts.results)?,
    })
}

fn refused(alloc: Global, parts: RefusedParts) -> Result<RefusedEntry, Memory> {
    let (seen, stamp) = (stamp(parts.seen)?, stamp(parts.time)?);
    Ok(RefusedEntry {
        request: request(alloc, parts.request)?,
        seen,
        need: parts.need,
        stamp,
    })
}

fn ran(alloc: Global, parts: HopParts) -> Result<HopEntry, Memory> {
    let stamp = stamp(parts.time)?;
    Ok(HopEntry {
        message: message(alloc, parts.message)?,
        stamp,
        results: values(alloc, parts.results)?,
    })
}

pub fn entry(alloc: Global, parts: EntryParts) -> Result<Entry, Memory> {
    match parts {
        EntryParts::Begun(parts) => Ok(Entry::Begun(begun(alloc, parts)?)),
        EntryParts::Refused(parts) => Ok(Entry::Refused(refused(alloc, parts)?)),
        EntryParts::Hop(parts) => Ok(Entry::Hop(ran(alloc, parts)?)),
    }
}

pub fn entries(alloc: Global, parts: &[EntryParts]) -> Result<Vec<Entry>, Memory> {
    let mut entries = Vec::new(alloc);
    for parts in parts {
        entries.push(entry(alloc, *parts)?)?;
    }
    Ok(entries)
}

pub fn answer(alloc: Global, parts: AnswerParts) -> Result<Answer, Memory> {
    match parts {
        AnswerParts::Begun {
            origin,
            index,
            time,
            results,
            again,
        } => Ok(Answer::Begun {
            chain: chain(origin, index)?,
            stamp: stamp(time)?,
            results: values(alloc, results)?,
            again,
        }),
        AnswerParts::Refused { need, time, again } => Ok(Answer::Refused {
            need,
            stamp: stamp(time)?,
            again,
        }),
        AnswerParts::Clash => Ok(Answer::Clash),
        AnswerParts::UnknownProgram => Ok(Answer::UnknownProgram),
        AnswerParts::WrongOrigin => Ok(Answer::WrongOrigin),
        AnswerParts::ArgCount => Ok(Answer::ArgCount),
        AnswerParts::OutsideRange => Ok(Answer::OutsideRange),
        AnswerParts::WrongShard => Ok(Answer::WrongShard),
        AnswerParts::Full => Ok(Answer::Full),
        AnswerParts::Busy => Ok(Answer::Busy),
        AnswerParts::Stopped => Ok(Answer::Stopped),
        AnswerParts::Memory => Ok(Answer::Memory),
    }
}

fn next(alloc: Global, parts: Option<MessageParts>) -> Result<Option<Message>, Memory> {
    match parts {
        Some(parts) => Ok(Some(message(alloc, parts)?)),
        None => Ok(None),
    }
}

pub fn delivered(alloc: Global, parts: DeliveredParts) -> Result<Delivered, Memory> {
    match parts {
        DeliveredParts::Done {
            time,
            results,
            next: sent,
        } => Ok(Delivered::Done {
            stamp: stamp(time)?,
            results: values(alloc, results)?,
            next: next(alloc, sent)?,
        }),
        DeliveredParts::Repeat {
            time,
            results,
            next: sent,
        } => Ok(Delivered::Repeat {
            stamp: stamp(time)?,
            results: values(alloc, results)?,
            next: next(alloc, sent)?,
        }),
        DeliveredParts::Held => Ok(Delivered::Held),
        DeliveredParts::Dropped => Ok(Delivered::Dropped),
        DeliveredParts::Malformed => Ok(Delivered::Malformed),
        DeliveredParts::Full => Ok(Delivered::Full),
        DeliveredParts::Stopped => Ok(Delivered::Stopped),
        DeliveredParts::Memory => Ok(Delivered::Memory),
    }
}
