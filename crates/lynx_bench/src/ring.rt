//! Servers in a ring and the chains that run there: their histories, woven to a world.
use crate::chains::{self, Start, last_sent};
use crate::shape::{Shape, set_of};
use lynx_entry::{Entry, Message};
use lynx_keep::MemoryKeeper;
use lynx_names::{Memory, ServerId, TryCopy};
use lynx_order::{Explained, explain_by_search};
use lynx_server::Server;
use lynx_set::ChainSet;
use lynx_weave::{cut, weave};
use lynx_world::World;
use std::alloc::Global;

/// The servers of the set, which have done nothing yet.
pub(crate) fn servers_of(
    alloc: Global,
    set: &ChainSet,
) -> Result<Vec<Server<MemoryKeeper>>, Memory> {
    let mut ring = Vec::new(alloc);
    for number in 0..set.servers() {
        let keeper = MemoryKeeper::new(alloc);
        ring.push(Server::new(alloc, set, ServerId::at(number), keeper)?)?;
    }
    Ok(ring)
}

/// A chain begins: the message that it sends.
fn begin(
    alloc: Global,
    ring: &mut [Server<MemoryKeeper>],
    start: Start<'_>,
    number: u64,
) -> Result<Option<Message>, Memory> {
    let Some(here) = ring.get_mut(usize::from(start.server)) else {
        return Ok(None);
    };
    chains::begin(alloc, here, start, number)?;
    last_sent(alloc, here)
}

/// The message, if there is one, is delivered to that server.
fn deliver(alloc: Global, ring: &mut [Server<MemoryKeeper>], server: u8, message: Option<Message>) {
    if let Some(there) = ring.get_mut(usize::from(server)) {
        chains::deliver(alloc, there, message);
    }
}

/// The next server's number, the first one's behind the last.
fn next_of_ring(servers: usize, server: u8) -> u8 {
    let next = server.wrapping_add(1);
    if usize::from(next) < servers { next } else { 0 }
}

/// Each server in its turn begins its program, which goes on at the next, so many times in all.
fn pay_all(alloc: Global, ring: &mut [Server<MemoryKeeper>], count: u64) -> Result<(), Memory> {
    let mut server = 0;
    for number in 0..count {
        let start = Start {
            server,
            program: server,
            args: &[],
        };
        let next = next_of_ring(ring.len(), server);
        let message = begin(alloc, ring, start, number)?;
        deliver(alloc, ring, next, message);
        server = next;
    }
    Ok(())
}

/// Two chains begin at two servers, and each goes on where the other began.
fn cross(alloc: Global, ring: &mut [Server<MemoryKeeper>], number: u64) -> Result<(), Memory> {
    let right = Start {
        server: 0,
        program: 0,
        args: &[],
    };
    let left = Start {
        server: 1,
        program: 1,
        args: &[],
    };
    let to_right = begin(alloc, ring, right, number)?;
    let to_left = begin(alloc, ring, left, number);
    deliver(alloc, ring, 1, to_right);
    deliver(alloc, ring, 0, to_left?);
    Ok(())
}

/// So many chains of one hop at the first server.
fn touch_all(
    alloc: Global,
    ring: &mut [Server<MemoryKeeper>],
    shape: Shape,
    count: u64,
) -> Result<(), Memory> {
    for number in 0..count {
        let (program, key) = match shape {
            Shape::Alternating => ((number % 2) as u8, 0),
            Shape::Cells => (0, number),
            _ => (0, 0),
        };
        let start = Start {
            server: 0,
            program,
            args: &[key],
        };
        begin(alloc, ring, start, number)?;
    }
    Ok(())
}

/// What the shape's chains do, in so many entries.
fn run(
    alloc: Global,
    ring: &mut [Server<MemoryKeeper>],
    shape: Shape,
    entries: u64,
) -> Result<(), Memory> {
    match shape {
        Shape::Two | Shape::Sixteen => pay_all(alloc, ring, entries / 2),
        Shape::Adds | Shape::Alternating | Shape::Cells => touch_all(alloc, ring, shape, entries),
        Shape::Cycle => {
            let before = (entries / 2).saturating_sub(2);
            pay_all(alloc, ring, before)?;
            cross(alloc, ring, before)
        }
    }
}

/// A copy of the server's history.
fn history_of(alloc: Global, server: &Server<MemoryKeeper>) -> Result<Vec<Entry>, Memory> {
    let mut history = Vec::new(alloc);
    for entry in server.history() {
        history.push(entry.copy(alloc)?)?;
    }
    Ok(history)
}

/// The histories of the servers.
fn histories_of(alloc: Global, ring: &[Server<MemoryKeeper>]) -> Result<Vec<Vec<Entry>>, Memory> {
    let mut histories = Vec::new(alloc);
    for server in ring {
        histories.push(history_of(alloc, server)?)?;
    }
    Ok(histories)
}

/// The histories of the set's servers after so many entries.
fn ran(
    alloc: Global,
    set: &ChainSet,
    shape: Shape,
    entries: u64,
) -> Result<Vec<Vec<Entry>>, Memory> {
    let mut ring = servers_of(alloc, set)?;
    run(alloc, ring.as_mut_slice(), shape, entries)?;
    histories_of(alloc, ring.as_slice())
}

/// The world that is woven of so many entries of the set's servers.
fn woven_over(
    alloc: Global,
    set: &ChainSet,
    shape: Shape,
    entries: u64,
) -> Result<Box<World>, Memory> {
    let histories = ran(alloc, set, shape, entries)?;
    if histories.len() != usize::from(set.servers()) {
        return Err(Memory);
    }
    match weave(alloc, set, histories, &[]) {
        Ok(world) => Ok(Box::new(alloc, world)?),
        Err(_) => Err(Memory),
    }
}

/// The world that is woven of so many entries.
fn woven(alloc: Global, shape: Shape, entries: u64) -> Result<Box<World>, Memory> {
    let set = set_of(alloc, shape.text())?;
    woven_over(alloc, &set, shape, entries)
}

/// How many entries a world has that is woven of so many entries of that shape.
pub fn weave_all(alloc: Global, shape: Shape, entries: u64) -> Result<u64, Memory> {
    let world = woven(alloc, shape, entries)?;
    Ok(world.len() as u64)
}

/// The first server loses the latter half of its history.
fn lose_half(histories: &mut [Vec<Entry>]) {
    if let Some(first) = histories.first_mut() {
        let half = first.len() / 2;
        first.truncate(half);
    }
}

/// How many of these entries fit together.
fn fitting(alloc: Global, set: &ChainSet, histories: Vec<Vec<Entry>>) -> Result<u64, Memory> {
    if histories.len() != usize::from(set.servers()) {
        return Err(Memory);
    }
    let Ok(counts) = cut(alloc, set, histories) else {
        return Err(Memory);
    };
    let mut fitting: u64 = 0;
    for count in counts.as_slice() {
        fitting = fitting.saturating_add(*count as u64);
    }
    Ok(fitting)
}

/// How many of so many entries fit together, where the first server has lost the latter half of its
/// own.
pub fn cut_all(alloc: Global, shape: Shape, entries: u64) -> Result<u64, Memory> {
    let set = set_of(alloc, shape.text())?;
    let mut histories = ran(alloc, &set, shape, entries)?;
    lose_half(histories.as_mut_slice());
    fitting(alloc, &set, histories)
}

/// How many chains the order has that explains the world, or the cycle that tells why none does.
fn explained(alloc: Global, world: &World) -> Result<u64, Memory> {
    match explain_by_search(alloc, world)? {
        Some(Explained::Order(chains) | Explained::Cycle(chains)) => Ok(chains.len() as u64),
        None => Err(Memory),
    }
}

/// Weaves the same, and explains the world: how many chains the order or the cycle has.
pub fn explain_all(alloc: Global, shape: Shape, entries: u64) -> Result<u64, Memory> {
    let world = woven(alloc, shape, entries)?;
    explained(alloc, &world)
}
