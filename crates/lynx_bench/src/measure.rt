//! The work that is measured: payments from one server to another, and their encodings.
use crate::chains::{Start, begin, deliver};
use crate::encodings::{encode_all, feed_all};
use crate::fault::Fault;
use crate::ring::{cut_all, explain_all, servers_of, weave_all};
use crate::shape::{Shape, set_of};
use crate::stores::{StoreWork, measure_stores};
use lynx_keep::MemoryKeeper;
use lynx_names::Memory;
use lynx_rules::next_of;
use lynx_server::Server;
use std::alloc::Global;

/// A program of two hops, the first with a need that is met.
const SET: &str =
    "lynx 1\nservers 2\ntable acct\nshard 0 999 0\nshard 1000 18446744073709551615 1\nprogram pay n\nhop 0\nget x acct 0\nneed x >= n\nsub acct 0 n\nhop 1\nadd acct 1000 n\nend\n";

/// What is measured over keepers in memory, or over none.
#[derive(Clone, Copy)]
pub enum MemoryWork {
    /// So many bytes of encodings are written.
    Encode,
    /// About so many bytes of encodings are read, in pieces of that size.
    Feed { piece: usize },
    /// So many entries of that shape come to be, and are woven.
    Weave { shape: Shape },
    /// The same, but the first server loses the latter half of its own: what fits is found.
    Cut { shape: Shape },
    /// The same, and the world is explained.
    Explain { shape: Shape },
    /// So many chains begin at the first server.
    Begin,
    /// They begin, and then their messages are delivered to the second server.
    Deliver,
    /// They begin, and then the first server is opened again.
    Open,
}

/// What is measured.
#[derive(Clone, Copy)]
pub enum Work<'a> {
    InMemory(MemoryWork),
    /// Over stores in that folder, or in memory.
    Stores { work: StoreWork, folder: &'a str },
}

/// A payment of nothing.
const PAY_NOTHING: Start<'static> = Start {
    server: 0,
    program: 0,
    args: &[0],
};

/// How many of so many requests begin a chain at the first of these servers.
fn begin_all(
    alloc: Global,
    servers: &mut [Server<MemoryKeeper>],
    count: u64,
) -> Result<u64, Memory> {
    let Some(first) = servers.first_mut() else {
        return Err(Memory);
    };
    let mut begun: u64 = 0;
    for number in 0..count {
        if begin(alloc, first, PAY_NOTHING, number)? {
            begun = begun.wrapping_add(1);
        }
    }
    Ok(begun)
}

/// How many of the messages that the one server's entries send run a hop at the other.
fn deliver_all(
    alloc: Global,
    from: &Server<MemoryKeeper>,
    to: &mut Server<MemoryKeeper>,
) -> Result<u64, Memory> {
    let mut done: u64 = 0;
    for entry in from.history() {
        if deliver(alloc, to, next_of(alloc, from.set(), entry)?) {
            done = done.wrapping_add(1);
        }
    }
    Ok(done)
}

/// How many entries a server has when it was opened again.
fn open_again(alloc: Global, server: Server<MemoryKeeper>) -> Result<u64, Memory> {
    match server.restart(alloc) {
        Ok(opened) => {
            let entries = opened.history().len() as u64;
            drop(opened);
            Ok(entries)
        }
        Err(_) => Err(Memory),
    }
}

/// The two servers of the set, which have done nothing yet.
fn both(alloc: Global) -> Result<Vec<Server<MemoryKeeper>>, Memory> {
    let set = set_of(alloc, SET)?;
    servers_of(alloc, &set)
}

/// How many of so many requests begin a chain at the first server.
fn measure_begins(alloc: Global, count: u64) -> Result<u64, Memory> {
    let mut servers = both(alloc)?;
    begin_all(alloc, servers.as_mut_slice(), count)
}

/// How many messages of so many chains run a hop at the second server.
fn measure_deliveries(alloc: Global, count: u64) -> Result<u64, Memory> {
    let mut servers = both(alloc)?;
    begin_all(alloc, servers.as_mut_slice(), count)?;
    match servers.as_mut_slice() {
        [first, second] => deliver_all(alloc, first, second),
        _ => Err(Memory),
    }
}

/// How many entries the first server has when it was opened again, after so many requests.
fn measure_opening(alloc: Global, count: u64) -> Result<u64, Memory> {
    let mut servers = both(alloc)?;
    begin_all(alloc, servers.as_mut_slice(), count)?;
    servers.truncate(1);
    match servers.pop() {
        Some(first) => open_again(alloc, first),
        None => Err(Memory),
    }
}

/// Does such work so many times, and counts what was done.
fn measure_in_memory(alloc: Global, work: MemoryWork, count: u64) -> Result<u64, Memory> {
    match work {
        MemoryWork::Encode => encode_all(alloc, count),
        MemoryWork::Feed { piece } => feed_all(alloc, piece, count),
        MemoryWork::Weave { shape } => weave_all(alloc, shape, count),
        MemoryWork::Cut { shape } => cut_all(alloc, shape, count),
        MemoryWork::Explain { shape } => explain_all(alloc, shape, count),
        MemoryWork::Begin => measure_begins(alloc, count),
        MemoryWork::Deliver => measure_deliveries(alloc, count),
        MemoryWork::Open => measure_opening(alloc, count),
    }
}

/// Does the work so many times, and counts what was done.
pub fn measure(rt: &HostRuntime, work: Work<'_>, count: u64) -> Result<u64, Fault> {
    match work {
        Work::InMemory(work) => Ok(measure_in_memory(rt.alloc(), work, count)?),
        Work::Stores { work, folder } => measure_stores(rt, work, folder, count),
    }
}
