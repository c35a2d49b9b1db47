//! A load of payments, and how long it takes.
ghost use Rattle.std.specs.Prelude.{◌≡◌, ◌<◌, ◌+◌};

use crate::fault::Fault;
use crate::payer::{Payer, add_payers, begun_now};
use crate::repeats::counting_gate;
use crate::starting::{CountedFrontend, start};
use crate::texts::{last_hop, payment, seed};
use lynx_cluster::{CloseFault, Closed, Host, Session};
use lynx_codec::Looked;
use lynx_keep::MemoryKeeper;
use lynx_names::ChainId;
use lynx_order::{Explained, explain};
use lynx_world::World;
use std::alloc::{AllocFailed, Global};
use std::sync::Wait;
use std::sync::atomic::Ordering;
use std::thread::Threads;
use std::time::{Clock, Duration, Instant};
use std::{fmt, thread};

/// Looks at the last hop of a server's last payment, at most, with a millisecond between two of
/// them.
pub const MAX_LOOKS: u32 = 600_000;

/// A load: payments by clients of which each has a server of its own, or some that it pays from in
/// turn. A payment goes from an account of its origin to one of the next server, by two hops, or to
/// another of its origin, by one, as it always does where there is one server.
#[derive(Clone, Copy)]
pub struct Load {
    /// Servers, 1 to 16.
    pub servers: u8,
    /// Threads that pay, 1 at least, each by a session of its own.
    pub threads: u8,
    /// Payments of all threads together. Each server has room for 1,000,000 entries, three of them
    /// those of its seed and of what it pays and is paid at the end.
    pub payments: u64,
    /// Of a hundred payments so many go to the next server, evenly spread: 100 and more are all.
    pub across: u8,
    ghost has_servers: { 0 < servers },
}

/// How long a load took, by the monotonic clock.
#[derive(Clone, Copy)]
pub struct Measured {
    /// Payments that were answered as begun, each for the first time.
    pub begun: u64,
    /// From the first begin until all had begun and their threads had ended.
    pub begin: Duration,
    /// From the first begin until the last hops of all were seen, to a millisecond.
    pub done: Duration,
    /// The close, with its audit.
    pub close: Duration,
    /// The search for an order that explains the world of the closed cluster.
    pub explain: Duration,
    /// Messages that came once more when their hop was done.
    pub again: u64,
}

impl fmt::Display for Measured {
    fn fmt<W: fmt::Write>(&self, f: &mut fmt::Formatter<W>) -> fmt::Result {
        write!(
            f,
            "begun {} in {} ms, done {} ms, closed {} ms, explained {} ms, {} messages again",
            self.begun,
            self.begin.as_millis(),
            self.done.as_millis(),
            self.close.as_millis(),
            self.explain.as_millis(),
            self.again
        )
    }
}

/// How many payments of a load began, and when.
#[derive(Clone, Copy)]
struct Carried {
    begun: u64,
    times: Times,
}

/// When a load began, when all its payments had begun, and when all were done.
#[derive(Clone, Copy)]
struct Times {
    first: Instant,
    begun: Instant,
    done: Instant,
}

/// What each server's account is filled with: as much as all payments take, and the last one.
fn amount(load: Load) -> u64
    ensures { load.payments < 18446744073709551615 → result ≡ load.payments + 1 }
{
    load.payments.saturating_add(1)
}

/// Fills the account that each server pays from.
fn seed_all<R: Wait + Clock>(
    rt: &R,
    alloc: Global,
    frontend: &CountedFrontend,
    session: &mut Session,
    load: Load,
) -> Result<(), Fault> {
    for server in 0..load.servers {
        let (client, number) = (session.number(), u64::from(server));
        let request = seed(alloc, client, number, server, load.servers, amount(load))?;
        begun_now(frontend.begin(rt, alloc, session, request))?;
    }
    Ok(())
}

/// Has the clients make their payments, each in a thread of its own.
fn pay<R: Threads + Wait + Clock + Sync>(
    rt: &R,
    alloc: Global,
    frontend: &CountedFrontend,
    payers: &mut [Payer],
) {
    let threads = payers.len().max(1);
    thread::for_each_mut(
        rt,
        payers,
        threads,
        &|_, payer: &mut Payer| {
            payer.pay_all(rt, alloc, frontend);
        },
    );
}

/// Adds the session to the list of those that are handed in. For want of memory it is abandoned.
fn hand_in(session: Session, sessions: &mut Vec<Session>) -> Result<(), Fault> {
    match sessions.push(session) {
        Ok(()) => Ok(()),
        Err(AllocFailed { value }) => {
            value.abandon();
            Err(Fault::Memory)
        }
    }
}

/// Adds the session of a client to the list, and its payments that began to their count.
fn count_in(
    total: Result<u64, Fault>,
    payer: Payer,
    sessions: &mut Vec<Session>,
) -> Result<u64, Fault> {
    let (session, begun) = payer.into_parts();
    hand_in(session, sessions)?;
    Ok(total?.saturating_add(begun?))
}

/// Adds the sessions of all clients to the list, and counts the payments that began.
fn collect(payers: Vec<Payer>, sessions: &mut Vec<Session>) -> Result<u64, Fault> {
    let mut total = Ok(0);
    let mut payers = payers.into_iter();
    while let Some(payer) = payers.next() {
        total = count_in(total, payer, sessions);
    }
    payers.destroy_empty();
    total
}

/// Looks at that hop until it is there.
fn await_hop<R: Wait + Clock>(
    rt: &R,
    alloc: Global,
    frontend: &CountedFrontend,
    session: &mut Session,
    chain: &ChainId,
    hop: u8,
) -> Result<(), Fault> {
    for _ in 0..MAX_LOOKS {
        match frontend.look(rt, alloc, session, *chain, hop)? {
            Looked::Found { .. } => return Ok(()),
            Looked::Absent => thread::sleep(rt, Duration::from_millis(1)),
        }
    }
    Err(Fault::NotDone)
}

/// Begins a last payment from that server to the next.
fn pay_last<R: Wait + Clock>(
    rt: &R,
    alloc: Global,
    frontend: &CountedFrontend,
    session: &mut Session,
    load: Load,
    server: u8,
) -> Result<ChainId, Fault> {
    let number = u64::from(load.servers) + u64::from(server);
    let request = payment(alloc, session.number(), number, server)?;
    begun_now(frontend.begin(rt, alloc, session, request))
}

/// Begins a last payment from each server to the next.
fn pay_last_of_all<R: Wait + Clock>(
    rt: &R,
    alloc: Global,
    frontend: &CountedFrontend,
    session: &mut Session,
    load: Load,
) -> Result<Vec<ChainId>, Fault> {
    let mut chains = Vec::new(alloc);
    for server in 0..load.servers {
        chains.push(pay_last(rt, alloc, frontend, session, load, server)?)?;
    }
    Ok(chains)
}

/// Looks at that hop of each of these chains until it is there. When that was.
fn await_chains<R: Wait + Clock>(
    rt: &R,
    alloc: Global,
    frontend: &CountedFrontend,
    session: &mut Session,
    chains: &[ChainId],
    hop: u8,
) -> Result<Instant, Fault> {
    for chain in chains {
        await_hop(rt, alloc, frontend, session, chain, hop)?;
    }
    Ok(Instant::now(rt)?)
}

/// Begins a last payment from each server, and waits until these are done. Each is the last of its
/// origin, and the next server runs the hops of one origin in its order, so then all are done. When
/// that was seen.
fn await_all<R: Wait + Clock>(
    rt: &R,
    alloc: Global,
    frontend: &CountedFrontend,
    session: &mut Session,
    load: Load,
) -> Result<Instant, Fault> {
    let chains = pay_last_of_all(rt, alloc, frontend, session, load)?;
    let hop = last_hop(load.servers);
    await_chains(rt, alloc, frontend, session, chains.as_slice(), hop)
}

/// Has the clients make their payments: when they began, and when all had ended.
fn pay_timed<R: Threads + Wait + Clock + Sync>(
    rt: &R,
    alloc: Global,
    frontend: &CountedFrontend,
    payers: &mut [Payer],
) -> Result<(Instant, Instant), Fault> {
    let first = Instant::now(rt)?;
    pay(rt, alloc, frontend, payers);
    Ok((first, Instant::now(rt)?))
}

/// Seeds, pays, and waits until all is done. The sessions of the clients are added to the list.
fn carry_by<R: Threads + Wait + Clock + Sync>(
    rt: &R,
    alloc: Global,
    frontend: &CountedFrontend,
    load: Load,
    session: &mut Session,
    sessions: &mut Vec<Session>,
) -> Result<Carried, Fault> {
    seed_all(rt, alloc, frontend, session, load)?;
    let mut payers = Vec::new(alloc);
    let paid = match add_payers(rt, alloc, frontend, load, &mut payers) {
        Ok(()) => pay_timed(rt, alloc, frontend, payers.as_mut_slice()),
        Err(fault) => Err(fault),
    };
    let begun = collect(payers, sessions);
    let (first, all_begun) = paid?;
    let begun = begun?;
    let done = await_all(rt, alloc, frontend, session, load)?;
    Ok(Carried {
        begun,
        times: Times {
            first,
            begun: all_begun,
            done,
        },
    })
}

/// Carries the load by clients with sessions of their own, and one more. All of these are added to
/// the list.
fn carry<R: Threads + Wait + Clock + Sync>(
    rt: &R,
    alloc: Global,
    frontend: &CountedFrontend,
    load: Load,
    sessions: &mut Vec<Session>,
) -> Result<Carried, Fault> {
    let mut session = frontend.session(rt, alloc).ok_or(Fault::Session)?;
    let carried = carry_by(rt, alloc, frontend, load, &mut session, sessions);
    hand_in(session, sessions)?;
    carried
}

/// Nothing, where an order of all chains explains the world.
fn check_order(alloc: Global, world: &World) -> Result<(), Fault> {
    match explain(alloc, world)? {
        Explained::Order(_) => Ok(()),
        Explained::Cycle(_) => Err(Fault::Cycle),
    }
}

/// Nothing, where the world's cells hold together what the servers were seeded with, which they do
/// not before all payments are done. Both sums are modulo 2^64, as those of the cells are.
fn check_sum(alloc: Global, world: &World, load: Load) -> Result<(), Fault> {
    let seeded = amount(load).wrapping_mul(u64::from(load.servers));
    let mut sum: u64 = 0;
    for (_, _, value) in world.cells(alloc)? {
        sum = sum.wrapping_add(value);
    }
    if sum == seeded {
        Ok(())
    } else {
        Err(Fault::Sum)
    }
}

/// What a cluster left that closed well, in a box, which is let go by one call.
pub(crate) fn closed_well(
    alloc: Global,
    closed: Result<Closed<MemoryKeeper>, CloseFault>,
) -> Result<Box<Closed<MemoryKeeper>>, Fault> {
    match closed {
        Ok(closed) => Ok(Box::new(alloc, closed)?),
        Err(fault) => Err(Fault::from(fault)),
    }
}

/// Audits the world of the closed cluster, and tells how long all took.
fn audit<R: Clock>(
    rt: &R,
    alloc: Global,
    load: Load,
    carried: Carried,
    again: u64,
    world: &World,
) -> Result<Measured, Fault> {
    let Carried { begun, times } = carried;
    let closed_at = Instant::now(rt)?;
    check_order(alloc, world)?;
    let explained_at = Instant::now(rt)?;
    check_sum(alloc, world, load)?;
    Ok(Measured {
        begun,
        begin: times.begun.duration_since(times.first),
        done: times.done.duration_since(times.first),
        close: closed_at.duration_since(times.done),
        explain: explained_at.duration_since(closed_at),
        again,
    })
}

/// Carries a load over a cluster that it starts over keepers in memory and closes, and measures how
/// long it takes. All payments begin, all come to their ends, what the sessions were told stands,
/// and an order of all chains explains what the servers did; else it is a fault.
pub fn measure<R: Host>(rt: R, alloc: Global, load: Load) -> Result<Measured, Fault> {
    let (gate, again) = counting_gate(alloc)?;
    let cluster = start(rt, alloc, load.servers, gate)?;
    let mut sessions = Vec::new(alloc);
    let carried = carry(&rt, alloc, cluster.frontend(), load, &mut sessions);
    let closed = closed_well(alloc, cluster.close(&rt, alloc, sessions));
    let carried = carried?;
    let closed = closed?;
    let again = again.load(Ordering::SeqCst);
    audit(&rt, alloc, load, carried, again, &closed.world)
}
