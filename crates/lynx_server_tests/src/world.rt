//! A worked run of payments, with ample memory: a body that always answers want of memory meets any
//! contract.
use crate::order::is_order;
use lynx_fixtures::cells::are_cells;
use lynx_fixtures::made::{answer, boxed, chain, delivered, request, server, stamp};
use lynx_fixtures::parts::{AnswerParts, DeliveredParts, RequestParts};
use lynx_fixtures::payments::{
    DONE_AT_FOUR, DONE_AT_THREE, PAY, PAY_BEGUN, REPEATED_AT_THREE, SEED, SEED_BEGUN,
};
use lynx_fixtures::texts::{PAYMENT, read};
use lynx_names::Memory;
use lynx_world::{Event, Outcome, World, empty_keepers};
use std::alloc::Global;

/// What happens to a world. All chains are of server 0.
#[derive(Clone, Copy)]
enum Happens {
    /// A request comes to server 0, of a session that was told nothing.
    Begin(RequestParts),
    Deliver(u64, u8),
    Lost(u64, u8),
    Wake(u8),
    Restart(u8),
}

/// What comes of it.
#[derive(Clone, Copy)]
enum Comes {
    Answered(AnswerParts),
    Delivered(u64, u8, DeliveredParts),
    Woken(u64, u8, DeliveredParts),
    NotSent(u64, u8),
    LostNow(u64, u8),
    Idle(u8),
    Restarted(u8),
    NoServer,
}

fn event(alloc: Global, happens: Happens) -> Result<Event, Memory> {
    match happens {
        Happens::Begin(asked) => Ok(Event::Begin {
            server: server(0)?,
            request: request(alloc, asked)?,
            seen: stamp(0)?,
        }),
        Happens::Deliver(index, hop) => Ok(Event::Deliver {
            chain: chain(0, index)?,
            hop,
        }),
        Happens::Lost(index, hop) => Ok(Event::Lost {
            chain: chain(0, index)?,
            hop,
        }),
        Happens::Wake(number) => Ok(Event::Wake {
            server: server(number)?,
        }),
        Happens::Restart(number) => Ok(Event::Restart {
            server: server(number)?,
        }),
    }
}

fn outcome(alloc: Global, comes: Comes) -> Result<Outcome, Memory> {
    match comes {
        Comes::Answered(parts) => Ok(Outcome::Answered(answer(alloc, parts)?)),
        Comes::Delivered(index, hop, parts) => Ok(Outcome::Delivered {
            chain: chain(0, index)?,
            hop,
            delivered: delivered(alloc, parts)?,
        }),
        Comes::Woken(index, hop, parts) => Ok(Outcome::Woken {
            chain: chain(0, index)?,
            hop,
            delivered: delivered(alloc, parts)?,
        }),
        Comes::NotSent(index, hop) => Ok(Outcome::NotSent {
            chain: chain(0, index)?,
            hop,
        }),
        Comes::LostNow(index, hop) => Ok(Outcome::LostNow {
            chain: chain(0, index)?,
            hop,
        }),
        Comes::Idle(number) => Ok(Outcome::Idle {
            server: server(number)?,
        }),
        Comes::Restarted(number) => Ok(Outcome::Restarted {
            server: server(number)?,
        }),
        Comes::NoServer => Ok(Outcome::NoServer),
    }
}

/// A world of payments in which nothing happened yet, in a box.
fn empty(alloc: Global) -> Result<Box<World>, Memory> {
    let set = read(alloc, PAYMENT)?;
    let keepers = empty_keepers(alloc, &set)?;
    boxed(alloc, World::new(alloc, set, keepers))
}

/// Whether that comes of what happens.
fn comes_out(
    alloc: Global,
    world: &mut World,
    happens: Happens,
    comes: Comes,
) -> Result<bool, Memory> {
    let want = boxed(alloc, outcome(alloc, comes))?;
    let event = event(alloc, happens)?;
    Ok(world.apply(alloc, event) == *want)
}

/// The request of a second payment, of 20.
const PAY_AGAIN: RequestParts = RequestParts {
    number: 3,
    args: &[20],
    ..PAY
};

/// A seed of 100 and payments of 30 and 20, the second of which comes first and is forgotten.
const RUN: &[(Happens, Comes)] = &[
    (Happens::Wake(1), Comes::Idle(1)),
    (Happens::Begin(SEED), Comes::Answered(SEED_BEGUN)),
    (Happens::Deliver(0, 1), Comes::NotSent(0, 1)),
    (Happens::Begin(PAY), Comes::Answered(PAY_BEGUN)),
    (
        Happens::Begin(PAY_AGAIN),
        Comes::Answered(AnswerParts::Begun {
            origin: 0,
            index: 2,
            time: 3,
            results: &[70],
            again: false,
        }),
    ),
    (Happens::Lost(1, 1), Comes::LostNow(1, 1)),
    (
        Happens::Deliver(2, 1),
        Comes::Delivered(2, 1, DeliveredParts::Held),
    ),
    (Happens::Restart(1), Comes::Restarted(1)),
    (Happens::Wake(1), Comes::Idle(1)),
    (
        Happens::Deliver(2, 1),
        Comes::Delivered(2, 1, DeliveredParts::Held),
    ),
    (
        Happens::Deliver(1, 1),
        Comes::Delivered(1, 1, DONE_AT_THREE),
    ),
    (Happens::Wake(1), Comes::Woken(2, 1, DONE_AT_FOUR)),
    (
        Happens::Deliver(1, 1),
        Comes::Delivered(1, 1, REPEATED_AT_THREE),
    ),
    (Happens::Wake(2), Comes::NoServer),
];

/// How many rows of the run come out, before one that doesn't or before its end.
fn passed(alloc: Global, world: &mut World) -> Result<usize, Memory> {
    for (count, &(happens, comes)) in RUN.iter().enumerate() {
        if !comes_out(alloc, world, happens, comes)? {
            return Ok(count);
        }
    }
    Ok(RUN.len())
}

/// Whether the run comes out, and 50 are left at each server.
fn is_run(alloc: Global) -> Result<bool, Memory> {
    let mut world = empty(alloc)?;
    let passed = passed(alloc, &mut world)?;
    let cells = world.cells(alloc)?;
    Ok(
        passed == RUN.len()
            && are_cells(cells.as_slice(), &[(0, 0, 50), (0, 1000, 50)])
            && is_order(&world, &[(0, 1), (0, 2), (0, 3), (1, 3), (1, 4)]),
    )
}

#[test]
fn a_run_of_payments(rt: HostRuntime) {
    assert!(rt; is_run(rt.alloc()) == Ok(true));
}
