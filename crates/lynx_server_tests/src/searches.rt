//! What is searched for holds: of random runs the search explains each by itself.
use lynx_entry::{Event, Request};
use lynx_fixtures::made::{program, server};
use lynx_fixtures::texts::read;
use lynx_names::{ChainId, ClientId, Memory, ServerId, Stamp, Values};
use lynx_order::{Explained, explain, explain_by_search};
use lynx_world::{World, empty_keepers};
use std::alloc::Global;

/// Programs that get, set and add, around three servers in both directions.
const AROUND: &str =
    "lynx 1\nservers 3\ntable t\nshard 0 9 0\nshard 10 19 1\nshard 20 18446744073709551615 2\nprogram a\nhop 0\nset t 0 1\nhop 1\nget x t 10\nend\nprogram b\nhop 1\nset t 10 1\nhop 2\nadd t 20 1\nend\nprogram c\nhop 2\nget x t 20\nhop 0\nadd t 0 1\nend\nprogram d\nhop 1\nadd t 10 1\nhop 0\nget x t 0\nend\n";

/// The next of pseudo-random numbers, below a limit.
fn next(state: &mut u64, limit: u64) -> u64 {
    *state = state
        .wrapping_mul(6364136223846793005)
        .wrapping_add(1442695040888963407);
    match (*state >> 33).checked_rem(limit) {
        Some(number) => number,
        None => 0,
    }
}

/// The next of them as a byte.
fn next_byte(state: &mut u64, limit: u64) -> Result<u8, Memory> {
    u8::try_from(next(state, limit)).map_err(|_| Memory)
}

fn next_server(state: &mut u64) -> Result<ServerId, Memory> {
    server(next_byte(state, 3)?)
}

/// A begin of some program at some server, or a delivery of some chain's second hop.
fn event(alloc: Global, state: &mut u64, number: u64) -> Result<Event, Memory> {
    if next(state, 2) == 0 {
        let origin = next_server(state)?;
        let index = next(state, 4);
        return Ok(Event::Deliver {
            chain: ChainId { origin, index },
            hop: 1,
        });
    }
    let program = program(next_byte(state, 4)?)?;
    let server = next_server(state)?;
    Ok(Event::Begin {
        server,
        request: Request {
            client: ClientId::new(1),
            number,
            program,
            args: Values::new(alloc),
        },
        seen: Stamp::zero(),
    })
}

/// A world after some random events.
fn random_world(alloc: Global, seed: u64) -> Result<Box<World>, Memory> {
    let set = read(alloc, AROUND)?;
    let keepers = empty_keepers(alloc, &set)?;
    let mut world = Box::new(alloc, World::new(alloc, set, keepers)?)?;
    let mut state = seed;
    for number in 0..40 {
        let _ = world.apply(alloc, event(alloc, &mut state, number)?);
    }
    Ok(world)
}

/// Whether the search gives what `explain` gives; and whether that is a cycle.
fn search(alloc: Global, seed: u64) -> Result<(bool, bool), Memory> {
    let world = random_world(alloc, seed)?;
    let explained = explain(alloc, &world)?;
    let is_cycle = matches!(explained, Explained::Cycle(_));
    Ok((
        explain_by_search(alloc, &world)? == Some(explained),
        is_cycle,
    ))
}

#[test]
fn the_search_explains_each_run(rt: HostRuntime) -> Result<(), Memory> {
    let mut cycles: u64 = 0;
    for seed in 0..500 {
        let (holds, is_cycle) = search(rt.alloc(), seed)?;
        assert!(rt; holds);
        if is_cycle {
            cycles = cycles.saturating_add(1);
        }
    }
    assert!(rt; 50 < cycles);
    assert!(rt; cycles < 450);
    Ok(())
}
