//! Random runs over three servers, whose stores stop again and again.
use crate::caller::Caller;
use crate::luck::Luck;
use crate::reopening::{keepers_of, open_all, reopen_some, serve_all};
use crate::steps::{settle, step};
use crate::stopping::Stopping;
use crate::torn::Tearing;
use lynx_fixtures::texts::set_of;
use lynx_names::{Memory, TableId};
use lynx_order::{Explained, explain};
use lynx_server::Server;
use lynx_set::ChainSet;
use lynx_store::SqlKeeper;
use lynx_weave::{ToldItem, gather};
use lynx_world::World;
use sqlite::FileStore;
use sqlite_disk::{Fuse, Memory as File};
use std::alloc::Global;

/// Three programs bring amounts in, one at each server; four carry amounts on, over two or three
/// servers, some back to where they began; and four mark or read what others mark. It is accepted.
const CARRYING: &str =
    "lynx 1\nservers 3\ntable acct\nshard 0 999 0\nshard 1000 1999 1\nshard 2000 18446744073709551615 2\ntable mark\nshard 0 9 0\nshard 10 19 1\nshard 20 18446744073709551615 2\nprogram seed n\nhop 0\nadd acct 0 n\nend\nprogram fill n\nhop 1\nadd acct 1001 n\nend\nprogram fund n\nhop 2\nadd acct 2002 n\nend\nprogram pay n\nhop 0\nget x acct 0\nneed x >= n\nsub acct 0 n\nhop 1\nadd acct 1000 n\nend\nprogram round n\nhop 0\nget x acct 0\nneed x >= n\nsub acct 0 n\nhop 1\nget y acct 1000\nhop 2\nadd acct 2000 n\nend\nprogram trip n\nhop 1\nget x acct 1001\nneed x >= n\nsub acct 1001 n\nhop 2\nadd acct 2001 n\nhop 1\nget y acct 1001\nend\nprogram back n\nhop 2\nget x acct 2002\nneed x >= n\nsub acct 2002 n\nhop 0\nget y acct 2\nhop 1\nadd acct 1002 n\nend\nprogram look n\nhop 0\nadd mark 0 n\nhop 1\nget y mark 10\nend\nprogram see n\nhop 0\nadd mark 0 n\nhop 2\nget z mark 20\nend\nprogram left v\nhop 1\nset mark 10 v\nend\nprogram right v\nhop 2\nset mark 20 v\nend\n";

/// How many things happen in a run, and how many callers there are.
const STEPS: u64 = 400;

const CALLERS: u64 = 4;

/// What came of a run.
#[derive(Clone, Copy, Debug)]
struct Ended {
    stops: u64,
    begun: usize,
    is_right: bool,
}

/// What the callers know at the end.
#[derive(Drop)]
struct Known {
    begun: usize,
    brought: u64,
    told: Vec<Vec<ToldItem>>,
}

fn callers(alloc: Global) -> Result<Vec<Caller>, Memory> {
    let mut callers = Vec::new(alloc);
    for client in 0..CALLERS {
        callers.push(Caller::new(alloc, client))?;
    }
    Ok(callers)
}

fn known_by(alloc: Global, callers: Vec<Caller>) -> Result<Known, Memory> {
    let (mut begun, mut brought) = (0usize, 0u64);
    let mut told = Vec::new(alloc);
    for caller in callers {
        begun = begun.saturating_add(caller.begun());
        brought = brought.saturating_add(caller.brought());
        told.push(caller.into_told())?;
    }
    Ok(Known {
        begun,
        brought,
        told,
    })
}

/// The sum of the cells of table 0.
fn total(cells: &[(TableId, u64, u64)]) -> u64 {
    let mut total = 0u64;
    for &(table, _, value) in cells {
        if table.number() == 0 {
            total = total.saturating_add(value);
        }
    }
    total
}

/// Whether just so many chains explain the world.
fn is_explained(alloc: Global, world: &World, begun: usize) -> Result<bool, Memory> {
    match explain(alloc, world)? {
        Explained::Order(chains) => Ok(chains.len() == begun),
        Explained::Cycle(_) => Ok(false),
    }
}

/// Whether what the keepers keep gathers to a world in which all that was told stands, each chain
/// that was asked began once, and all that was brought is there.
fn is_gathered<K: Stopping>(
    alloc: Global,
    set: &ChainSet,
    keepers: &mut [K],
    known: &Known,
) -> Result<bool, Memory> {
    if keepers.len() != usize::from(set.servers()) {
        return Ok(false);
    }
    let Ok(world) = gather(alloc, set, keepers, known.told.as_slice()) else {
        return Ok(false);
    };
    let cells = world.cells(alloc)?;
    Ok(total(cells.as_slice()) == known.brought && is_explained(alloc, &world, known.begun)?)
}

/// So many things happen, while stores stop. How often they stopped.
fn wander<K: Stopping>(
    alloc: Global,
    set: &ChainSet,
    callers: &mut [Caller],
    luck: &mut Luck,
) -> Result<(Vec<Server<K>>, u64), Memory> {
    let mut stops = 0u64;
    let mut servers: Vec<Server<K>> = open_all(alloc, set, luck, &mut stops)?;
    for _ in 0..STEPS {
        let caller = luck.below(CALLERS) as usize;
        if caller < callers.len() {
            step(alloc, set, &mut servers, &mut callers[caller], luck)?;
        }
        servers = reopen_some(alloc, set, servers, luck, &mut stops)?;
    }
    Ok((servers, stops))
}

/// A run with that start.
fn run<K: Stopping>(alloc: Global, start: u64) -> Result<Ended, Memory> {
    let set = set_of(alloc, CARRYING)?;
    let mut luck = Luck::new(start);
    let mut callers = callers(alloc)?;
    let (servers, stops) = wander::<K>(alloc, &set, &mut callers, &mut luck)?;
    let keepers = keepers_of(alloc, &set, servers, &mut luck)?;
    let mut servers = serve_all(alloc, &set, keepers)?;
    let is_settled = settle(alloc, &set, &mut servers, &mut callers, &mut luck)?;
    let mut keepers = keepers_of(alloc, &set, servers, &mut luck)?;
    let known = known_by(alloc, callers)?;
    Ok(Ended {
        stops,
        begun: known.begun,
        is_right: is_settled && is_gathered(alloc, &set, &mut keepers, &known)?,
    })
}

/// A run over stores on such disks.
fn run_on<D: Tearing>(alloc: Global, start: u64) -> Result<Ended, Memory> {
    run::<SqlKeeper<FileStore<D>>>(alloc, start)
}

#[test]
fn stores_stop_again_and_again(rt: HostRuntime) -> Result<(), Memory> {
    for number in 1..=32u64 {
        let start = number * 0x9e37_79b9;
        let ended = run_on::<Fuse<File>>(rt.alloc(), start)?;
        assert!(rt;
            ended.is_right && ended.stops >= 10 && ended.begun >= 10,
            "{number}: {ended:?}"
        );
    }
    Ok(())
}
