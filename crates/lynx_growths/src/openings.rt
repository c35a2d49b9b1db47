//! Calls that consume what they are given, and are given it anew.
use crate::payments::{payee_keeper, payer, payer_keeper};
use crate::tried::{Called, done, of_result};
use lynx_entry::Entry;
use lynx_fixtures::made::{boxed, entries};
use lynx_fixtures::payments::{AT_FIRST, AT_SECOND};
use lynx_keep::{KeepFault, Keeper, MemoryKeeper};
use lynx_names::{Memory, ServerId, TryCopy};
use lynx_server::{OpenFault, Server, rebuild};
use lynx_set::ChainSet;
use lynx_weave::{GatherFault, WeaveFault, gather, weave};
use lynx_world::{World, empty_keepers};
use std::alloc::Global;

/// A call that consumes what it is given.
#[derive(Clone, Copy)]
pub enum OpeningCall {
    /// A server is opened over what a keeper keeps.
    Open,
    /// It is opened again.
    Restart,
    /// A server is made of its history.
    Rebuild,
    /// A new world is made.
    World,
    /// Histories are woven.
    Weave,
    /// What keepers keep is gathered.
    Gather,
    /// A keeper lends what it keeps.
    Load,
}

/// What an opening came to.
fn opened(answer: Result<Server<MemoryKeeper>, OpenFault>) -> Called {
    match answer {
        Ok(server) => done(server),
        Err(OpenFault::Memory) => Called::Refused,
        Err(_) => Called::Other,
    }
}

/// What both keep.
fn keepers(alloc: Global, set: &ChainSet) -> Result<[MemoryKeeper; 2], Memory> {
    let first = payer_keeper(alloc, set)?;
    Ok([first, payee_keeper(alloc, set)?])
}

/// What both did.
fn histories(alloc: Global) -> Result<Vec<Vec<Entry>>, Memory> {
    let mut histories = Vec::new(alloc);
    for parts in [AT_FIRST, AT_SECOND] {
        histories.push(entries(alloc, parts)?)?;
    }
    Ok(histories)
}

fn open(alloc: Global, set: &ChainSet) -> Result<Called, Memory> {
    let keeper = payer_keeper(alloc, set)?;
    Ok(opened(Server::open(alloc, set, ServerId::first(), keeper)))
}

fn restart(alloc: Global, set: &ChainSet) -> Result<Called, Memory> {
    let server = payer(alloc, set)?;
    Ok(opened(server.restart(alloc)))
}

fn make_of_history(alloc: Global, set: &ChainSet) -> Result<Called, Memory> {
    let history = entries(alloc, AT_FIRST)?;
    Ok(opened(rebuild(alloc, set, ServerId::first(), history)))
}

fn new_world(alloc: Global, set: &ChainSet) -> Result<Called, Memory> {
    let keepers = empty_keepers(alloc, set)?;
    let set = set.copy(alloc)?;
    Ok(of_result(World::new(alloc, set, keepers)))
}

fn weave_both(alloc: Global, set: &ChainSet) -> Result<Called, Memory> {
    let histories = histories(alloc)?;
    if histories.len() != usize::from(set.servers()) {
        return Ok(Called::Other);
    }
    match weave(alloc, set, histories, &[]) {
        Ok(world) => Ok(done(world)),
        Err(WeaveFault::Memory) => Ok(Called::Refused),
        Err(_) => Ok(Called::Other),
    }
}

/// What these keep is gathered.
fn gather_of(alloc: Global, set: &ChainSet, keepers: &mut [MemoryKeeper]) -> Called {
    if keepers.len() != usize::from(set.servers()) {
        return Called::Other;
    }
    match gather(alloc, set, keepers, &[]) {
        Ok(world) => done(world),
        Err(GatherFault::Memory) => Called::Refused,
        Err(_) => Called::Other,
    }
}

fn gather_both(alloc: Global, set: &ChainSet) -> Result<Called, Memory> {
    let mut keepers = boxed(alloc, keepers(alloc, set))?;
    Ok(gather_of(alloc, set, keepers.as_mut_slice()))
}

fn load(alloc: Global, set: &ChainSet) -> Result<Called, Memory> {
    let mut keeper = boxed(alloc, payer_keeper(alloc, set))?;
    match keeper.load(alloc) {
        Ok(loaded) => Ok(done(loaded)),
        Err(KeepFault::Memory) => Ok(Called::Refused),
        Err(KeepFault::Failed) => Ok(Called::Other),
    }
}

/// Makes it once, of what it is given anew.
pub fn make(alloc: Global, call: OpeningCall, set: &ChainSet) -> Result<Called, Memory> {
    match call {
        OpeningCall::Open => open(alloc, set),
        OpeningCall::Restart => restart(alloc, set),
        OpeningCall::Rebuild => make_of_history(alloc, set),
        OpeningCall::World => new_world(alloc, set),
        OpeningCall::Weave => weave_both(alloc, set),
        OpeningCall::Gather => gather_both(alloc, set),
        OpeningCall::Load => load(alloc, set),
    }
}
