//! Calls that a server makes of its parts.
ghost use Rattle.lynx_codec.specs.Entries.{IsEntryInRange};

use crate::payments::{payer, payer_keeper};
use crate::tried::{Called, Tried, ended, made_again, of_result};
use crate::values::{changes, is_zero};
use lynx_cells::Changes;
use lynx_entry::Entry;
use lynx_fixtures::made::boxed;
use lynx_fixtures::texts::{PAYMENT, set_of};
use lynx_keep::{KeepFault, Keeper, Loaded, MemoryKeeper};
use lynx_names::limits::MAX_SERVERS;
use lynx_names::{Memory, ServerId, ServerList, TryCopy, learn};
use lynx_seq::Sequencer;
use lynx_server::Server;
use std::alloc::Global;

/// A call on a part of a server.
#[derive(Clone, Copy)]
pub enum PartCall {
    /// A sequencer draws numbers.
    Draw,
    /// A keeper keeps an entry.
    Commit,
    /// A keeper that keeps entries is copied.
    Copy,
}

/// All servers that a set may have.
fn all_servers() -> ServerList {
    ServerList::marked(&[true; MAX_SERVERS as usize])
}

/// A new sequencer draws a number for each server, and takes them back.
fn try_draw(alloc: Global) -> Result<Tried, Memory> {
    let mut sequencer = Sequencer::new();
    match sequencer.draw(alloc, all_servers()) {
        Ok(draw) => {
            draw.give_back(&mut sequencer);
            Ok(Tried::Done)
        }
        Err(Memory) => {
            let is_as_before = sequencer.is_free() && sequencer.number(ServerId::first()) == 0;
            let draw = sequencer.draw(alloc, all_servers())?;
            draw.give_back(&mut sequencer);
            Ok(made_again(is_as_before, Called::Done))
        }
    }
}

/// A keeper keeps the entry.
fn commit(alloc: Global, keeper: &mut MemoryKeeper, entry: &Entry, changes: &Changes) -> Called
    requires { IsEntryInRange entry.now }
{
    match keeper.commit(alloc, entry, changes) {
        Ok(()) => Called::Done,
        Err(KeepFault::Memory) => Called::Refused,
        Err(KeepFault::Failed) => Called::Other,
    }
}

/// Whether there is neither an entry nor a cell.
fn is_nothing(alloc: Global, loaded: &Loaded) -> Result<bool, Memory> {
    Ok(loaded.entries.is_empty() && is_zero(alloc, &loaded.cells)?)
}

/// Whether a keeper kept nothing yet.
fn is_empty(alloc: Global, keeper: &mut MemoryKeeper) -> Result<bool, Memory> {
    match keeper.load(alloc) {
        Ok(loaded) => is_nothing(alloc, &loaded),
        Err(_) => Err(Memory),
    }
}

/// An empty keeper keeps the entry, and again where memory was wanting to it.
fn try_changes(
    alloc: Global,
    keeper: &mut MemoryKeeper,
    entry: &Entry,
    changes: &Changes,
) -> Result<Tried, Memory>
    requires { IsEntryInRange entry.now }
{
    match commit(alloc, keeper, entry, changes) {
        Called::Refused => {
            let is_as_before = is_empty(alloc, keeper)?;
            Ok(made_again(is_as_before, commit(alloc, keeper, entry, changes)))
        }
        answered => Ok(ended(answered)),
    }
}

/// An empty keeper keeps the entry with a change, and again where memory was wanting to it.
fn try_entry(alloc: Global, entry: &Entry) -> Result<Tried, Memory>
    requires { IsEntryInRange entry.now }
{
    let changes = changes(alloc)?;
    let mut keeper = MemoryKeeper::new(alloc);
    try_changes(alloc, &mut keeper, entry, &changes)
}

/// A keeper keeps the first entry of that server.
fn try_first(alloc: Global, server: &Server<MemoryKeeper>) -> Result<Tried, Memory> {
    // By its number and its type the entries of the server are in range.
    learn(server.server().number());
    match server.history().first() {
        Some(entry) => try_entry(alloc, entry),
        None => Err(Memory),
    }
}

/// A keeper keeps the first entry of the payer.
fn try_commit(alloc: Global) -> Result<Tried, Memory> {
    let set = set_of(alloc, PAYMENT)?;
    let payer = boxed(alloc, payer(alloc, &set))?;
    try_first(alloc, &payer)
}

/// The keeper is copied.
fn copy_keeper(alloc: Global, keeper: &MemoryKeeper) -> Tried {
    match of_result(keeper.copy(alloc)) {
        Called::Refused => made_again(true, of_result(keeper.copy(alloc))),
        answered => ended(answered),
    }
}

/// The payer's keeper is copied.
fn try_copy(alloc: Global) -> Result<Tried, Memory> {
    let set = set_of(alloc, PAYMENT)?;
    let keeper = boxed(alloc, payer_keeper(alloc, &set))?;
    Ok(copy_keeper(alloc, &keeper))
}

/// Makes it, and again where memory was wanting to it.
pub fn try_part(alloc: Global, call: PartCall) -> Result<Tried, Memory> {
    match call {
        PartCall::Draw => try_draw(alloc),
        PartCall::Commit => try_commit(alloc),
        PartCall::Copy => try_copy(alloc),
    }
}
