//! New stores of histories.
ghost use Rattle.std.specs.Prelude.{◌≡◌, IfOk, OnOk, length};
ghost use Rattle.lynx_weave.specs.Cuts.{fronts};
ghost use Rattle.lynx_weave.specs.Rebuilt.{histories_in};
ghost use Rattle.lynx_weave.specs.Servers.{histories_of};
ghost use Rattle.lynx_restore.specs.Restored.{AreStored, AreWithin, IsFilled, IsStored};

use crate::copying::copy_fronts;
use crate::fault::RestoreFault;
use crate::refilling::refill;
use lynx_entry::Entry;
use lynx_keep::{BatchKeeper, Keeper};
use lynx_names::ServerId;
use lynx_server::Server;
use lynx_set::ChainSet;
use lynx_store_files::Stores;
use std::alloc::Global;

/// Has the server, over a keeper just opened, do what these entries did.
fn fill<L: BatchKeeper + Drop>(
    alloc: Global,
    set: &ChainSet,
    server: ServerId,
    keeper: L,
    front: &[Entry],
) -> Result<L, RestoreFault>
    ensures { IfOk result (IsFilled L.terms set.now keeper front.now) }
{
    let opened = match Server::open(alloc, set, server, keeper) {
        Ok(opened) => opened,
        Err(fault) => return Err(RestoreFault::of_contents(server, fault)),
    };
    if !opened.history().is_empty() {
        return Err(RestoreFault::Taken { server });
    }
    match refill(alloc, opened.hold_back(alloc), front) {
        Ok(filled) => Ok(filled.into_keeper().into_inner()),
        Err(fault) => Err(RestoreFault::of_filling(server, fault)),
    }
}

/// Makes a store for the server with just these entries, and closes it.
fn store<L: BatchKeeper + Drop, S: Stores<L>>(
    alloc: Global,
    set: &ChainSet,
    server: ServerId,
    stores: &S,
    folder: &str,
    front: &[Entry],
) -> Result<(), RestoreFault>
    ensures { OnOk result (IsStored L.terms S.store_terms folder.now set.now server front.now) }
{
    let keeper = match stores.open(folder, set, server) {
        Ok(keeper) => keeper,
        Err(fault) => return Err(RestoreFault::of_store(server, fault)),
    };
    let filled = fill(alloc, set, server, keeper, front)?;
    match stores.close(filled) {
        Ok(()) => Ok(()),
        Err(fault) => Err(RestoreFault::of_store(server, fault)),
    }
}

/// Makes a new store in the folder for each server of the set, by number, of just that history and
/// the cells that it gives, and closes it. The folder has no stores of the set yet: a store that is
/// there and has entries is told as Taken. Where an entry isn't lawful at its server after those
/// before it, the store is told as damaged.
///
/// It holds the entries and the cells of one server at a time. Each entry takes the work of its hop
/// and a few look-ups, and each 64 entries of a server take one commit.
pub fn store_histories<L: BatchKeeper + Drop, S: Stores<L>>(
    alloc: Global,
    set: &ChainSet,
    histories: &[Vec<Entry>],
    stores: &S,
    folder: &str,
) -> Result<(), RestoreFault>
    requires { length histories.now ≡ set.now.servers }
    ensures { OnOk result
        (AreStored L.terms S.store_terms folder.now set.now (histories_in histories.now)) }
{
    for number in 0..set.servers() {
        let history = histories[usize::from(number)].as_slice();
        store(alloc, set, ServerId::at(number), stores, folder, history)?;
    }
    Ok(())
}

/// Makes a store for each server of the set, in order, with so many of its first entries.
pub(crate) fn store_all<K: Keeper, L: BatchKeeper + Drop, S: Stores<L>>(
    alloc: Global,
    set: &ChainSet,
    servers: &[Server<K>],
    counts: &[usize],
    stores: &S,
    folder: &str,
) -> Result<(), RestoreFault>
    requires servers { length servers.now ≡ set.now.servers }
    requires many { length counts.now ≡ length servers.now }
    requires within { AreWithin counts.now (histories_of servers.now) }
    ensures { OnOk result (AreStored L.terms S.store_terms folder.now set.now
        (fronts counts.now (histories_of servers.now))) }
{
    let fronts = copy_fronts(alloc, servers, counts)?;
    store_histories(alloc, set, fronts.as_slice(), stores, folder)
}
