//! New stores of the greatest world below what was found of servers whose copies may be damaged or
//! missing.
ghost use Rattle.std.specs.Prelude.{◌≡◌, ◌≤◌, ◌∷◌, ◌++◌, [], IfOk, OnOk, length, take};
ghost use Rattle.lynx_weave.specs.Rebuilt.{histories_in};
ghost use Rattle.lynx_weave.specs.Servers.{histories_of};
ghost use Rattle.lynx_restore.specs.Longest.{AreLongest, IsLongest, IsLongestLawful, IsRestoredLongest, of_found};
ghost use Rattle.lynx_restore.specs.Restored.{AreWithin, restored_of, undone_of};

use crate::copying::{copy_history, cut_counts};
use crate::fault::RestoreFault;
use crate::restored::{Restored, RestoredServer};
use crate::storing::store_all;
use crate::summing::sum_up;
use lynx_entry::Entry;
use lynx_keep::{BatchKeeper, MemoryKeeper};
use lynx_names::{Memory, ServerId};
use lynx_server::{OpenFault, Server, first_unlawful, rebuild};
use lynx_set::ChainSet;
use lynx_store_files::Stores;
use std::alloc::Global;

/// How many of the entries are lawful, up to the first that isn't.
fn lawful_count(
    alloc: Global,
    set: &ChainSet,
    server: ServerId,
    found: &[Entry],
) -> Result<usize, Memory>
    ensures within { IfOk result (λ count. count ≤ length found.now) }
    ensures longest { IfOk result (λ count.
        IsLongestLawful set.now server found.now (take count found.now)) }
{
    match first_unlawful(alloc, set, server, found)? {
        Some(place) => Ok(place as usize),
        None => Ok(found.len()),
    }
}

/// The server that did these entries, up to the first that isn't lawful.
fn rebuild_longest(
    alloc: Global,
    set: &ChainSet,
    server: ServerId,
    found: &[Entry],
) -> Result<Server<MemoryKeeper>, RestoreFault>
    ensures { IfOk result (IsLongest set.now server found.now) }
{
    let count = lawful_count(alloc, set, server, found)?;
    let front = copy_history(alloc, &found[..count])?;
    match rebuild(alloc, set, server, front) {
        Ok(rebuilt) => Ok(rebuilt),
        Err(OpenFault::Memory) => Err(RestoreFault::Memory),
        Err(fault) => Err(RestoreFault::Copy { server, fault }),
    }
}

/// One server more.
fn add(servers: &mut Vec<Server<MemoryKeeper>>, rebuilt: Server<MemoryKeeper>) -> Result<(), Memory>
    ensures { OnOk result (servers.new.items ≡ servers.old.items ++ rebuilt ∷ []) }
{
    servers.push(rebuilt)?;
    Ok(())
}

/// The servers of the set, in order.
fn rebuild_all(
    alloc: Global,
    set: &ChainSet,
    found: &[Vec<Entry>],
) -> Result<Vec<Server<MemoryKeeper>>, RestoreFault>
    requires { length found.now ≡ set.now.servers }
    ensures { IfOk result (λ servers.
        AreLongest set.now (histories_in found.now) servers.items) }
{
    let mut servers = Vec::new(alloc);
    for number in 0..set.servers() {
        let entries = found[usize::from(number)].as_slice();
        match rebuild_longest(alloc, set, ServerId::at(number), entries) {
            Ok(rebuilt) => add(&mut servers, rebuilt)?,
            Err(fault) => return Err(fault),
        }
    }
    Ok(servers)
}

/// How much is restored of servers, with how much was found of each.
fn of_found(
    alloc: Global,
    found: &[Vec<Entry>],
    told: &[RestoredServer],
) -> Result<Vec<RestoredServer>, Memory>
    requires { length found.now ≡ length told.now }
    ensures { IfOk result (λ servers.
        servers.items ≡ of_found (histories_in found.now) told.now) }
{
    let mut servers = Vec::new(alloc);
    for (number, here) in told.iter().enumerate() {
        servers.push(RestoredServer {
            server: here.server,
            taken: here.taken,
            of: found[number].len() as u64,
        })?;
    }
    Ok(servers)
}

/// What is restored of these servers.
fn sum_up_found(
    alloc: Global,
    found: &[Vec<Entry>],
    servers: &[Server<MemoryKeeper>],
    counts: &[usize],
) -> Result<Restored, Memory>
    requires found { length found.now ≡ length servers.now }
    requires many { length counts.now ≡ length servers.now }
    requires within { AreWithin counts.now (histories_of servers.now) }
    ensures servers { IfOk result (λ restored. restored.servers.items
        ≡ of_found (histories_in found.now) (restored_of counts.now servers.now)) }
    ensures undone { IfOk result (λ restored.
        restored.undone.items ≡ undone_of counts.now servers.now) }
{
    let Restored { servers, undone } = sum_up(alloc, servers, counts)?;
    let servers = of_found(alloc, found, servers.as_slice())?;
    Ok(Restored { servers, undone })
}

/// Makes new stores in the folder, as `restore` does, of what was found of each server of the set:
/// all entries of its copy, those before a damage, or none where it is missing. Of each server the
/// first entries are taken, up to one that isn't lawful there after those before it, and of these
/// as many as fit together.
///
/// For each server it is told how many entries were found, lawful or not. What is undone are lawful
/// entries alone: of one that isn't lawful, and of those behind it, it isn't known whether they
/// ever were the server's. So clients may have been answered more than is told.
///
/// It holds the histories in memory a few times over, and takes about four times as long as opening
/// servers over them, and a commit for each 64 entries of a server.
pub fn restore_longest<L: BatchKeeper + Drop, S: Stores<L>>(
    alloc: Global,
    set: &ChainSet,
    found: Vec<Vec<Entry>>,
    stores: &S,
    folder: &str,
) -> Result<Restored, RestoreFault>
    requires { length found.items ≡ set.now.servers }
    ensures { IfOk result
        (IsRestoredLongest L.terms S.store_terms folder.now set.now (histories_in found.items)) }
{
    let servers = rebuild_all(alloc, set, found.as_slice())?;
    let servers = servers.as_slice();
    let counts = cut_counts(alloc, set, servers)?;
    let restored = sum_up_found(alloc, found.as_slice(), servers, counts.as_slice())?;
    store_all(alloc, set, servers, counts.as_slice(), stores, folder)?;
    Ok(restored)
}
