//! The stores of a folder together: which is lost, and which are made.
ghost use Rattle.std.specs.Prelude.{◌≡◌, ◌∷◌, ◌++◌, [], IfErr, IfOk, OnOk, length, position};
ghost use Rattle.std.specs.List.{list_any};
ghost use Rattle.lynx_store_files.specs.Folders.{AreFound, AreKeepers, IsKeeper, StandIn, TellsLost, has_entries, is_lacking, lost_store};

use crate::stores::Stores;
use lynx_names::{Memory, ServerId};
use lynx_set::ChainSet;
use lynx_store::StoreFault;
use std::alloc::Global;
use thiserror::Error;

/// Why the stores of a folder aren't opened.
#[derive(Clone, Copy, Debug, PartialEq, Eq, Error)]
pub enum FolderFault {
    /// The store of that server can't be opened or made.
    #[error("server {server}: {fault}")]
    Store { server: ServerId, fault: StoreFault },
    /// There is no store of that server, and another's has entries.
    #[error("server {server}: its store is missing")]
    Missing { server: ServerId },
    /// Memory is wanting.
    #[error("out of memory")]
    Memory,
}

impl From<Memory> for FolderFault {
    ghost use Rattle.std.specs.Prelude.{◌≡◌};
    ghost use Rattle.lynx_store_files.specs.declared.folder.FolderFault.TheVariants.{Memory as no_memory};

    ghost from_gives = { λ _ told. told ≡ no_memory };

    fn from(_: Memory) -> FolderFault {
        FolderFault::Memory
    }
}

/// Whether there is no store.
fn is_lacking<K>(found: &Option<K>) -> bool
    ensures { result ≡ is_lacking found.now }
{
    found.is_none()
}

/// Whether there is a store that has entries.
fn has_entries<K, S: Stores<K>>(stores: &S, found: &Option<K>) -> bool
    ensures { result ≡ has_entries S.store_terms.count_of found.now }
{
    match found {
        Some(keeper) => stores.entries(keeper) != 0,
        None => false,
    }
}

/// Whether one of the stores has entries.
fn have_entries<K, S: Stores<K>>(stores: &S, found: &[Option<K>]) -> bool
    ensures { result ≡ list_any (has_entries S.store_terms.count_of) found.now }
{
    found.iter().any(|one| has_entries(stores, one))
}

/// The first server that has no store.
fn first_lacking<K>(found: &[Option<K>]) -> Option<usize>
    ensures { result ≡ position is_lacking found.now }
{
    found.iter().position(|one| is_lacking(one))
}

/// The first server that has no store, where the store of another has entries: it had one, and lost
/// it. A folder is new as a whole, or has the stores of all servers.
pub fn lost_store<K, S: Stores<K>>(stores: &S, found: &[Option<K>]) -> Option<usize>
    ensures { result ≡ lost_store S.store_terms.count_of found.now }
{
    if have_entries(stores, found) {
        first_lacking(found)
    } else {
        None
    }
}

/// The keeper of a server: the one that was found, or that of a new store.
fn keeper_of<K: Drop, S: Stores<K>>(
    stores: &S,
    folder: &str,
    set: &ChainSet,
    server: ServerId,
    found: Option<K>,
) -> Result<K, StoreFault>
    ensures { IfOk result (IsKeeper S.store_terms folder.now set.now server found) }
{
    if let Some(keeper) = found {
        return Ok(keeper);
    }
    let keeper = stores.open(folder, set, server)?;
    // None was there a moment ago: what somebody else put there since is left to them.
    if stores.entries(&keeper) != 0 {
        return Err(StoreFault::Store);
    }
    Ok(keeper)
}

/// One keeper more.
fn add<K: Drop>(keepers: &mut Vec<K>, keeper: K) -> Result<(), Memory>
    ensures { OnOk result (keepers.new.items ≡ keepers.old.items ++ keeper ∷ []) }
{
    keepers.push(keeper)?;
    Ok(())
}

/// The keepers of all servers: those that were found, and the others over stores that are made now.
pub fn make_lacking<K: Drop, S: Stores<K>>(
    alloc: Global,
    stores: &S,
    folder: &str,
    set: &ChainSet,
    found: Vec<Option<K>>,
) -> Result<Vec<K>, FolderFault>
    requires { length found.items ≡ set.now.servers }
    ensures made { IfOk result (λ keepers.
        AreKeepers S.store_terms folder.now set.now found.items keepers.items) }
    ensures lost { IfErr result (TellsLost S.store_terms folder.now set.now) }
{
    let mut keepers = Vec::new(alloc);
    let mut found = found.into_iter();
    for number in 0..set.servers() {
        let Some(one) = found.next() else {
            unreachable!()
        };
        let server = ServerId::at(number);
        match keeper_of(stores, folder, set, server, one) {
            Ok(keeper) => add(&mut keepers, keeper)?,
            Err(fault) => return Err(FolderFault::Store { server, fault }),
        }
    }
    Ok(keepers)
}

/// What is found of each server's store in the folder, in order. Nothing is made.
fn find_all<K: Drop, S: Stores<K>>(
    alloc: Global,
    stores: &S,
    folder: &str,
    set: &ChainSet,
) -> Result<Vec<Option<K>>, FolderFault>
    ensures found { IfOk result (λ found. AreFound S.store_terms folder.now set.now found.items) }
    ensures lost { IfErr result (TellsLost S.store_terms folder.now set.now) }
{
    let mut found = Vec::new(alloc);
    for number in 0..set.servers() {
        let server = ServerId::at(number);
        match stores.open_there(folder, set, server) {
            Ok(one) => add(&mut found, one)?,
            Err(fault) => return Err(FolderFault::Store { server, fault }),
        }
    }
    Ok(found)
}

/// The keepers of all servers in the folder, one store opened after the other. Those that aren't
/// there are made once all others are open; where one of these has entries, none is.
pub fn open_folder<K: Drop, S: Stores<K>>(
    alloc: Global,
    stores: &S,
    folder: &str,
    set: &ChainSet,
) -> Result<Vec<K>, FolderFault>
    ensures stand { IfOk result (λ keepers. StandIn S.store_terms folder.now set.now
        keepers.items) }
    ensures lost { IfErr result (TellsLost S.store_terms folder.now set.now) }
{
    let found = find_all(alloc, stores, folder, set)?;
    let Some(place) = lost_store(stores, found.as_slice()) else {
        return make_lacking(alloc, stores, folder, set, found);
    };
    let Some(server) = ServerId::among(set.servers(), place as u64) else {
        unreachable!()
    };
    Err(FolderFault::Missing { server })
}
