//! What can still be read of copies of stores, some of which may be damaged or missing.
ghost use Rattle.std.specs.Prelude.{◌≡◌, ℕ, IfNone, IfOk, IfSome, length, slice_get};
ghost use Rattle.sqlite.specs.Held.{state};
ghost use Rattle.lynx_cli.specs.Copied.{AreFoundIn, IsFound, IsFoundAt, IsLostAt};
ghost use Rattle.lynx_entry.specs.Entry.{History};
ghost use Rattle.lynx_store_files.specs.Paths.{store_path};
ghost use Rattle.lynx_weave.specs.Rebuilt.{histories_in};

use crate::adding::add;
use crate::fault::Fault;
use lynx_entry::Entry;
use lynx_names::ServerId;
use lynx_names::limits::MAX_SERVERS;
use lynx_set::ChainSet;
use lynx_sql::Rising;
use lynx_store::{Salvaged, StoreFault, salvage};
use lynx_store_files::{Copies, CopyFault, store_path};
use sqlite::Connection;
use std::alloc::Global;

/// What was found of the stores of a folder: the set that they are of, and for each of its servers
/// the first entries of its copy.
#[derive(Drop)]
pub(crate) struct Found {
    pub(crate) set: ChainSet,
    pub(crate) entries: Vec<Vec<Entry>>,
}

/// A copy of the store of that server in the folder. None where it isn't there, or is no
/// database's, or a page of it can't be read.
fn copy_of<'a, C, S: Copies<C>>(
    alloc: Global,
    copies: &S,
    folder: &str,
    server: ServerId,
) -> Result<Option<C>, Fault<'a>>
    ensures copied { IfOk result (λ found. IfSome found
        (S.copied_from (store_path folder.now server))) }
    ensures uncopied { IfOk result (λ found. IfNone found
        (S.uncopied (store_path folder.now server))) }
{
    let Ok(path) = store_path(alloc, folder, server) else {
        return Err(Fault::Memory);
    };
    match copies.copy(path.as_str()) {
        Ok(copy) => Ok(Some(copy)),
        Err(CopyFault::Unread | CopyFault::Damaged | CopyFault::Broken) => Ok(None),
        Err(CopyFault::Store) => Err(Fault::of_store(server, StoreFault::Store)),
        Err(CopyFault::Memory) => Err(Fault::Memory),
    }
}

/// What can be read of the copy of that server. None where nothing can.
fn salvaged_of<'a, C: Rising + Drop, S: Copies<Connection<C>>>(
    alloc: Global,
    copies: &S,
    folder: &str,
    server: ServerId,
) -> Result<Option<Salvaged>, Fault<'a>>
    ensures found { IfOk result (λ found. IfSome found (λ held. IsFoundAt S.copied_from
        (λ conn. state C.Store conn) held.set server (store_path folder.now server)
        held.entries.items)) }
    ensures lost { IfOk result (λ found. IfNone found (IsLostAt S.copied_from S.uncopied
        (λ conn. state C.Store conn) (store_path folder.now server))) }
{
    let Some(mut copy) = copy_of(alloc, copies, folder, server)? else {
        return Ok(None);
    };
    match salvage(alloc, &mut copy) {
        Ok(found) if found.server == server => Ok(Some(found)),
        Ok(_) => Err(Fault::of_store(server, StoreFault::OtherSet)),
        Err(StoreFault::Damaged) => Ok(None),
        Err(fault) => Err(Fault::of_store(server, fault)),
    }
}

/// The set of the first copy of which something can be read.
fn set_of<'a, C: Rising + Drop, S: Copies<Connection<C>>>(
    alloc: Global,
    copies: &S,
    folder: &str,
) -> Result<ChainSet, Fault<'a>>
    ensures { IfOk result (λ set. (source : ℕ) × ((first : History) × IsFoundAt S.copied_from
        (λ conn. state C.Store conn) set source (store_path folder.now source) first)) }
{
    for number in 0..MAX_SERVERS {
        if let Some(found) = salvaged_of(alloc, copies, folder, ServerId::at(number))? {
            return Ok(found.set);
        }
    }
    Err(Fault::of_store(ServerId::first(), StoreFault::Damaged))
}

/// The first entries of the copy of that server of the set, none where nothing can be read of it.
fn entries_of<'a, C: Rising + Drop, S: Copies<Connection<C>>>(
    alloc: Global,
    copies: &S,
    folder: &str,
    set: &ChainSet,
    server: ServerId,
) -> Result<Vec<Entry>, Fault<'a>>
    ensures { IfOk result (λ entries. IsFound S.copied_from S.uncopied (λ conn. state C.Store conn)
        set.now server (store_path folder.now server) entries.items) }
{
    match salvaged_of(alloc, copies, folder, server)? {
        Some(found) if found.set.is_same(set) => Ok(found.entries),
        Some(_) => Err(Fault::of_store(server, StoreFault::OtherSet)),
        None => Ok(Vec::new(alloc)),
    }
}

/// The first entries of the copy of each server of the set.
fn entries_of_all<'a, C: Rising + Drop, S: Copies<Connection<C>>>(
    alloc: Global,
    copies: &S,
    folder: &str,
    set: &ChainSet,
) -> Result<Vec<Vec<Entry>>, Fault<'a>>
    ensures many { IfOk result (λ all. length all.items ≡ set.now.servers) }
    ensures each { IfOk result (λ all. (server : ℕ) → IfSome (slice_get all.items server)
        (λ entries. IsFound S.copied_from S.uncopied (λ conn. state C.Store conn) set.now server
        (store_path folder.now server) entries.items)) }
{
    let mut all = Vec::new(alloc);
    for number in 0..set.servers() {
        let entries = entries_of(alloc, copies, folder, set, ServerId::at(number))?;
        add(&mut all, entries)?;
    }
    Ok(all)
}

/// What can still be read of the copies of stores in the folder. One that is missing, or of which
/// nothing can be read, has no entries; there is one at least of which something can.
pub(crate) fn found_in<'a, C: Rising + Drop, S: Copies<Connection<C>>>(
    alloc: Global,
    copies: &S,
    folder: &str,
) -> Result<Found, Fault<'a>>
    ensures many { IfOk result (λ found. length found.entries.items ≡ found.set.servers) }
    ensures are { IfOk result (λ found. AreFoundIn S.copied_from S.uncopied
        (λ conn. state C.Store conn) folder.now found.set (histories_in found.entries.items)) }
{
    let set = set_of(alloc, copies, folder)?;
    let entries = entries_of_all(alloc, copies, folder, &set)?;
    Ok(Found { set, entries })
}
