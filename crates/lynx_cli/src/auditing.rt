//! Audits of the stores of a folder, by copies in memory: the stores are only read.
ghost use Rattle.std.specs.Prelude.{◌≡◌, ◌⊎◌, ℕ, IfOk, IfSome, OnOk, length, slice_get};
ghost use Rattle.sqlite.specs.Held.{state};
ghost use Rattle.lynx_service.specs.Faults.{missing_fault, store_fault};
ghost use Rattle.lynx_cli.specs.Copied.{IsCopiedAt};
ghost use Rattle.lynx_cli.specs.Folders.{HasAuditedFolder, HasAuditedKeepers, HasListedOwed, HasListedOwedIn, status_of_explained};
ghost use Rattle.lynx_cli.specs.Stopped.{copy_fault, serving_fault};
ghost use Rattle.lynx_store.specs.Heading.{owner_in};
ghost use Rattle.lynx_store_files.specs.Paths.{store_path};

use crate::adding::add;
use crate::fault::Fault;
use crate::hints::Hints;
use crate::storing::{WIPED, tell};
use crate::texts::{DONE, OFFENDING};
use lynx_audit::{audit, list_owed};
use lynx_keep::Keeper;
use lynx_names::ServerId;
use lynx_order::Explained;
use lynx_service::ServeFault;
use lynx_set::ChainSet;
use lynx_sql::Rising;
use lynx_sql::schema::is_empty;
use lynx_store::{SqlKeeper, StoreFault, inspect};
use lynx_store_files::{Copies, CopyFault, store_path};
use sqlite::Connection;
use std::alloc::Global;
use std::fs;
use std::io::{ErrorKind, Write};

/// The stores of a folder: the set that they are of, and a keeper over a copy of each.
#[derive(Drop)]
pub(crate) struct Copied<K> {
    pub(crate) set: ChainSet,
    pub(crate) keepers: Vec<K>,
}

/// What a person at a terminal is told meanwhile.
pub(crate) const READING: &str = "\rlynx: reading what the stores hold\x1b[K";

/// The fault of the file of a store that was not copied.
fn fault_of_copy(fault: CopyFault) -> StoreFault
    ensures { result ≡ copy_fault fault }
{
    match fault {
        CopyFault::Unread | CopyFault::Broken | CopyFault::Store => StoreFault::Store,
        CopyFault::Damaged => StoreFault::Damaged,
        CopyFault::Memory => StoreFault::Memory,
    }
}

/// Whether there is no file at that path.
fn is_absent(rt: &HostRuntime, path: &str) -> bool {
    match fs::metadata(rt, path) {
        Ok(_) => false,
        Err(error) => error.kind() == ErrorKind::NotFound,
    }
}

/// Why the store of that server, at that path, was not copied. One that isn't there beside that of
/// server 0 is lost.
fn uncopied<'a>(rt: &HostRuntime, path: &str, server: ServerId, fault: CopyFault) -> Fault<'a>
    ensures { (result ≡ serving_fault (missing_fault server))
        ⊎ (result ≡ serving_fault (store_fault server (copy_fault fault))) }
{
    if fault == CopyFault::Unread && server.number() > 0 && is_absent(rt, path) {
        return Fault::of_lost(server);
    }
    Fault::of_store(server, fault_of_copy(fault))
}

/// A copy of the store of that server in the folder.
pub(crate) fn copy_of<'a, C, S: Copies<C>>(
    rt: &HostRuntime,
    copies: &S,
    folder: &str,
    server: ServerId,
) -> Result<C, Fault<'a>>
    ensures { IfOk result (S.copied_from (store_path folder.now server)) }
{
    let Ok(path) = store_path(rt.alloc(), folder, server) else {
        return Err(Fault::Memory);
    };
    match copies.copy(path.as_str()) {
        Ok(copy) => Ok(copy),
        Err(fault) => Err(uncopied(rt, path.as_str(), server, fault)),
    }
}

/// The set that the store of server 0 is of.
fn set_of<'a, C: Rising + Drop, S: Copies<Connection<C>>>(
    rt: &HostRuntime,
    copies: &S,
    folder: &str,
) -> Result<ChainSet, Fault<'a>> {
    let first = ServerId::first();
    let mut copy = copy_of(rt, copies, folder, first)?;
    match inspect(rt.alloc(), &mut copy) {
        Ok(held) => Ok(held.set),
        Err(fault) => Err(Fault::of_store(first, fault)),
    }
}

/// A keeper over a copy of the store of that server. A database without tables is a store that is
/// lost, since another one told the set.
fn keeper_of<'a, C: Rising + Drop, S: Copies<Connection<C>>>(
    rt: &HostRuntime,
    copies: &S,
    folder: &str,
    set: &ChainSet,
    server: ServerId,
) -> Result<SqlKeeper<C>, Fault<'a>>
    ensures { IfOk result (λ keeper. IsCopiedAt S.copied_from (λ conn. state C.Store conn) set.now
        server (store_path folder.now server) keeper.conn (owner_in keeper.heading)
        keeper.count) }
{
    let copy = copy_of(rt, copies, folder, server)?;
    if is_empty(copy.schema()) {
        return Err(Fault::of_lost(server));
    }
    match SqlKeeper::open(rt.alloc(), copy, set, server) {
        Ok(keeper) => Ok(keeper),
        Err((fault, _)) => Err(Fault::of_store(server, fault)),
    }
}

/// Keepers over copies of the stores of the set's servers.
fn keepers_of<'a, C: Rising + Drop, S: Copies<Connection<C>>>(
    rt: &HostRuntime,
    copies: &S,
    folder: &str,
    set: &ChainSet,
) -> Result<Vec<SqlKeeper<C>>, Fault<'a>>
    ensures many { IfOk result (λ keepers. length keepers.items ≡ set.now.servers) }
    ensures each { IfOk result (λ keepers. (server : ℕ) → IfSome (slice_get keepers.items server)
        (λ keeper. IsCopiedAt S.copied_from (λ conn. state C.Store conn) set.now server
        (store_path folder.now server) keeper.conn (owner_in keeper.heading)
        keeper.count)) }
{
    let mut keepers = Vec::new(rt.alloc());
    for number in 0..set.servers() {
        let keeper = keeper_of(rt, copies, folder, set, ServerId::at(number))?;
        add(&mut keepers, keeper)?;
    }
    Ok(keepers)
}

/// Copies of the stores of the folder.
pub(crate) fn copied_of<'a, C: Rising + Drop, S: Copies<Connection<C>>>(
    rt: &HostRuntime,
    copies: &S,
    folder: &str,
) -> Result<Copied<SqlKeeper<C>>, Fault<'a>>
    ensures many { IfOk result (λ copied. length copied.keepers.items ≡ copied.set.servers) }
    ensures each { IfOk result (λ copied. (server : ℕ)
        → IfSome (slice_get copied.keepers.items server) (λ keeper. IsCopiedAt S.copied_from
        (λ conn. state C.Store conn) copied.set server (store_path folder.now server)
        keeper.conn (owner_in keeper.heading) keeper.count)) }
{
    let set = set_of(rt, copies, folder)?;
    let keepers = keepers_of(rt, copies, folder, &set)?;
    Ok(Copied { set, keepers })
}

/// The status of an audit that found this.
fn status_of_explained(explained: &Explained) -> u8
    ensures { result ≡ status_of_explained explained.now }
{
    match explained {
        Explained::Order(_) => DONE,
        Explained::Cycle(_) => OFFENDING,
    }
}

/// Audits what these keepers keep.
fn audit_kept<'a, K: Keeper + Drop, W: Write>(
    alloc: Global,
    copied: Copied<K>,
    writer: &mut W,
) -> Result<u8, Fault<'a>>
    requires { length copied.keepers.items ≡ copied.set.servers }
    ensures { IfOk result (HasAuditedKeepers K.terms copied.set copied.keepers.items
        (W.contents writer.old) (W.contents writer.new)) }
{
    let Copied { set, keepers } = copied;
    match audit(alloc, &set, keepers, writer) {
        Ok(explained) => Ok(status_of_explained(&explained)),
        Err(fault) => Err(Fault::of_serving(fault)),
    }
}

/// Lists what is owed by what these keepers keep.
fn list_owed_by<'a, K: Keeper + Drop, W: Write>(
    alloc: Global,
    copied: Copied<K>,
    writer: &mut W,
) -> Result<u8, Fault<'a>>
    requires { length copied.keepers.items ≡ copied.set.servers }
    ensures { IfOk result (HasListedOwed K.terms copied.set copied.keepers.items
        (W.contents writer.old) (W.contents writer.new)) }
{
    let Copied { set, keepers } = copied;
    match list_owed(alloc, &set, keepers, writer) {
        Ok(()) => Ok(DONE),
        Err(fault) => Err(Fault::of_serving(fault)),
    }
}

/// Audits copies of the stores of the folder.
fn audit_copies<'a, C: Rising + Drop, S: Copies<Connection<C>>, W: Write>(
    rt: &HostRuntime,
    copies: &S,
    folder: &str,
    writer: &mut W,
) -> Result<u8, Fault<'a>>
    ensures { IfOk result (HasAuditedFolder S.copied_from (λ conn. state C.Store conn) folder.now
        (W.contents writer.old) (W.contents writer.new)) }
{
    let copied = copied_of(rt, copies, folder)?;
    audit_kept(rt.alloc(), copied, writer)
}

/// Lists what is owed in copies of the stores of the folder.
fn list_owed_of<'a, C: Rising + Drop, S: Copies<Connection<C>>, W: Write>(
    rt: &HostRuntime,
    copies: &S,
    folder: &str,
    writer: &mut W,
) -> Result<u8, Fault<'a>>
    ensures { IfOk result (HasListedOwedIn S.copied_from (λ conn. state C.Store conn) folder.now
        (W.contents writer.old) (W.contents writer.new)) }
{
    let copied = copied_of(rt, copies, folder)?;
    list_owed_by(rt.alloc(), copied, writer)
}

/// Audits the stores of the folder, and tells a person at a terminal so meanwhile.
pub(crate) fn audit_folder<'a, C: Rising + Drop, S: Copies<Connection<C>>, W: Write>(
    rt: &HostRuntime,
    copies: &S,
    folder: &str,
    hints: &mut Hints,
    writer: &mut W,
) -> Result<u8, Fault<'a>>
    ensures { IfOk result (HasAuditedFolder S.copied_from (λ conn. state C.Store conn) folder.now
        (W.contents writer.old) (W.contents writer.new)) }
{
    tell(rt, READING);
    let done = audit_copies(rt, copies, folder, writer);
    tell(rt, WIPED);
    hints.note_store(rt, folder, &done);
    done
}

/// Lists the hops that are owed in the stores of the folder, and tells a person at a terminal so
/// meanwhile.
pub(crate) fn list_owed_in<'a, C: Rising + Drop, S: Copies<Connection<C>>, W: Write>(
    rt: &HostRuntime,
    copies: &S,
    folder: &str,
    hints: &mut Hints,
    writer: &mut W,
) -> Result<u8, Fault<'a>>
    ensures { IfOk result (HasListedOwedIn S.copied_from (λ conn. state C.Store conn) folder.now
        (W.contents writer.old) (W.contents writer.new)) }
{
    tell(rt, READING);
    let done = list_owed_of(rt, copies, folder, writer);
    tell(rt, WIPED);
    hints.note_store(rt, folder, &done);
    done
}
