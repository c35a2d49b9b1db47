//! Stores by their files: listed, and upgraded. Both look at a copy first, so that nothing is
//! written to what is no store, or is only read.
ghost use Rattle.std.specs.Prelude.{◌≡◌, IfOk};
ghost use Rattle.std.specs.Io.KnownBytes.{Keeps};
ghost use Rattle.sqlite.specs.Held.{state};
ghost use Rattle.lynx_cli.specs.Folders.{HasShown};

use crate::fault::Fault;
use crate::hints::Hints;
use crate::source::InputFault;
use crate::texts::DONE;
use lynx_keep::Keeper;
use lynx_server::{OpenFault, Server};
use lynx_show::{Detail, ShowFault, check_upgrade, show_store, upgrade_and_tell};
use lynx_sql::Rising;
use lynx_store::{Inspected, SqlKeeper, inspect};
use lynx_store_files::{Copies, CopyFault};
use sqlite::Connection;
use std::alloc::Global;
use std::io::{IsTerminal, Write};

/// Why the store of that file was not copied.
fn uncopied<'a>(store: &'a str, fault: CopyFault) -> Fault<'a>
    ensures unread { fault ≡ CopyFault.Unread → result ≡ Fault.Unread
        (record { name = store.entry }) }
    ensures damaged { fault ≡ CopyFault.Damaged → result ≡ Fault.Store ShowFault.Damaged }
    ensures broken { fault ≡ CopyFault.Broken → result ≡ Fault.Store ShowFault.Store }
    ensures store { fault ≡ CopyFault.Store → result ≡ Fault.Store ShowFault.Store }
    ensures memory { fault ≡ CopyFault.Memory → result ≡ Fault.Memory }
{
    match fault {
        CopyFault::Unread => Fault::of_reading(store, InputFault::Read),
        CopyFault::Damaged => Fault::Store(ShowFault::Damaged),
        CopyFault::Broken | CopyFault::Store => Fault::Store(ShowFault::Store),
        CopyFault::Memory => Fault::Memory,
    }
}

/// A copy of the store of a file, as it is before anything is done to it.
fn copied<'a, C, S: Copies<C>>(copies: &S, store: &'a str) -> Result<C, Fault<'a>>
    ensures { IfOk result (S.copied_from store.entry.now) }
{
    match copies.copy(store) {
        Ok(copy) => Ok(copy),
        Err(fault) => Err(uncopied(store, fault)),
    }
}

/// At which place the entries that a keeper keeps aren't lawful after those before it. None where a
/// server opens over them, and for want of memory.
fn unlawful_in<K: Keeper + Drop>(alloc: Global, held: &Inspected, keeper: K) -> Option<u64> {
    match Server::open(alloc, &held.set, held.server, keeper) {
        Err(OpenFault::Damaged { place }) => Some(place),
        _ => None,
    }
}

/// At which place the entries of a store aren't lawful after those before it, or how many there are
/// where only the cells aren't theirs, and how many there are. None where a server would open it,
/// and for want of memory.
fn unlawful_at<D: Rising + Drop>(alloc: Global, mut copy: Connection<D>) -> Option<(u64, u64)> {
    let held = inspect(alloc, &mut copy).ok()?;
    let keeper = SqlKeeper::open(alloc, copy, &held.set, held.server).ok()?;
    let place = unlawful_in(alloc, &held, keeper)?;
    Some((place, held.loaded.entries.len() as u64))
}

/// Says behind what was written that no server would open the store of a file, where it is so and
/// hints are wanted.
fn hint_unlawful<C: Rising + Drop, S: Copies<Connection<C>>, W: Write>(
    rt: &HostRuntime,
    copies: &S,
    store: &str,
    hints: &Hints,
    writer: &mut W,
)
    ensures { Keeps (W.contents writer.old) (W.contents writer.new) }
{
    if !hints.are_wanted() {
        return;
    }
    let Ok(copy) = copied(copies, store) else {
        return;
    };
    let Some((place, count)) = unlawful_at(rt.alloc(), copy) else {
        return;
    };
    let _ = writer.flush();
    if place < count {
        let _ = eprintln!(rt;
            "  entry {place}, counted from 0, isn't lawful after those before it: no server opens the store"
        );
    } else {
        let _ = eprintln!(rt;
            "  the cells aren't those of the {count} entries: no server opens the store"
        );
    }
}

/// Lists the store of a file.
pub(crate) fn show_file<'a, C: Rising + Drop, S: Copies<Connection<C>>, W: Write>(
    rt: &HostRuntime,
    copies: &S,
    store: &'a str,
    detail: Detail,
    hints: &Hints,
    writer: &mut W,
) -> Result<u8, Fault<'a>>
    ensures { IfOk result (HasShown detail S.copied_from (λ conn. state C.Store conn)
        store.entry.now (W.contents writer.old) (W.contents writer.new)) }
{
    let mut copy = copied(copies, store)?;
    match show_store(rt.alloc(), &mut copy, detail, writer) {
        Ok(()) => {}
        Err(fault) => return Err(Fault::of_showing(fault)),
    }
    drop(copy);
    hint_unlawful(rt, copies, store, hints, writer);
    Ok(DONE)
}

/// What a person at a terminal is told while a store is upgraded, which takes some seconds where it
/// is large ..
const UPGRADING: &str = "\rlynx: upgrading the store\x1b[K";

/// .. and how that is wiped away.
pub(crate) const WIPED: &str = "\r\x1b[K";

/// Writes to standard error where that is a terminal.
pub(crate) fn tell(rt: &HostRuntime, text: &str) {
    if rt.stderr().is_terminal() {
        let _ = eprint!(rt; "{text}");
    }
}

/// Whether the store of a file can be upgraded, by a copy of it.
fn look_at<'a, C: Rising + Drop, S: Copies<Connection<C>>>(
    alloc: Global,
    copies: &S,
    store: &'a str,
) -> Result<(), Fault<'a>> {
    let mut copy = copied(copies, store)?;
    match check_upgrade(alloc, &mut copy) {
        Ok(()) => Ok(()),
        Err(fault) => Err(Fault::of_showing(fault)),
    }
}

/// Makes a store one of version 2, and lets go of it.
fn upgrade_opened<'a, D: Rising + Drop, W: Write>(
    alloc: Global,
    mut conn: Connection<D>,
    writer: &mut W,
) -> Result<u8, Fault<'a>> {
    match upgrade_and_tell(alloc, &mut conn, writer) {
        Ok(()) => Ok(DONE),
        Err(fault) => Err(Fault::of_showing(fault)),
    }
}

/// Makes the store of a file one of version 2.
fn upgrade<'a, C: Rising + Drop, S: Copies<Connection<C>>, W: Write>(
    rt: &HostRuntime,
    copies: &S,
    store: &'a str,
    writer: &mut W,
) -> Result<u8, Fault<'a>> {
    look_at(rt.alloc(), copies, store)?;
    match Connection::open(rt, store) {
        Ok(conn) => upgrade_opened(rt.alloc(), conn, writer),
        Err(_) => Err(Fault::Store(ShowFault::Store)),
    }
}

/// Makes the store of a file one of version 2, and tells a person at a terminal so meanwhile.
pub(crate) fn upgrade_file<'a, C: Rising + Drop, S: Copies<Connection<C>>, W: Write>(
    rt: &HostRuntime,
    copies: &S,
    store: &'a str,
    hints: &Hints,
    writer: &mut W,
) -> Result<u8, Fault<'a>> {
    tell(rt, UPGRADING);
    let done = upgrade(rt, copies, store, writer);
    tell(rt, WIPED);
    if done.is_ok() {
        hint_unlawful(rt, copies, store, hints, writer);
    }
    done
}
