//! New stores of what copies of stores hold together.
ghost use Rattle.std.specs.Prelude.{◌≡◌, IfOk, Ok, length};
ghost use Rattle.std.specs.String.{string_bytes};
ghost use Rattle.sqlite.specs.Held.{state};
ghost use Rattle.lynx_cli.specs.Restores.{HasRestored, HasToldRestored, RestoresBy, RestoresFound, RestoresHistories, room_of};
ghost use Rattle.lynx_restore.specs.Longest.{IsRestoredLongest};
ghost use Rattle.lynx_restore.specs.Restored.{IsRestored};
ghost use Rattle.lynx_weave.specs.Rebuilt.{histories_in};

use crate::auditing::{Copied, READING, copied_of};
use crate::books::pass_books;
use crate::fault::Fault;
use crate::hints::Hints;
use crate::salvaged::{Found, found_in};
use crate::storing::{WIPED, tell};
use crate::texts::DONE;
use lynx_args::RestorePlace;
use lynx_keep::{BatchKeeper, Keeper};
use lynx_names::ServerId;
use lynx_names::limits::MAX_SERVERS;
use lynx_restore::{
    RestoreFault, Restored, RestoredServer, restore, restore_longest, restored_lines,
};
use lynx_sql::Rising;
use lynx_store::StoreFault;
use lynx_store_files::{Copies, Stores, restoring_path, store_path};
use sqlite::Connection;
use std::fs;
use std::io::{ErrorKind, Write};

/// Whether the folder has no store, of whatever server there may be.
pub(crate) fn check_vacant<'a, K, S: Stores<K>>(stores: &S, folder: &str) -> Result<(), Fault<'a>> {
    for number in 0..MAX_SERVERS {
        let server = ServerId::at(number);
        match stores.has(folder, server) {
            Ok(false) => {}
            Ok(true) => return Err(Fault::Occupied),
            Err(fault) => return Err(Fault::of_store(server, fault)),
        }
    }
    Ok(())
}

/// The path of the store of that server in the folder, and that of its log.
pub(crate) fn paths_in<'a>(
    rt: &HostRuntime,
    folder: &str,
    server: ServerId,
) -> Result<(String, String), Fault<'a>> {
    let Ok(store) = store_path(rt.alloc(), folder, server) else {
        return Err(Fault::Memory);
    };
    match format!(in rt.alloc(); "{store}-wal") {
        Ok(log) => Ok((store, log)),
        Err(_) => Err(Fault::Memory),
    }
}

/// Has what was made, moved or taken away in a folder on the disk.
fn sync_folder<'a>(rt: &HostRuntime, folder: &str) -> Result<(), Fault<'a>> {
    match fs::open(rt, folder).and_then(|opened| opened.sync_all()) {
        Ok(()) => Ok(()),
        Err(_) => Err(Fault::of_store(ServerId::first(), StoreFault::Store)),
    }
}

/// The folder that a path stands in.
pub(crate) fn above(path: &str) -> &str {
    match path.trim_end_matches('/').rsplit_once('/') {
        Some(("", _)) => "/",
        Some((folder, _)) => folder,
        None => ".",
    }
}

/// Makes the folder that gets the stores, where it isn't there.
fn make_folder<'a>(rt: &HostRuntime, folder: &str) -> Result<(), Fault<'a>> {
    match fs::create_dir(rt, folder) {
        Ok(()) => sync_folder(rt, above(folder)),
        Err(error) if error.kind() == ErrorKind::AlreadyExists => Ok(()),
        Err(_) => Err(Fault::of_store(ServerId::first(), StoreFault::Store)),
    }
}

/// Makes the folder in which stores are made. Stores that are there, which a kill left or which are
/// somebody's copies, aren't touched.
fn make_room<'a, K, S: Stores<K>>(
    rt: &HostRuntime,
    stores: &S,
    room: &str,
) -> Result<(), Fault<'a>> {
    match fs::create_dir(rt, room) {
        Err(error) if error.kind() != ErrorKind::AlreadyExists => {
            Err(Fault::of_store(ServerId::first(), StoreFault::Store))
        }
        _ => check_vacant(stores, room),
    }
}

/// Renames a file, if it is there.
fn move_file<'a>(
    rt: &HostRuntime,
    server: ServerId,
    from: &str,
    to: &str,
) -> Result<(), Fault<'a>> {
    match fs::rename(rt, from, to) {
        Err(error) if error.kind() != ErrorKind::NotFound => {
            Err(Fault::of_store(server, StoreFault::Store))
        }
        _ => Ok(()),
    }
}

/// Moves the store of that server, which is whole, to the folder, behind its log.
fn move_store<'a>(
    rt: &HostRuntime,
    room: &str,
    folder: &str,
    server: ServerId,
) -> Result<(), Fault<'a>> {
    let (store, log) = paths_in(rt, room, server)?;
    let (moved, moved_log) = paths_in(rt, folder, server)?;
    move_file(rt, server, log.as_str(), moved_log.as_str())?;
    move_file(rt, server, store.as_str(), moved.as_str())
}

/// Moves the stores, those with entries first: a service takes a folder with such a store only
/// where no other is missing, so that it takes none of them before all are there.
fn move_all<'a>(
    rt: &HostRuntime,
    room: &str,
    folder: &str,
    restored: &[RestoredServer],
) -> Result<(), Fault<'a>> {
    for has_entries in [true, false] {
        for of_server in restored {
            if (of_server.taken > 0) == has_entries {
                move_store(rt, room, folder, of_server.server)?;
            }
        }
    }
    sync_folder(rt, folder)?;
    let _ = fs::remove_dir(rt, room);
    sync_folder(rt, folder)
}

/// Takes away the stores of a folder that were made so far, with their logs.
pub(crate) fn clear_stores<'a>(rt: &HostRuntime, folder: &str) -> Result<(), Fault<'a>> {
    for number in 0..MAX_SERVERS {
        let (store, log) = paths_in(rt, folder, ServerId::at(number))?;
        let _ = fs::remove_file(rt, store.as_str());
        let _ = fs::remove_file(rt, log.as_str());
    }
    Ok(())
}

/// Takes away the stores that were made so far, and the folder in which they are.
fn clear_room<'a>(rt: &HostRuntime, room: &str) -> Result<(), Fault<'a>> {
    clear_stores(rt, room)?;
    let _ = fs::remove_dir(rt, room);
    Ok(())
}

/// The path of a folder in which stores can be made for this one, which has none.
fn prepare<'a, K, S: Stores<K>>(
    rt: &HostRuntime,
    stores: &S,
    folder: &str,
) -> Result<String, Fault<'a>>
    ensures { IfOk result (λ room. string_bytes room ≡ room_of folder.now) }
{
    make_folder(rt, folder)?;
    check_vacant(stores, folder)?;
    let Ok(room) = restoring_path(rt.alloc(), folder) else {
        return Err(Fault::Memory);
    };
    make_room(rt, stores, room.as_str())?;
    Ok(room)
}

/// Moves the stores that were made to their folder, behind what the copies' folder tells of its
/// books; where not all could be made, takes them away.
fn moved<'a>(
    rt: &HostRuntime,
    from: &str,
    room: &str,
    folder: &str,
    made: Result<Restored, RestoreFault>,
) -> Result<Restored, Fault<'a>>
    ensures { IfOk result (λ restored. made ≡ Ok restored) }
{
    let passed = match made {
        Ok(restored) => match pass_books(rt, from, folder) {
            Ok(()) => Ok(restored),
            Err(fault) => Err(fault),
        },
        Err(fault) => Err(Fault::of_restoring(fault)),
    };
    match passed {
        Ok(restored) => {
            move_all(rt, room, folder, restored.servers.as_slice())?;
            Ok(restored)
        }
        Err(fault) => {
            clear_room(rt, room)?;
            Err(fault)
        }
    }
}

/// Makes stores in the folder of what these copies of stores in another hold together.
fn store_whole<'a, K: Keeper + Drop, L: BatchKeeper + Drop, S: Stores<L>>(
    rt: &HostRuntime,
    stores: &S,
    from: &str,
    folder: &str,
    copied: Copied<K>,
) -> Result<Restored, Fault<'a>>
    requires { length copied.keepers.items ≡ copied.set.servers }
    ensures { IfOk result (IsRestored K.terms L.terms S.store_terms (room_of folder.now) copied.set
        copied.keepers.items) }
{
    let Copied { set, keepers } = copied;
    let room = prepare(rt, stores, folder)?;
    let made = restore(rt.alloc(), &set, keepers, stores, room.as_str());
    moved(rt, from, room.as_str(), folder, made)
}

/// Makes stores in the folder of what was found of the copies in another.
fn store_found<'a, L: BatchKeeper + Drop, S: Stores<L>>(
    rt: &HostRuntime,
    stores: &S,
    from: &str,
    folder: &str,
    found: Found,
) -> Result<Restored, Fault<'a>>
    requires { length found.entries.items ≡ found.set.servers }
    ensures { IfOk result (IsRestoredLongest L.terms S.store_terms (room_of folder.now) found.set
        (histories_in found.entries.items)) }
{
    let Found { set, entries } = found;
    let room = prepare(rt, stores, folder)?;
    let made = restore_longest(rt.alloc(), &set, entries, stores, room.as_str());
    moved(rt, from, room.as_str(), folder, made)
}

/// Makes stores in the folder of what the copies in another hold together, each of which is whole.
fn restore_whole<'a, K: BatchKeeper + Drop, C: Rising + Drop, S: Stores<K> + Copies<Connection<C>>>(
    rt: &HostRuntime,
    stores: &S,
    from: &str,
    folder: &str,
    hints: &mut Hints,
) -> Result<Restored, Fault<'a>>
    ensures { IfOk result (RestoresHistories S.copied_from (λ conn. state C.Store conn) K.terms
        S.store_terms from.now folder.now) }
{
    let copied = copied_of(rt, stores, from);
    hints.note_store(rt, from, &copied);
    let made = store_whole(rt, stores, from, folder, copied?);
    hints.note_store(rt, folder, &made);
    made
}

/// Makes stores in the folder of what can still be read of the copies in another.
fn restore_found<'a, K: BatchKeeper + Drop, C: Rising + Drop, S: Stores<K> + Copies<Connection<C>>>(
    rt: &HostRuntime,
    stores: &S,
    from: &str,
    folder: &str,
    hints: &mut Hints,
) -> Result<Restored, Fault<'a>>
    ensures { IfOk result (RestoresFound S.copied_from S.uncopied (λ conn. state C.Store conn)
        K.terms S.store_terms from.now folder.now) }
{
    let found = found_in(rt.alloc(), stores, from);
    hints.note_store(rt, from, &found);
    let made = store_found(rt, stores, from, folder, found?);
    hints.note_store(rt, folder, &made);
    made
}

/// Makes stores in a folder of what the copies in another hold together, or of what can still be
/// read of them.
fn restore_by<'a, K: BatchKeeper + Drop, C: Rising + Drop, S: Stores<K> + Copies<Connection<C>>>(
    rt: &HostRuntime,
    stores: &S,
    place: RestorePlace<'_>,
    hints: &mut Hints,
) -> Result<Restored, Fault<'a>>
    ensures { IfOk result (RestoresBy S.copied_from S.uncopied (λ conn. state C.Store conn) K.terms
        S.store_terms place.entry.from.now place.entry.folder.now place.entry.longest) }
{
    if place.longest {
        restore_found(rt, stores, place.from, place.folder, hints)
    } else {
        restore_whole(rt, stores, place.from, place.folder, hints)
    }
}

/// Tells how much was restored of each server.
fn write_restored<'a, W: Write>(
    rt: &HostRuntime,
    restored: &Restored,
    writer: &mut W,
) -> Result<u8, Fault<'a>>
    ensures { IfOk result (HasToldRestored restored.now.servers.items (W.contents writer.old)
        (W.contents writer.new)) }
{
    let Ok(lines) = restored_lines(rt.alloc(), restored.servers.as_slice()) else {
        return Err(Fault::Memory);
    };
    match writer.write_all(lines.as_slice()) {
        Ok(()) => Ok(DONE),
        Err(_) => Err(Fault::Write),
    }
}

/// Makes stores in the folder, which has none, of what the copies in another hold together, and
/// tells how much of each that is. The copies are only read.
pub(crate) fn restore_folder<
    'a,
    K: BatchKeeper + Drop,
    C: Rising + Drop,
    S: Stores<K> + Copies<Connection<C>>,
    W: Write,
>(
    rt: &HostRuntime,
    stores: &S,
    place: RestorePlace<'_>,
    hints: &mut Hints,
    writer: &mut W,
) -> Result<u8, Fault<'a>>
    ensures { IfOk result (HasRestored S.copied_from S.uncopied (λ conn. state C.Store conn)
        K.terms S.store_terms place.entry.from.now place.entry.folder.now place.entry.longest
        (W.contents writer.old) (W.contents writer.new)) }
{
    tell(rt, READING);
    let restored = restore_by(rt, stores, place, hints);
    tell(rt, WIPED);
    let restored = restored?;
    hints.note_undone(rt.alloc(), restored.undone.as_slice());
    write_restored(rt, &restored, writer)
}
