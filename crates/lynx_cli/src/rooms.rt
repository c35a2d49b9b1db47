//! Folders that take the place of others once all that is to be in them is there.
use crate::books::{Carried, forget_unfinished, sync, unnumber};
use crate::fault::Fault;
use crate::restoring::{above, clear_stores};
use lynx_names::Memory;
use std::alloc::Global;
use std::fs;
use std::io::ErrorKind;

/// The path of the folder that is to take the place of this one.
fn path_of(alloc: Global, folder: &str) -> Result<String, Memory> {
    match format!(in alloc; "{folder}.carrying") {
        Ok(path) => Ok(path),
        Err(_) => Err(Memory),
    }
}

/// Whether the folder isn't there, or is empty.
pub(crate) fn check_empty<'a>(rt: &HostRuntime, folder: &str) -> Result<(), Fault<'a>> {
    let is_empty = match fs::read_dir(rt, folder) {
        Ok(mut entries) => entries.next().is_none(),
        Err(error) => error.kind() == ErrorKind::NotFound,
    };
    if is_empty {
        Ok(())
    } else {
        Err(Fault::NotEmpty)
    }
}

/// Takes away the room that a carrying of these books made: stores with their logs, and last the
/// number of the books, by which it is known.
fn clear<'a>(rt: &HostRuntime, carried: &Carried, room: &str) -> Result<(), Fault<'a>> {
    forget_unfinished(rt, room)?;
    if carried.numbers(rt, room)? {
        clear_stores(rt, room)?;
        unnumber(rt, room)?;
    }
    match fs::remove_dir(rt, room) {
        Ok(()) => Ok(()),
        Err(error) if error.kind() == ErrorKind::NotFound => Ok(()),
        Err(_) => Err(Fault::InTheWay),
    }
}

/// Makes the folder of the room, with the number of the books.
fn make<'a>(rt: &HostRuntime, carried: &Carried, room: &str) -> Result<(), Fault<'a>> {
    match fs::create_dir(rt, room) {
        Ok(()) => carried.number(rt, room),
        Err(error) if error.kind() == ErrorKind::AlreadyExists => Err(Fault::InTheWay),
        Err(_) => Err(Fault::UnwrittenBooks),
    }
}

/// Whether a carrying of these books left its room.
pub(crate) fn has_room<'a>(rt: &HostRuntime, carried: &Carried) -> Result<bool, Fault<'a>> {
    match path_of(rt.alloc(), carried.to.as_str()) {
        Ok(room) => carried.numbers(rt, room.as_str()),
        Err(Memory) => Err(Fault::Memory),
    }
}

/// Makes a folder beside the one of the new books, whose place it is to take: `DIR.carrying`, with
/// their number. What a carrying of the same books left there is taken away; anything else stays.
pub(crate) fn make_room<'a>(rt: &HostRuntime, carried: &Carried) -> Result<String, Fault<'a>> {
    let Ok(room) = path_of(rt.alloc(), carried.to.as_str()) else {
        return Err(Fault::Memory);
    };
    clear(rt, carried, room.as_str())?;
    match make(rt, carried, room.as_str()) {
        Ok(()) => Ok(room),
        Err(fault) => {
            leave_room(rt, carried, room.as_str());
            Err(fault)
        }
    }
}

/// Takes away what was made in a room.
pub(crate) fn leave_room(rt: &HostRuntime, carried: &Carried, room: &str) {
    let _ = clear(rt, carried, room);
}

/// Has all that is in the room on the disk, and the room itself.
pub(crate) fn sync_room<'a>(rt: &HostRuntime, room: &str) -> Result<(), Fault<'a>> {
    sync(rt, room)?;
    sync(rt, above(room))
}

/// Has the room take the place of the folder of the new books, whole or not at all.
pub(crate) fn move_in<'a>(
    rt: &HostRuntime,
    carried: &Carried,
    room: &str,
) -> Result<(), Fault<'a>> {
    match fs::rename(rt, room, carried.to.as_str()) {
        Ok(()) => Ok(()),
        Err(_) => Err(Fault::UnwrittenBooks),
    }
}
