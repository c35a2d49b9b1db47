//! Where a fault of a service is, in words.
use lynx_service::{CloseWord, Damage, ServeFault, StoreWord};
use std::alloc::{AllocError, Global};

/// Where a store is damaged, in a line; none where it isn't known.
fn spot_of_damage(alloc: Global, server: u8, damage: Damage) -> Result<Option<String>, AllocError> {
    match damage {
        Damage::Somewhere => Ok(None),
        Damage::At { place } => Ok(Some(format!(in alloc;
            "  entry {place} of server {server}, counted from 0, is none that its set allows there, or, if there are just {place}, its cells are not those that they leave\n"
        )?)),
        Damage::Missing => Ok(Some(String::from_str(
            alloc,
            "  there is no such store, and other servers of the folder have entries: put it back, or begin with an empty folder; the stores of servers that a set adds are made by lynx extend\n",
        )?)),
    }
}

/// Where the check of a service found something, in a line.
fn spot_of_close(alloc: Global, word: CloseWord) -> Result<String, AllocError> {
    match word {
        CloseWord::Mismatch { server, place } => format!(in alloc;
            "  entry {place} of server {server}, counted from 0, ran on a message that no store has sent: a store is older than others, or of another run\n"
        ),
        CloseWord::Told { session, place } => format!(in alloc;
            "  item {place} of session {session}, both counted from 0, does not stand\n"
        ),
        CloseWord::Stopped { server } => format!(in alloc;
            "  server {server} stopped: its store failed while it was served\n"
        ),
        CloseWord::Absent { session } => format!(in alloc;
            "  session {session}, counted from 0, was not handed in\n"
        ),
        CloseWord::Uncounted { server } => format!(in alloc;
            "  the answers of server {server} are not as many as its begins\n"
        ),
    }
}

/// Where the fault of a service is, in a line; none where nothing is known.
pub(crate) fn spot_of(alloc: Global, fault: &ServeFault) -> Result<Option<String>, AllocError> {
    match fault {
        ServeFault::Store {
            server,
            word: StoreWord::Damaged(damage),
        } => spot_of_damage(alloc, *server, *damage),
        ServeFault::Close(word) => Ok(Some(spot_of_close(alloc, *word)?)),
        _ => Ok(None),
    }
}
