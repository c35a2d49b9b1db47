//! Whether the stores of a folder are as they were, and nobody has them open.
use crate::auditing::copy_of;
use crate::fault::Fault;
use crate::restoring::paths_in;
use lynx_names::ServerId;
use lynx_names::limits::MAX_SERVERS;
use lynx_store_files::Copies;
use std::fs;
use std::os::unix::fs::MetadataExt;

/// What changes where a file is written: which one it is, its length, and when that was last.
#[derive(Clone, Copy, Debug, PartialEq, Eq)]
struct FileMark {
    number: u64,
    bytes: u64,
    seconds: i64,
    nanoseconds: i64,
}

/// The marks of a store and of its log; none of a file that isn't there.
#[derive(Clone, Copy, Debug, PartialEq, Eq)]
struct StoreMark {
    store: Option<FileMark>,
    log: Option<FileMark>,
}

/// The stores of a folder as they are at a moment.
#[derive(Debug, Drop)]
pub(crate) struct FolderMark {
    stores: Vec<StoreMark>,
}

/// The mark of the file at that path.
fn mark_of(rt: &HostRuntime, path: &str) -> Option<FileMark> {
    let found = fs::symlink_metadata(rt, path).ok()?;
    Some(FileMark {
        number: found.ino(),
        bytes: found.size(),
        seconds: found.mtime(),
        nanoseconds: found.mtime_nsec(),
    })
}

/// The stores of the folder as they are, of whatever servers there may be.
pub(crate) fn mark_folder<'a>(rt: &HostRuntime, folder: &str) -> Result<FolderMark, Fault<'a>> {
    let mut stores = Vec::new(rt.alloc());
    for number in 0..MAX_SERVERS {
        let (store, log) = paths_in(rt, folder, ServerId::at(number))?;
        let mark = StoreMark {
            store: mark_of(rt, store.as_str()),
            log: mark_of(rt, log.as_str()),
        };
        if stores.push(mark).is_err() {
            return Err(Fault::Memory);
        }
    }
    Ok(FolderMark { stores })
}

/// Nobody has the stores of that many servers open, and they are as they were at the mark. A copy
/// is made of each to see it.
pub(crate) fn check_unchanged<'a, C, S: Copies<C>>(
    rt: &HostRuntime,
    copies: &S,
    folder: &str,
    servers: u8,
    before: &FolderMark,
) -> Result<(), Fault<'a>>
where
    C: Drop,
{
    for number in 0..MAX_SERVERS {
        if number >= servers {
            break;
        }
        match copy_of(rt, copies, folder, ServerId::at(number)) {
            Ok(_) => {}
            Err(Fault::Memory) => return Err(Fault::Memory),
            Err(_) => return Err(Fault::Meanwhile),
        }
    }
    let now = mark_folder(rt, folder)?;
    if now.stores.as_slice() == before.stores.as_slice() {
        Ok(())
    } else {
        Err(Fault::Meanwhile)
    }
}
