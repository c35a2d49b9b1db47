//! What stands where a store would be, before anything is opened as a database.
ghost use Rattle.std.specs.Prelude.{◌≡◌, ◌++◌, codes, IfOk};
ghost use Rattle.std.specs.String.{string_bytes};

use crate::copies::head_of;
use crate::heads::{FILE_HEAD, LOG_HEAD, may_open};
use lynx_names::Memory;
use lynx_store::StoreFault;
use std::alloc::Global;
use std::io::ErrorKind;
use std::rt::Files;
use std::{fs, io};

/// The fault of asking for a file.
pub(crate) fn fault_of(error: io::Error) -> StoreFault {
    match error.kind() {
        ErrorKind::OutOfMemory => StoreFault::Memory,
        _ => StoreFault::Store,
    }
}

/// Whether something stands at a path, other than an empty file.
fn holds<R: Files>(rt: &R, path: &str) -> Result<bool, StoreFault> {
    match fs::metadata(rt, path) {
        Ok(found) => Ok(!found.is_file() || found.len() > 0),
        Err(error) if error.kind() == ErrorKind::NotFound => Ok(false),
        Err(error) => Err(fault_of(error)),
    }
}

/// The path of a store's log: beside the file that the links of its path lead to.
pub(crate) fn log_path<R: Files + AllocGlobal>(rt: &R, path: &str) -> Result<String, StoreFault> {
    let named = match fs::canonicalize(rt, path) {
        Ok(real) => format!(in rt.alloc(); "{}-wal", real.as_str()),
        Err(error) if error.kind() == ErrorKind::NotFound => format!(in rt.alloc(); "{path}-wal"),
        Err(error) => return Err(fault_of(error)),
    };
    match named {
        Ok(path) => Ok(path),
        Err(_) => Err(StoreFault::Memory),
    }
}

/// Whether the folder is there: else it has no store, and none can be made in it.
pub(crate) fn check_folder<R: Files>(rt: &R, folder: &str) -> Result<(), StoreFault> {
    match fs::metadata(rt, folder) {
        Ok(found) if found.is_dir() => Ok(()),
        Ok(_) => Err(StoreFault::Store),
        Err(error) => Err(fault_of(error)),
    }
}

/// The path of the folder in which `lynx restore` makes the stores of this one until all are whole.
pub fn restoring_path(alloc: Global, folder: &str) -> Result<String, Memory>
    ensures { IfOk result (λ path. string_bytes path ≡ folder.now ++ codes "/restore.new") }
{
    match format!(in alloc; "{folder}/restore.new") {
        Ok(path) => Ok(path),
        Err(_) => Err(Memory),
    }
}

/// Whether stores may be made in the folder: Damaged where a restore to it was stopped before its
/// stores were moved here.
pub(crate) fn check_restored<R: Files + AllocGlobal>(
    rt: &R,
    folder: &str,
) -> Result<(), StoreFault> {
    let path = restoring_path(rt.alloc(), folder)?;
    match fs::metadata(rt, path.as_str()) {
        Ok(_) => Err(StoreFault::Damaged),
        Err(error) if error.kind() == ErrorKind::NotFound => Ok(()),
        Err(error) => Err(fault_of(error)),
    }
}

/// Whether a store's file, or its log, stands there and isn't empty.
pub(crate) fn has_store<R: Files + AllocGlobal>(rt: &R, path: &str) -> Result<bool, StoreFault> {
    if holds(rt, path)? {
        return Ok(true);
    }
    holds(rt, log_path(rt, path)?.as_str())
}

/// The first bytes of a file, none where there is no file.
fn head_at<R: Files + AllocGlobal>(rt: &R, path: &str, limit: u64) -> Result<Vec<u8>, StoreFault> {
    match fs::metadata(rt, path) {
        Ok(found) if found.is_file() => {}
        Ok(_) => return Err(StoreFault::Store),
        Err(error) if error.kind() == ErrorKind::NotFound => return Ok(Vec::new(rt.alloc())),
        Err(error) => return Err(fault_of(error)),
    }
    let head = match fs::open(rt, path) {
        Ok(mut file) => head_of(rt.alloc(), &mut file, limit),
        Err(error) => Err(error),
    };
    match head {
        Ok(head) => Ok(head),
        Err(error) => Err(fault_of(error)),
    }
}

/// Whether what stands at the path of a store may be opened: Damaged where it is no database's, or
/// was emptied beside its log.
pub(crate) fn judge<R: Files + AllocGlobal>(rt: &R, path: &str) -> Result<(), StoreFault> {
    let file = head_at(rt, path, FILE_HEAD)?;
    let log = head_at(rt, log_path(rt, path)?.as_str(), LOG_HEAD)?;
    if may_open(file.as_slice(), log.as_slice()) {
        Ok(())
    } else {
        Err(StoreFault::Damaged)
    }
}
