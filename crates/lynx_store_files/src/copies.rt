//! Private copies of stores: what is copied is only read.
ghost use Rattle.std.specs.Prelude.{◌≡◌, IfOk, IfSome, IsTrue, take};
ghost use Rattle.sqlite_disk.specs.Memory.{memory_bytes, memory_is_usable};
ghost use Rattle.lynx_store_files.specs.Copies.{image_in};
ghost use Rattle.sqlite.specs.Files.{file_state};
ghost use Rattle.sqlite.specs.Start.{FindsIn};
ghost use Rattle.sqlite.specs.State.{HasCleanDisk};

use crate::files;
use crate::heads::{FILE_HEAD, is_database};
use crate::presence::log_path;
use lynx_store::StoreFault;
use os::RangeLock;
use sqlite::{Connection, Error, ErrorCode, FileStore, Files, Options};
use sqlite_disk::{Disk, Memory};
use std::alloc::Global;
use std::fs::{File, OpenOptions};
use std::io::{ErrorKind, Read};
use std::os::fd::AsRawFd;
use std::os::unix::fs::MetadataExt;
use std::path::PathBuf;
use std::{fs, io};

/// The database of a store, in memory.
pub type StoreCopy = Connection<FileStore<Memory>>;

/// Where stores are copied from.
pub trait Copies<C> {
    ghost use Rattle.std.specs.Prelude.{ℕ, List, IfOk, IsErrOf};

    // The copy is of the store at that path.
    ghost copied_from: { List ℕ → C → Type 0 };

    // There is no store at that path of which a copy can be made.
    ghost uncopied: { List ℕ → Type 0 };

    /// A copy in memory of the store at the path, and of the log beside it, neither of which is
    /// written or made. Nobody else may have the store open. Takes the memory of both, and of what
    /// they hold.
    fn copy(&self, path: &str) -> Result<C, CopyFault>
        ensures copied { IfOk result (copied_from path.now) }
        ensures unread { IsErrOf result CopyFault.Unread → uncopied path.now }
        ensures damaged { IsErrOf result CopyFault.Damaged → uncopied path.now }
        ensures broken { IsErrOf result CopyFault.Broken → uncopied path.now };
}

/// Why a store was not copied.
#[derive(Clone, Copy, Debug, PartialEq, Eq, thiserror::Error)]
pub enum CopyFault {
    /// There is no regular file, or it can't be read.
    #[error("cannot read")]
    Unread,
    /// The file is no database's.
    #[error("no database")]
    Damaged,
    /// The file is a database's, and a page of it can't be read: it is cut, or has other bytes.
    #[error("a broken database")]
    Broken,
    /// Somebody else has the store open, or the file or its log has a second name.
    #[error("the store failed")]
    Store,
    #[error("out of memory")]
    Memory,
}

impl From<StoreFault> for CopyFault {
    fn from(fault: StoreFault) -> CopyFault {
        match fault {
            StoreFault::Memory => CopyFault::Memory,
            _ => CopyFault::Store,
        }
    }
}

/// The fault of a call of the system: want of memory, or else this one.
fn fault_of(error: io::Error, other: CopyFault) -> CopyFault {
    match error.kind() {
        ErrorKind::OutOfMemory => CopyFault::Memory,
        _ => other,
    }
}

/// The first bytes of a source, as many as the limit or as there are.
pub(crate) fn head_of<R: Read>(alloc: Global, source: &mut R, limit: u64) -> io::Result<Vec<u8>>
    ensures { IfOk result (λ head. IfSome (R.remaining source.old) (λ bytes.
        head.items ≡ take limit bytes)) }
{
    let mut head = Vec::new(alloc);
    (&mut *source).take(limit).read_to_end(&mut head)?;
    Ok(head)
}

/// A file in memory of these bytes.
fn file_of(alloc: Global, bytes: &[u8]) -> Result<Memory, CopyFault>
    ensures { IfOk result
        (λ file. (memory_bytes file ≡ bytes.now) × IsTrue (memory_is_usable file)) }
{
    let mut file = Memory::new(alloc);
    if bytes.is_empty() {
        return Ok(file);
    }
    match file.write_at(0, bytes) {
        Ok(()) => Ok(file),
        Err(_) => Err(CopyFault::Memory),
    }
}

/// Why a database in memory can't be opened: want of memory, or else what it is.
fn fault_of_database(error: &Error) -> CopyFault {
    match error {
        Error::SqliteFailure(ErrorCode::OutOfMemory) => CopyFault::Memory,
        _ => CopyFault::Broken,
    }
}

/// The database that a file and its log of these bytes are.
fn copy_of(alloc: Global, file: &[u8], log: &[u8]) -> Result<StoreCopy, CopyFault>
    ensures { IfOk result (λ copy. HasCleanDisk (file_state copy)
        → FindsIn (image_in file.now log.now) (file_state copy)) }
{
    let files = Files {
        log: file_of(alloc, log)?,
        db: file_of(alloc, file)?,
    };
    // The number is for the salts of what would be written.
    match Connection::open_files(alloc, files, Options::new(1)) {
        Ok(copy) => Ok(copy),
        Err((error, _)) => Err(fault_of_database(&error)),
    }
}

/// The path of a regular file, with no link in it.
fn path_to(rt: &HostRuntime, path: &str) -> Result<PathBuf, CopyFault> {
    match fs::metadata(rt, path) {
        Ok(found) if found.is_file() => {}
        _ => return Err(CopyFault::Unread),
    }
    match fs::canonicalize(rt, path) {
        Ok(real) => Ok(real),
        Err(error) => Err(fault_of(error, CopyFault::Unread)),
    }
}

/// The file of a store, and the lock that it can have: of its own where the file may be written.
/// It is let go before anything is printed, so that nothing printed can come into it.
fn opened(rt: &HostRuntime, path: &str) -> Result<(File, RangeLock), CopyFault> {
    if let Ok(file) = OpenOptions::new().read(true).write(true).open(rt, path) {
        return Ok((file, RangeLock::Exclusive));
    }
    match fs::open(rt, path) {
        Ok(file) => Ok((file, RangeLock::Shared)),
        Err(_) => Err(CopyFault::Unread),
    }
}

/// Whether somebody else has the file open as a database, by the bytes that SQLite locks. Where
/// there are no locks, nobody is known to.
fn is_in_use(file: &File, lock: RangeLock) -> bool {
    if os::try_lock_range(file.as_raw_fd(), lock, 1 << 30, 512) == 0 {
        return false;
    }
    io::Error::from_raw_os_error(os::errno()).kind() == ErrorKind::WouldBlock
}

/// Whether a file of that name is there: regular, and of no other name.
fn is_there(rt: &HostRuntime, path: &str) -> Result<bool, CopyFault> {
    match fs::symlink_metadata(rt, path) {
        Ok(found) if found.is_file() && found.nlink() == 1 => Ok(true),
        Err(error) if error.kind() == ErrorKind::NotFound => Ok(false),
        _ => Err(CopyFault::Store),
    }
}

/// Reads a source to its end, behind what was read of it.
fn read_on<R: Read>(source: &mut R, bytes: &mut Vec<u8>) -> Result<(), CopyFault> {
    match source.read_to_end(bytes) {
        Ok(_) => Ok(()),
        Err(error) => Err(fault_of(error, CopyFault::Store)),
    }
}

/// The bytes of a store's log, none where it has no log.
fn log_bytes(rt: &HostRuntime, path: &str) -> Result<Vec<u8>, CopyFault> {
    let mut bytes = Vec::new(rt.alloc());
    if is_there(rt, path)? {
        let Ok(mut log) = fs::open(rt, path) else {
            return Err(CopyFault::Store);
        };
        read_on(&mut log, &mut bytes)?;
    }
    Ok(bytes)
}

/// Whether SQLite left a journal there that only it can play back.
fn has_journal(rt: &HostRuntime, path: &str) -> Result<bool, CopyFault> {
    if !is_there(rt, path)? {
        return Ok(false);
    }
    let Ok(mut journal) = fs::open(rt, path) else {
        return Err(CopyFault::Store);
    };
    match head_of(rt.alloc(), &mut journal, 1) {
        Ok(head) => Ok(!matches!(head.as_slice(), [] | [0])),
        Err(error) => Err(fault_of(error, CopyFault::Store)),
    }
}

/// A copy of the store of a file and of the log beside it.
fn copy_store(rt: &HostRuntime, path: &str) -> Result<StoreCopy, CopyFault> {
    let real = path_to(rt, path)?;
    let (mut file, lock) = opened(rt, real.as_str())?;
    let mut bytes = match head_of(rt.alloc(), &mut file, FILE_HEAD) {
        Ok(head) => head,
        Err(error) => return Err(fault_of(error, CopyFault::Unread)),
    };
    if !is_database(bytes.as_slice()) {
        return Err(CopyFault::Damaged);
    }
    let Ok(journal) = format!(in rt.alloc(); "{}-journal", real.as_str()) else {
        return Err(CopyFault::Memory);
    };
    if is_in_use(&file, lock)
        || !is_there(rt, real.as_str())?
        || has_journal(rt, journal.as_str())?
    {
        return Err(CopyFault::Store);
    }
    read_on(&mut file, &mut bytes)?;
    let log = log_bytes(rt, log_path(rt, path)?.as_str())?;
    drop(file);
    copy_of(rt.alloc(), bytes.as_slice(), log.as_slice())
}

impl Copies<StoreCopy> for files::Files {
    ghost copied_from = { λ path copy. Unit {0} };

    ghost uncopied = { λ path. Unit {0} };

    fn copy(&self, path: &str) -> Result<StoreCopy, CopyFault> {
        copy_store(&self.rt, path)
    }
}
