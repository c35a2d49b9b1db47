//! Why a store or a port can't be had, as the system tells it. What is looked at stays as it is.
use crate::shown::Shown;
use lynx_service::CopyWord;
use lynx_store_files::restoring_path;
use os::RangeLock;
use std::alloc::{AllocError, Global};
use std::fs::{self, OpenOptions};
use std::io::{self, ErrorKind, Read};
use std::os::fd::AsRawFd;

/// The bytes that a process locks which has a store open: those of SQLite's locks, and how many.
const LOCKED: u64 = 1 << 30;

const LOCKED_BYTES: u64 = 512;

/// How a database begins.
const DATABASE: [u8; 16] = *b"SQLite format 3\0";

/// The line of what is said of a file or a folder, behind its name.
fn line_of(alloc: Global, name: &str, words: &str) -> Result<String, AllocError> {
    let shown = Shown { name };
    format!(in alloc; "  {shown}{words}\n")
}

/// The line of what the system says of a file or a folder.
fn line_of_error(alloc: Global, name: &str, error: &io::Error) -> Result<String, AllocError> {
    let shown = Shown { name };
    format!(in alloc; "  {shown}: {error}\n")
}

/// The path of the store of that number in the folder.
fn path_of(alloc: Global, folder: &str, server: u8) -> Result<String, AllocError> {
    format!(in alloc; "{folder}/server-{server}.lynx")
}

/// What keeps a file that is open from being locked, in a line; none where nothing does.
fn cause_of_lock(
    alloc: Global,
    file: &str,
    opened: &fs::File,
) -> Result<Option<String>, AllocError> {
    if os::try_lock_range(
        opened.as_raw_fd(),
        RangeLock::Exclusive,
        LOCKED,
        LOCKED_BYTES,
    ) == 0
    {
        return Ok(None);
    }
    let error = io::Error::from_raw_os_error(os::errno());
    let line = if error.kind() == ErrorKind::WouldBlock {
        line_of(alloc, file, ": another process has it open")
    } else {
        line_of_error(alloc, file, &error)
    };
    Ok(Some(line?))
}

/// Whether a process may have the stores of the folder open: that of server 0 is locked, or can't
/// be looked at.
pub(crate) fn are_held(host: &HostRuntime, folder: &str) -> bool {
    let Ok(path) = path_of(host.alloc(), folder, 0) else {
        return true;
    };
    match fs::open(host, path.as_str()) {
        Ok(opened) => {
            let handle = opened.as_raw_fd();
            os::try_lock_range(handle, RangeLock::Shared, LOCKED, LOCKED_BYTES) != 0
        }
        Err(error) => error.kind() != ErrorKind::NotFound,
    }
}

/// What keeps a file of a store from being opened for reading and writing, in a line; none where
/// nothing does.
fn cause_of_file(
    host: &HostRuntime,
    alloc: Global,
    file: &str,
) -> Result<Option<String>, AllocError> {
    match OpenOptions::new().read(true).write(true).open(host, file) {
        Ok(opened) => cause_of_lock(alloc, file, &opened),
        Err(error) => Ok(Some(line_of_error(alloc, file, &error)?)),
    }
}

/// The same of the log beside a store, which need not be there.
fn cause_of_log(
    host: &HostRuntime,
    alloc: Global,
    file: &str,
) -> Result<Option<String>, AllocError> {
    let log = format!(in alloc; "{file}-wal")?;
    match fs::metadata(host, log.as_str()) {
        Ok(_) => cause_of_file(host, alloc, log.as_str()),
        Err(_) => Ok(None),
    }
}

/// Whether a file has no byte. Where it isn't there, that isn't seen.
fn is_empty(host: &HostRuntime, file: &str) -> bool {
    match fs::metadata(host, file) {
        Ok(found) => found.is_file() && found.len() == 0,
        Err(_) => false,
    }
}

/// Whether a file has bytes that no database begins with. Where it can't be read, that isn't seen.
fn is_no_database(host: &HostRuntime, file: &str) -> bool {
    let mut head = [0u8; 16];
    match fs::open(host, file) {
        Ok(mut opened) => matches!(opened.read(&mut head), Ok(count) if count > 0)
            && head != DATABASE,
        Err(_) => false,
    }
}

/// What is wrong with a folder in which stores are to be, in a line; none where nothing is seen.
fn cause_of_folder(
    host: &HostRuntime,
    alloc: Global,
    folder: &str,
) -> Result<Option<String>, AllocError> {
    match fs::metadata(host, folder) {
        Ok(found) if found.is_dir() => Ok(None),
        Ok(_) => Ok(Some(line_of(alloc, folder, " is no folder")?)),
        Err(error) => Ok(Some(line_of_error(alloc, folder, &error)?)),
    }
}

/// What is wrong with what stands where a store is to be, in a line; none where that is a file.
fn cause_of_place(
    host: &HostRuntime,
    alloc: Global,
    file: &str,
) -> Result<Option<String>, AllocError> {
    let words = match fs::metadata(host, file) {
        Ok(found) if found.is_dir() => " is a folder",
        Err(error) if error.kind() == ErrorKind::NotFound => {
            " isn't there, and can't be made: may this user write in the folder?"
        }
        _ => return Ok(None),
    };
    Ok(Some(line_of(alloc, file, words)?))
}

/// Why a store can't be opened, in a line: what stands in its place, the log beside it, or who has
/// them open.
fn cause_at(host: &HostRuntime, alloc: Global, file: &str) -> Result<String, AllocError> {
    if let Some(cause) = cause_of_place(host, alloc, file)? {
        return Ok(cause);
    }
    if let Some(cause) = cause_of_file(host, alloc, file)? {
        return Ok(cause);
    }
    if let Some(cause) = cause_of_log(host, alloc, file)? {
        return Ok(cause);
    }
    let words =
        " opens, and no other process has it open: the disk fails, its pages are broken, or it has a second name";
    line_of(alloc, file, words)
}

/// Why the store of that number can't be opened in the folder, in a line: the folder, the file, the
/// log beside it, or who has them open.
pub(crate) fn cause_of_store(
    host: &HostRuntime,
    alloc: Global,
    folder: &str,
    server: u8,
) -> Result<String, AllocError> {
    if let Some(cause) = cause_of_folder(host, alloc, folder)? {
        return Ok(cause);
    }
    let file = path_of(alloc, folder, server)?;
    cause_at(host, alloc, file.as_str())
}

/// What is known of a store that doesn't have all in the end.
const BEHIND: &str =
    " lacks what its server did last: the log says why; serve once more, and it goes on from there";

/// What is known of a store whose name led to it no more.
const GONE: &str =
    " was removed, moved or replaced, or a folder above it was, while the service had it open";

/// That the name of the store of that number led to it no more, in a line.
pub(crate) fn cause_of_gone(alloc: Global, folder: &str, server: u8) -> Result<String, AllocError> {
    let path = path_of(alloc, folder, server)?;
    line_of(alloc, path.as_str(), GONE)
}

/// Why a store keeps what its server didn't do, in a line.
fn line_of_history(alloc: Global, file: &str, server: u8) -> Result<String, AllocError> {
    let shown = Shown { name: file };
    format!(in alloc;
        "  {shown} keeps what server {server} didn't do: it follows another folder, or one that was restored since; take an empty one\n"
    )
}

/// Why the store of that number can't follow the server's, in a line, and what to do.
pub(crate) fn cause_of_copy(
    host: &HostRuntime,
    alloc: Global,
    folder: &str,
    server: u8,
    word: CopyWord,
) -> Result<String, AllocError> {
    let path = path_of(alloc, folder, server)?;
    let file = path.as_str();
    match word {
        CopyWord::OtherHistory => line_of_history(alloc, file, server),
        CopyWord::OtherSet | CopyWord::OtherVersion => {
            let words =
                " is of another set: lynx extend gives it to this one, where this one extends it; or take an empty folder";
            line_of(alloc, file, words)
        }
        CopyWord::Damaged => match cause_of_bytes(host, alloc, file)? {
            Some(cause) => Ok(cause),
            None => line_of(alloc, file, " is damaged: take an empty folder"),
        },
        CopyWord::Behind => line_of(alloc, file, BEHIND),
        CopyWord::Gone => line_of(alloc, file, GONE),
        CopyWord::Store | CopyWord::Memory => cause_of_store(host, alloc, folder, server),
    }
}

/// Why a file can't be a database's, in a line; none where it may be.
fn cause_of_bytes(
    host: &HostRuntime,
    alloc: Global,
    file: &str,
) -> Result<Option<String>, AllocError> {
    let words = if is_empty(host, file) {
        " is empty, and the log beside it isn't: put back the file, and the log with it"
    } else if is_no_database(host, file) {
        " is no SQLite database"
    } else {
        return Ok(None);
    };
    Ok(Some(line_of(alloc, file, words)?))
}

/// Why a store that isn't there is damaged, in a line.
fn cause_of_absence(
    host: &HostRuntime,
    alloc: Global,
    folder: &str,
    file: &str,
) -> Result<String, AllocError> {
    let Ok(room) = restoring_path(alloc, folder) else {
        return Err(AllocError);
    };
    if fs::metadata(host, room.as_str()).is_ok() {
        let words =
            " is there: a restore was stopped before it moved its stores; take that folder away, and restore again";
        return line_of(alloc, room.as_str(), words);
    }
    let words = " isn't there, and the log beside its place is: put the file back, with its log";
    line_of(alloc, file, words)
}

/// Whether nothing stands there.
fn is_absent(host: &HostRuntime, file: &str) -> bool {
    matches!(fs::metadata(host, file), Err(error) if error.kind() == ErrorKind::NotFound)
}

/// Why the store of that number is damaged, by what stands in its place, in a line; none where that
/// may be a database.
pub(crate) fn cause_of_damage(
    host: &HostRuntime,
    alloc: Global,
    folder: &str,
    server: u8,
) -> Result<Option<String>, AllocError> {
    let path = path_of(alloc, folder, server)?;
    let file = path.as_str();
    if is_absent(host, file) {
        return Ok(Some(cause_of_absence(host, alloc, folder, file)?));
    }
    cause_of_bytes(host, alloc, file)
}
