//! The books of a folder: the file `books` numbers them, and the file `carried` closes them and
//! tells where they go on. docs/FORMATS.md has their texts.
use crate::fault::Fault;
use crate::reading::is_named_pipe;
use lynx_lex::lines::next_line;
use lynx_lex::number::number;
use std::alloc::{AllocError, Global};
use std::fs::{self, OpenOptions};
use std::io::{self, ErrorKind, Write};

/// The number of the books of a folder without a file `books`.
const FIRST_BOOKS: u64 = 1;

/// The name of the file that numbers the books of its folder.
const NUMBERED: &str = "books";

/// The name of the file that closes the books of its folder.
const CLOSED: &str = "carried";

/// Books that are carried: the folder in which they are, that to which they go, each by its path
/// without links, and the number under which they go on.
#[derive(Debug, Drop)]
pub(crate) struct Carried {
    pub(crate) from: String,
    pub(crate) to: String,
    pub(crate) books: u64,
}

/// The path of a file in the folder.
fn path_in(alloc: Global, folder: &str, name: &str) -> Result<String, AllocError> {
    format!(in alloc; "{folder}/{name}")
}

/// There is nothing at a path, since its name, or the folder, isn't there.
fn is_absence(kind: ErrorKind) -> bool {
    matches!(kind, ErrorKind::NotFound | ErrorKind::NotADirectory)
}

/// What a file of that name in the folder holds. None where there is none.
fn read_in<'a>(host: &HostRuntime, folder: &str, name: &str) -> Result<Option<Vec<u8>>, Fault<'a>> {
    let Ok(path) = path_in(host.alloc(), folder, name) else {
        return Err(Fault::Memory);
    };
    if is_named_pipe(host, path.as_str()) {
        return Err(Fault::BadBooks);
    }
    match fs::read(host, path.as_str()) {
        Ok(text) => Ok(Some(text)),
        Err(error) if is_absence(error.kind()) => Ok(None),
        Err(error) if error.kind() == ErrorKind::OutOfMemory => Err(Fault::Memory),
        Err(_) => Err(Fault::BadBooks),
    }
}

/// The number that the text of a file `books` tells.
fn number_in(text: &[u8]) -> Option<u64> {
    let (line, _) = next_line(text)?;
    let books = number(line.strip_prefix(b"books ".as_slice())?)?;
    if books == 0 {
        return None;
    }
    Some(books)
}

/// The number of the books that come behind those of the folder.
pub(crate) fn next_books<'a>(host: &HostRuntime, folder: &str) -> Result<u64, Fault<'a>> {
    let books = match read_in(host, folder, NUMBERED)? {
        Some(text) => number_in(text.as_slice()),
        None => Some(FIRST_BOOKS),
    };
    match books.and_then(|books| books.checked_add(1)) {
        Some(next) => Ok(next),
        None => Err(Fault::BadBooks),
    }
}

impl Carried {
    /// What closes the old books: the number of the new ones, and their folder.
    fn closing(&self, alloc: Global) -> Result<String, AllocError> {
        format!(in alloc; "books {}\nto {}\n", self.books, self.to)
    }

    /// What opens the new books: their number, and the folder of the old ones.
    fn opening(&self, alloc: Global) -> Result<String, AllocError> {
        format!(in alloc; "books {}\nfrom {}\n", self.books, self.from)
    }

    /// Gives the books of the folder their number.
    pub(crate) fn number<'a>(&self, host: &HostRuntime, folder: &str) -> Result<(), Fault<'a>> {
        match self.opening(host.alloc()) {
            Ok(text) => put_in(host, folder, NUMBERED, text.as_bytes()),
            Err(_) => Err(Fault::Memory),
        }
    }

    /// Closes the old books.
    pub(crate) fn close<'a>(&self, host: &HostRuntime) -> Result<(), Fault<'a>> {
        match self.closing(host.alloc()) {
            Ok(text) => put_in(host, self.from.as_str(), CLOSED, text.as_bytes()),
            Err(_) => Err(Fault::Memory),
        }
    }

    /// Opens the old books again.
    pub(crate) fn reopen<'a>(&self, host: &HostRuntime) -> Result<(), Fault<'a>> {
        let Ok(path) = path_in(host.alloc(), self.from.as_str(), CLOSED) else {
            return Err(Fault::Memory);
        };
        match fs::remove_file(host, path.as_str()) {
            Ok(()) => sync(host, self.from.as_str()),
            Err(_) => Err(Fault::UnwrittenBooks),
        }
    }

    /// Whether the books of the folder have this very number, and come from the old ones: a
    /// carrying made it that was stopped.
    pub(crate) fn numbers<'a>(&self, host: &HostRuntime, folder: &str) -> Result<bool, Fault<'a>> {
        let Ok(text) = self.opening(host.alloc()) else {
            return Err(Fault::Memory);
        };
        match read_in(host, folder, NUMBERED)? {
            Some(told) => Ok(told.as_slice() == text.as_bytes()),
            None => Ok(false),
        }
    }

    /// Whether the old books were closed for these.
    pub(crate) fn closed<'a>(&self, host: &HostRuntime) -> Result<bool, Fault<'a>> {
        let Ok(text) = self.closing(host.alloc()) else {
            return Err(Fault::Memory);
        };
        match read_in(host, self.from.as_str(), CLOSED)? {
            Some(told) => Ok(told.as_slice() == text.as_bytes()),
            None => Ok(false),
        }
    }
}

/// Makes a file with this text, on the disk.
fn make_file(host: &HostRuntime, path: &str, text: &[u8]) -> io::Result<()> {
    let mut options = OpenOptions::new();
    options.write(true).create_new(true);
    let mut file = options.open(host, path)?;
    file.write_all(text)?;
    file.sync_all()
}

/// Makes the file of that path in the folder, whole: under another name first.
fn put_file(host: &HostRuntime, folder: &str, path: &str, text: &[u8]) -> io::Result<()> {
    let Ok(new) = format!(in host.alloc(); "{path}.new") else {
        return Err(io::Error::from(ErrorKind::OutOfMemory));
    };
    let _ = fs::remove_file(host, new.as_str());
    make_file(host, new.as_str(), text)?;
    fs::rename(host, new.as_str(), path)?;
    fs::open(host, folder)?.sync_all()
}

/// The same, by the name of the file.
fn put_in<'a>(host: &HostRuntime, folder: &str, name: &str, text: &[u8]) -> Result<(), Fault<'a>> {
    let Ok(path) = path_in(host.alloc(), folder, name) else {
        return Err(Fault::Memory);
    };
    match put_file(host, folder, path.as_str(), text) {
        Ok(()) => Ok(()),
        Err(_) => Err(Fault::UnwrittenBooks),
    }
}

/// Has what was made, moved or taken away in a folder on the disk.
pub(crate) fn sync<'a>(host: &HostRuntime, folder: &str) -> Result<(), Fault<'a>> {
    match fs::open(host, folder).and_then(|opened| opened.sync_all()) {
        Ok(()) => Ok(()),
        Err(_) => Err(Fault::UnwrittenBooks),
    }
}

/// Takes a file of that name out of the folder, if it is there.
fn remove_in<'a>(host: &HostRuntime, folder: &str, name: &str) -> Result<(), Fault<'a>> {
    let Ok(path) = path_in(host.alloc(), folder, name) else {
        return Err(Fault::Memory);
    };
    let _ = fs::remove_file(host, path.as_str());
    Ok(())
}

/// Takes the number of the folder's books away.
pub(crate) fn unnumber<'a>(host: &HostRuntime, folder: &str) -> Result<(), Fault<'a>> {
    remove_in(host, folder, NUMBERED)
}

/// Takes away what a stop left while the books of the folder got their number.
pub(crate) fn forget_unfinished<'a>(host: &HostRuntime, folder: &str) -> Result<(), Fault<'a>> {
    remove_in(host, folder, "books.new")
}

/// Whether the books of the folder are open. Where that can't be seen, as in a folder that this
/// user can't enter, whoever opens its stores tells why: each opening looks for that file too.
pub(crate) fn check_open<'a>(host: &HostRuntime, folder: &str) -> Result<(), Fault<'a>> {
    let Ok(path) = path_in(host.alloc(), folder, CLOSED) else {
        return Err(Fault::Memory);
    };
    match fs::symlink_metadata(host, path.as_str()) {
        Ok(_) => Err(Fault::Closed),
        Err(_) => Ok(()),
    }
}

/// Gives a folder what another one tells of its books: their number, and that they are closed.
/// What the other one doesn't tell stays as it is.
pub(crate) fn pass_books<'a>(
    host: &HostRuntime,
    from: &str,
    folder: &str,
) -> Result<(), Fault<'a>> {
    for name in [NUMBERED, CLOSED] {
        if let Some(text) = read_in(host, from, name)? {
            put_in(host, folder, name, text.as_slice())?;
        }
    }
    Ok(())
}
