//! The file that takes the order with which a service ends.
use crate::fault::Fault;
use crate::reading::is_named_pipe;
use crate::shown::Shown;
use lynx_order::Explained;
use lynx_service::order_line;
use std::alloc::Global;
use std::fs::{self, File, OpenOptions};
use std::io::{self, Read, Write};

/// A file for the line of an order. It is opened before anybody is served, so that no service runs
/// for a day and can't write its order then. Until then the file keeps what it has.
#[derive(Drop)]
pub(crate) struct OrderFile<'a> {
    name: &'a str,
    file: File,
}

/// The file of that name can't be written.
fn unwritten<'a>(name: &'a str) -> Fault<'a> {
    Fault::Unwritten(Shown { name })
}

/// How what nobody wants to have overwritten begins: a store, the log beside one, and a set.
const NEEDED: [&[u8]; 4] = [
    b"SQLite format 3\0",
    &[0x37, 0x7f, 0x06],
    b"lynx 1\n",
    b"lynx 2\n",
];

/// Whether the file of that name begins as a store, the log beside one, or a set. Where it can't be
/// read, that isn't seen. A pipe isn't opened, which would wait.
pub(crate) fn is_needed(host: &HostRuntime, name: &str) -> bool {
    let mut head = [0u8; 16];
    if is_named_pipe(host, name) {
        return false;
    }
    match fs::open(host, name).and_then(|mut file| file.read(&mut head)) {
        Ok(_) => NEEDED.iter().any(|needed| head.starts_with(needed)),
        Err(_) => false,
    }
}

/// Puts these bytes, on the disk, in place of all that the file has.
fn replace(file: &mut File, bytes: &[u8]) -> io::Result<()> {
    file.set_len(0)?;
    file.write_all(bytes)?;
    file.sync_all()
}

impl<'a> OrderFile<'a> {
    /// The file of that name, which is made where there is none. A pipe isn't waited for: only a
    /// regular file is taken.
    pub(crate) fn open(host: &HostRuntime, name: &'a str) -> Result<OrderFile<'a>, Fault<'a>> {
        let is_other = fs::metadata(host, name).is_ok_and(|found| !found.is_file());
        if is_other || is_needed(host, name) {
            return Err(unwritten(name));
        }
        let mut options = OpenOptions::new();
        options.write(true).create(true);
        match options.open(host, name) {
            Ok(file) => Ok(OrderFile { name, file }),
            Err(_) => Err(unwritten(name)),
        }
    }

    /// Writes the line of that order as all that the file has.
    pub(crate) fn write(self, alloc: Global, explained: &Explained) -> Result<(), Fault<'a>> {
        let OrderFile { name, mut file } = self;
        let Ok(line) = order_line(alloc, explained) else {
            return Err(Fault::Memory);
        };
        match replace(&mut file, line.as_bytes()) {
            Ok(()) => Ok(()),
            Err(_) => Err(unwritten(name)),
        }
    }
}
