//! The file by which clients find a service, in the folder of its stores.
ghost use Rattle.std.specs.Prelude.{◌≡◌, ◌++◌, codes, IfOk};
ghost use Rattle.std.specs.String.{string_bytes};

use crate::notice::{Notice, notice_in, notice_text};
use lynx_names::Memory;
use std::alloc::Global;
use std::fs::OpenOptions;
use std::io::{ErrorKind, Write};
use std::net::SocketAddr;
use std::rt::HostRuntime;
use std::{fs, io};

/// Where a service tells clients of itself: the file `service` in its folder.
#[derive(Clone, Copy)]
pub struct NoticeFile<'a> {
    pub rt: &'a HostRuntime,
    pub folder: &'a str,
    /// The text of the set that is served.
    pub set: &'a [u8],
}

/// The path of the file in the folder.
pub fn service_path(alloc: Global, folder: &str) -> Result<String, Memory>
    ensures { IfOk result (λ path. string_bytes path ≡ folder.now ++ codes "/service") }
{
    match format!(in alloc; "{folder}/service") {
        Ok(path) => Ok(path),
        Err(_) => Err(Memory),
    }
}

/// Want of memory.
fn no_memory() -> io::Error {
    io::Error::from(ErrorKind::OutOfMemory)
}

impl<'a> NoticeFile<'a> {
    /// Tells clients that the service listens there, and where it tells its status, if it does:
    /// the file is made under another name, and renamed when it is whole. What is there under
    /// either name is taken away, and no link is followed: a service that was killed left it.
    pub fn write(&self, address: SocketAddr, status: Option<SocketAddr>) -> io::Result<()> {
        let alloc = self.rt.alloc();
        let folder = self.folder;
        let notice = Notice {
            port: address.port(),
            status: status.map(|address| address.port()),
            set: self.set,
        };
        let Ok(text) = notice_text(alloc, notice) else {
            return Err(no_memory());
        };
        let Ok(new) = format!(in alloc; "{folder}/service.new") else {
            return Err(no_memory());
        };
        let Ok(path) = service_path(alloc, folder) else {
            return Err(no_memory());
        };
        let _ = fs::remove_file(self.rt, new.as_str());
        let mut options = OpenOptions::new();
        options.write(true).create_new(true);
        let mut file = options.open(self.rt, new.as_str())?;
        file.write_all(text.as_slice())?;
        drop(file);
        fs::rename(self.rt, new.as_str(), path.as_str())
    }

    /// Whether the file at that path tells of a service that listens there.
    fn tells(&self, path: &str, address: SocketAddr) -> bool {
        if !fs::metadata(self.rt, path).is_ok_and(|found| found.is_file()) {
            return false;
        }
        let Ok(text) = fs::read(self.rt, path) else {
            return false;
        };
        match notice_in(text.as_slice()) {
            Some(notice) => notice.port == address.port(),
            None => false,
        }
    }

    /// Tells clients no more of the service that listens there. The file stays where it tells of
    /// another service, whose folder came to this path since, and where it can't be taken away.
    pub fn remove(&self, address: SocketAddr) {
        if let Ok(path) = service_path(self.rt.alloc(), self.folder)
            && self.tells(path.as_str(), address)
        {
            let _ = fs::remove_file(self.rt, path.as_str());
        }
    }
}
