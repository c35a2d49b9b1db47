//! The file of a log.
use crate::identity::{Identity, identity_of};
use crate::line_place::LinePlace;
use std::fs::{self, File, OpenOptions};
use std::io::{self, ErrorKind, Write};
use std::rt::HostRuntime;

/// A file that is open for lines to be added, and by what it is known.
#[derive(Drop)]
struct OpenFile {
    file: File,
    identity: Identity,
}

/// Opens the file of that name, which is made where there is none.
fn open_file(rt: &HostRuntime, path: &str) -> io::Result<OpenFile> {
    let mut options = OpenOptions::new();
    options.append(true).create(true);
    let file = options.open(rt, path)?;
    let identity = identity_of(&file.metadata()?);
    Ok(OpenFile { file, identity })
}

/// The file of a log. Once its name leads to another file, or to none, the file of that name is
/// opened: who moves a log away, as logrotate does, has to tell nobody.
#[derive(Drop)]
pub(crate) struct LogFile {
    path: String,
    /// None where it couldn't be opened again.
    opened: Option<OpenFile>,
}

impl LogFile {
    /// Of that name. A pipe isn't waited for: only a regular file is taken.
    pub(crate) fn open(rt: &HostRuntime, path: String) -> io::Result<LogFile> {
        if fs::metadata(rt, path.as_str()).is_ok_and(|found| !found.is_file()) {
            return Err(io::Error::from(ErrorKind::InvalidInput));
        }
        let opened = open_file(rt, path.as_str())?;
        Ok(LogFile {
            path,
            opened: Some(opened),
        })
    }

    /// Whether the name leads to the file that is open. Where the system can't tell, it does.
    fn is_there(&self, rt: &HostRuntime) -> bool {
        let Some(opened) = &self.opened else {
            return false;
        };
        match fs::metadata(rt, self.path.as_str()) {
            Ok(found) => identity_of(&found) == opened.identity,
            Err(error) => !matches!(error.kind(), ErrorKind::NotFound | ErrorKind::NotADirectory),
        }
    }
}

impl LinePlace for LogFile {
    fn put(&mut self, rt: &HostRuntime, line: &str) -> bool {
        if !self.is_there(rt) {
            self.opened = open_file(rt, self.path.as_str()).ok();
        }
        match &mut self.opened {
            Some(opened) => opened.file.write_all(line.as_bytes()).is_ok(),
            None => false,
        }
    }
}
