//! The log of a service: a line for each event of its life.
use crate::fault::CopyWord;
use crate::line_place::{LinePlace, SharedLines, StandardError};
use crate::log_file::LogFile;
use jiff::Timestamp;
use lynx_keep::Cause;
use lynx_names::{Memory, ServerId};
use std::alloc::AllocError;
use std::io;
use std::net::SocketAddr;
use std::rt::HostRuntime;
use std::sync::Arc;
use std::time::{Duration, SystemTime};

/// Why a client's connection ended.
#[derive(Clone, Copy)]
pub(crate) enum Leave {
    /// The client took leave, or closed its side.
    Quit,
    /// It asked for the end of the service.
    Shut,
    /// It was silent for too long, or the service ended.
    Silence,
    /// It sent what is no frame of a client.
    NoFrame,
    /// It left answers untaken for too long, or its stream broke.
    NotTaken,
    /// Memory was wanting, or as many turns were made as a connection may make.
    Limit,
}

impl Leave {
    /// Its word in the log.
    fn word(self) -> &'static str {
        match self {
            Leave::Quit => "quit",
            Leave::Shut => "shut",
            Leave::Silence => "silence",
            Leave::NoFrame => "no-frame",
            Leave::NotTaken => "not-taken",
            Leave::Limit => "limit",
        }
    }
}

/// Why a client couldn't be taken.
#[derive(Clone, Copy)]
pub(crate) enum Want {
    /// No thread could be made for it.
    Thread,
    /// Memory was wanting for it.
    Memory,
}

impl Want {
    /// What is said of it in the log.
    fn words(self) -> &'static str {
        match self {
            Want::Thread => "no thread",
            Want::Memory => "out of memory",
        }
    }
}

/// Where the log of a service goes.
#[derive(Clone, Copy, Debug, PartialEq, Eq)]
pub enum LogPlace<'a> {
    /// No log is kept.
    Nowhere,
    /// On standard error.
    StandardError,
    /// At the end of the file of that name.
    File(&'a str),
}

/// Why a service can't have its log.
#[derive(Clone, Copy, Debug, PartialEq, Eq)]
pub enum LogFault {
    /// Its file can't be opened, or is no regular file.
    File,
    /// Want of memory.
    Memory,
}

impl From<Memory> for LogFault {
    fn from(_: Memory) -> LogFault {
        LogFault::Memory
    }
}

/// The place, as threads share it.
fn shared<P: LinePlace + Drop>(rt: HostRuntime, place: P) -> Result<Arc<SharedLines<P>>, Memory> {
    Ok(Arc::new(rt.alloc(), SharedLines::new(rt, place))?)
}

/// The lines of the file of that name.
fn lines_of_file(rt: HostRuntime, name: &str) -> Result<Arc<SharedLines<LogFile>>, LogFault> {
    let Ok(path) = String::from_str(rt.alloc(), name) else {
        return Err(LogFault::Memory);
    };
    let Ok(file) = LogFile::open(&rt, path) else {
        return Err(LogFault::File);
    };
    Ok(shared(rt, file)?)
}

/// The events of a service, each told by a line: its time first (RFC 3339, in UTC), then
/// `event=WORD` and `key=value` words. A line that can't be written within a second is dropped, and
/// counted.
#[derive(Drop)]
pub struct Log {
    rt: HostRuntime,
    is_kept: bool,
    errors: Arc<SharedLines<StandardError>>,
    /// Where a file takes the lines.
    file: Option<Arc<SharedLines<LogFile>>>,
}

impl Log {
    /// Of this program, at that place. A file is made where there is none.
    pub fn new(rt: HostRuntime, place: LogPlace<'_>) -> Result<Log, LogFault> {
        let errors = shared(rt, StandardError::new())?;
        let file = match place {
            LogPlace::Nowhere | LogPlace::StandardError => None,
            LogPlace::File(name) => Some(lines_of_file(rt, name)?),
        };
        let is_kept = place != LogPlace::Nowhere;
        Ok(Log {
            rt,
            is_kept,
            errors,
            file,
        })
    }

    /// The same, for one more thread.
    pub(crate) fn share(&self) -> Result<Log, Memory> {
        let errors = self.errors.clone()?;
        let file = match &self.file {
            Some(file) => Some(file.clone()?),
            None => None,
        };
        Ok(Log {
            rt: self.rt,
            is_kept: self.is_kept,
            errors,
            file,
        })
    }

    /// How many lines were dropped.
    pub(crate) fn dropped(&self) -> u64 {
        let dropped = self.errors.dropped();
        match &self.file {
            Some(file) => dropped.saturating_add(file.dropped()),
            None => dropped,
        }
    }

    /// Writes a line of these words, in one piece, so that lines of threads don't mix.
    fn write(&self, words: Result<String, AllocError>) {
        let (true, Ok(words)) = (self.is_kept, words) else {
            return;
        };
        let Ok(now) = SystemTime::now(&self.rt) else {
            return;
        };
        let Ok(time) = Timestamp::try_from(now) else {
            return;
        };
        let Ok(line) = format!(in self.rt.alloc(); "{time} {words}\n") else {
            return;
        };
        match &self.file {
            Some(file) => file.write(line.as_str()),
            None => self.errors.write(line.as_str()),
        }
    }

    /// Writes a line of these words on standard error where no log is kept, since nothing else
    /// tells them.
    fn write_bare(&self, words: Result<String, AllocError>) {
        let Ok(words) = words else {
            return;
        };
        if let Ok(line) = format!(in self.rt.alloc(); "lynx: {words}\n") {
            self.errors.write(line.as_str());
        }
    }

    /// No file can grow beyond so many bytes: the write that would make one greater ends this
    /// program, and nothing can be told then.
    pub(crate) fn bounded(&self, bytes: u64) {
        let alloc = self.rt.alloc();
        if self.is_kept {
            self.write(format!(in alloc; "event=file-limit bytes={bytes}"));
        } else {
            self.write_bare(format!(in alloc; "no file can grow beyond {bytes} bytes"));
        }
    }

    /// The server goes on after so many entries.
    pub(crate) fn opened(&self, server: ServerId, entries: usize) {
        let server = server.number();
        let alloc = self.rt.alloc();
        self.write(format!(in alloc; "event=opened server={server} entries={entries}"));
    }

    /// So many of all stores are open, with so many entries.
    pub(crate) fn opening(&self, stores: u64, all: u64, entries: u64) {
        let alloc = self.rt.alloc();
        self.write(format!(in alloc; "event=opening stores={stores} of={all} entries={entries}"));
    }

    /// Clients are listened to, and those who watch if there is a port for them.
    pub(crate) fn listening(&self, address: SocketAddr, status: Option<SocketAddr>) {
        let alloc = self.rt.alloc();
        self.write(format!(in alloc; "event=listening address={address}"));
        if let Some(status) = status {
            self.write(format!(in alloc; "event=status address={status}"));
        }
    }

    /// A client came, which makes so many.
    pub(crate) fn taken(&self, clients: u64) {
        let alloc = self.rt.alloc();
        self.write(format!(in alloc; "event=client clients={clients}"));
    }

    /// A client was hung up on, since so many are in.
    pub(crate) fn refused(&self, clients: u64) {
        let alloc = self.rt.alloc();
        self.write(format!(in alloc; "event=full-house clients={clients}"));
    }

    /// A client couldn't be taken, which the system tells so. The first is told, until one could.
    pub(crate) fn untaken(&self, error: &io::Error) {
        let alloc = self.rt.alloc();
        self.write(format!(in alloc; "event=turned-away cause=\"{error}\""));
    }

    /// The same, of one that was hung up on for want of that.
    pub(crate) fn turned_away(&self, want: Want) {
        let alloc = self.rt.alloc();
        let words = want.words();
        self.write(format!(in alloc; "event=turned-away cause=\"{words}\""));
    }

    /// A client went, which leaves so many.
    pub(crate) fn gone(&self, leave: Leave, clients: u64) {
        let alloc = self.rt.alloc();
        let reason = leave.word();
        self.write(format!(in alloc; "event=gone reason={reason} clients={clients}"));
    }

    /// The store of a server failed, for that cause if it is known.
    pub(crate) fn stopped(&self, server: ServerId, cause: Option<Cause>) {
        let alloc = self.rt.alloc();
        let server = server.number();
        let words = match cause {
            Some(cause) => format!(in alloc;
                "event=stopped server={server} file=server-{server}.lynx cause=\"{cause}\""
            ),
            None => format!(in alloc; "event=stopped server={server} file=server-{server}.lynx"),
        };
        self.write(words);
    }

    /// The name of that server's store leads to nothing, or to another file: no server answers a
    /// begin any more.
    pub(crate) fn store_gone(&self, server: ServerId) {
        let alloc = self.rt.alloc();
        let server = server.number();
        self.write(format!(in alloc; "event=store-gone server={server} file=server-{server}.lynx"));
    }

    /// There is no thread that would look whether the stores are still there.
    pub(crate) fn no_guard_thread(&self) {
        self.write(format!(in self.rt.alloc(); "event=unguarded fault=no-thread"));
    }

    /// The store that follows the server does, from so many entries on.
    pub(crate) fn copying(&self, server: ServerId, entries: u64) {
        let alloc = self.rt.alloc();
        let server = server.number();
        self.write(format!(in alloc; "event=copying server={server} entries={entries}"));
    }

    /// There is no thread that would copy: the folder that follows lacks what is done from now on,
    /// until the end.
    pub(crate) fn no_copy_thread(&self) {
        if self.is_kept {
            self.write(format!(in self.rt.alloc(); "event=copy-failed fault=no-thread"));
        } else {
            self.write_bare(format!(in self.rt.alloc(); "copy: no thread"));
        }
    }

    /// All stores that follow are closed.
    pub(crate) fn copy_paused(&self) {
        self.write(format!(in self.rt.alloc(); "event=copy-paused"));
    }

    /// The store that follows the server failed, for that cause if it is known. Where no log is
    /// wanted a line tells it all the same, since nothing else does.
    pub(crate) fn copy_failed(&self, server: ServerId, word: CopyWord, cause: Option<Cause>) {
        let alloc = self.rt.alloc();
        let server = server.number();
        if !self.is_kept {
            self.write_bare(format!(in alloc; "copy {server}: {word}"));
            return;
        }
        let words = match cause {
            Some(cause) => format!(in alloc;
                "event=copy-failed server={server} file=server-{server}.lynx fault={word} cause=\"{cause}\""
            ),
            None => format!(in alloc;
                "event=copy-failed server={server} file=server-{server}.lynx fault={word}"
            ),
        };
        self.write(words);
    }

    /// The end begins, with so many hops owed.
    pub(crate) fn closing(&self, owed: u64) {
        let alloc = self.rt.alloc();
        self.write(format!(in alloc; "event=closing owed={owed}"));
    }

    /// All that was done and told was looked through.
    pub(crate) fn audited(&self, is_well: bool, took: Option<Duration>) {
        let alloc = self.rt.alloc();
        let millis = match took {
            Some(took) => took.as_millis(),
            None => 0,
        };
        self.write(format!(in alloc; "event=audited well={is_well} milliseconds={millis}"));
    }
}
