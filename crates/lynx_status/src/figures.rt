//! The figures of a service.
ghost use Rattle.std.specs.Prelude.{◌≡◌};
ghost use Rattle.lynx_status.specs.Figures.{all_run, all_there, is_well};

use crate::begins::Begins;
use crate::commits::CommitTimes;
use crate::copies::CopyFigures;
use crate::deliveries::Deliveries;
use lynx_names::{ServerId, Stamp};

/// What a service has done since it was opened, and how it is.
#[derive(Debug, Drop)]
pub struct Figures {
    /// Those of each server of its set, in order.
    pub servers: Vec<ServerFigures>,
    /// Those of the stores that follow the servers, in order; none where no folder follows.
    pub copies: Vec<CopyFigures>,
    /// Connections of clients that are open.
    pub connections: u64,
    /// Sessions that were made.
    pub sessions: u64,
    /// Bytes of the answers that clients were told.
    pub told_bytes: u64,
    /// Seconds since it listens.
    pub uptime_seconds: u64,
    /// Lines of its log that were dropped, since nobody read those before them.
    pub log_dropped: u64,
}

/// What one server has done since it was opened, and how it is.
#[derive(Clone, Copy, Debug, PartialEq, Eq)]
pub struct ServerFigures {
    pub server: ServerId,
    /// Whether it answers: it isn't stopped.
    pub is_running: bool,
    /// Entries of its history, those of earlier services too.
    pub entries: u64,
    /// The stamp of its last entry.
    pub clock: Stamp,
    /// Messages that it holds.
    pub held: u64,
    /// Hops of begun chains that are owed to it: those that it hasn't run.
    pub owed: u64,
    pub begins: Begins,
    pub deliveries: Deliveries,
    pub commits: CommitTimes,
}

impl Figures {
    /// Whether no server is stopped.
    pub fn all_run(&self) -> bool
        ensures { result ≡ all_run self.now.servers.items }
    {
        self.servers.iter().all(|server| server.is_running)
    }

    /// Whether no store that follows a server is gone.
    fn all_there(&self) -> bool
        ensures { result ≡ all_there self.now.copies.items }
    {
        self.copies.iter().all(|copy| copy.is_there)
    }

    /// Whether no server is stopped, and no store that follows one is gone.
    pub fn is_well(&self) -> bool
        ensures { result ≡ is_well self.now.servers.items self.now.copies.items }
    {
        self.all_run() && self.all_there()
    }
}
