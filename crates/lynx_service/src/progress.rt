//! How far a service is while something takes a while: for a person at a terminal, and for its log.
use crate::log::Log;
use std::io::IsTerminal;
use std::rt::HostRuntime;
use std::sync::{Mutex, Wait};
use std::time::{Duration, Instant};

/// Seconds between two lines of the log that tell how far something is.
const LOG_SECONDS: u64 = 10;

/// How far the opening of stores is.
#[derive(Clone, Copy)]
struct Way {
    stores: u64,
    /// The entries of those that are open.
    entries: u64,
    /// When the log was told last, or the opening began.
    told: Option<Instant>,
}

/// Tells on standard error what is under way, where that is a terminal, in one line that is written
/// over and in the end wiped away; and in the log a line once ten seconds have passed, as soon as
/// one more store is open.
#[derive(Drop)]
pub struct Progress<'a> {
    rt: &'a HostRuntime,
    log: &'a Log,
    is_shown: bool,
    way: Mutex<Way>,
}

impl<'a> Progress<'a> {
    /// Of this program, and of what is about to begin.
    pub fn new(rt: &'a HostRuntime, log: &'a Log) -> Progress<'a> {
        Progress {
            rt,
            log,
            is_shown: rt.stderr().is_terminal(),
            way: Mutex::new(Way {
                stores: 0,
                entries: 0,
                told: Instant::now(rt).ok(),
            }),
        }
    }

    /// The stores are being opened, so many.
    pub(crate) fn opens(&self, all: u64) {
        if self.is_shown {
            let _ = eprint!(self.rt; "\rlynx: opening {all} stores\x1b[K");
        }
    }

    /// One more of so many stores is open, which has so many entries.
    pub(crate) fn opened<R: Wait>(&self, rt: &R, all: u64, entries: u64) {
        let (way, is_due) = self.count(rt, entries);
        let (stores, entries) = (way.stores, way.entries);
        if self.is_shown {
            let _ = eprint!(self.rt;
                "\rlynx: opened {stores} of {all} stores, {entries} entries\x1b[K"
            );
        }
        if is_due {
            self.log.opening(stores, all, entries);
        }
    }

    /// Notes that one more store is open. Gives how far that is, and whether the log is to be told.
    fn count<R: Wait>(&self, rt: &R, entries: u64) -> (Way, bool) {
        let now = Instant::now(self.rt).ok();
        let mut way = self.way.lock(rt);
        way.stores = way.stores.saturating_add(1);
        way.entries = way.entries.saturating_add(entries);
        let is_due = match (way.told, now) {
            (Some(told), Some(now)) => {
                now.duration_since(told) >= Duration::from_secs(LOG_SECONDS)
            }
            _ => false,
        };
        if is_due {
            way.told = now;
        }
        (*way, is_due)
    }

    /// The servers start over what their stores hold.
    pub(crate) fn starts<R: Wait>(&self, rt: &R) {
        if self.is_shown {
            let entries = self.way.lock(rt).entries;
            let _ = eprint!(self.rt; "\rlynx: going over {entries} entries\x1b[K");
        }
    }

    /// What the stores hold is being compared.
    pub(crate) fn compares(&self) {
        if self.is_shown {
            let _ = eprint!(self.rt; "\rlynx: looking whether the stores fit together\x1b[K");
        }
    }

    /// What was done and told is being checked.
    pub(crate) fn closes(&self) {
        if self.is_shown {
            let _ = eprint!(self.rt; "\rlynx: checking all that was done and told\x1b[K");
        }
    }

    /// Nothing is under way.
    pub(crate) fn ends(&self) {
        if self.is_shown {
            let _ = eprint!(self.rt; "\r\x1b[K");
        }
    }
}
