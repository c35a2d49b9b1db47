//! Where the lines of a log go: one at a time, and nobody waits for one longer than a second.
use crate::limits::{LINE_LOOK_MILLIS, LINE_LOOKS, LINE_MILLIS};
use crate::readiness::can_write;
use std::rt::HostRuntime;
use std::sync::atomic::{AtomicU64, Ordering};
use std::sync::{Mutex, MutexGuard};
use std::thread;
use std::time::Duration;

/// The file handle of standard error.
const STANDARD_ERROR: i32 = 2;

/// A place where lines go.
pub(crate) trait LinePlace {
    /// Writes the line, which has its LF. Whether it went.
    fn put(&mut self, rt: &HostRuntime, line: &str) -> bool;
}

/// Standard error. A pipe that nobody reads holds up no client and no end: behind a line that
/// couldn't go within a second, none is waited for until one can.
#[derive(Drop)]
pub(crate) struct StandardError {
    is_stuck: bool,
}

impl StandardError {
    /// Of this program.
    pub(crate) fn new() -> StandardError {
        StandardError { is_stuck: false }
    }
}

impl LinePlace for StandardError {
    fn put(&mut self, rt: &HostRuntime, line: &str) -> bool {
        let wait = if self.is_stuck { 0 } else { LINE_MILLIS };
        let can_go = can_write(STANDARD_ERROR, wait);
        self.is_stuck = !can_go;
        if can_go {
            let _ = eprint!(*rt; "{line}");
        }
        can_go
    }
}

/// A place of lines, as the threads of a service share it. A line that can't go is dropped and
/// counted, and so is one whose thread waited a second for others to write theirs.
#[derive(Drop)]
pub(crate) struct SharedLines<P> {
    rt: HostRuntime,
    place: Mutex<P>,
    dropped: AtomicU64,
}

impl<P: LinePlace> SharedLines<P> {
    /// None was dropped yet.
    pub(crate) fn new(rt: HostRuntime, place: P) -> SharedLines<P> {
        SharedLines {
            rt,
            place: Mutex::new(place),
            dropped: AtomicU64::new(0),
        }
    }

    /// How many lines were dropped.
    pub(crate) fn dropped(&self) -> u64 {
        self.dropped.load(Ordering::SeqCst)
    }

    /// Waits a second at most until nobody else writes.
    fn hold(&self) -> Option<MutexGuard<'_, P>> {
        for _ in 0..LINE_LOOKS {
            if let Some(held) = self.place.try_lock() {
                return Some(held);
            }
            thread::sleep(&self.rt, Duration::from_millis(LINE_LOOK_MILLIS));
        }
        None
    }

    /// Writes the line, which has its LF. Whether it went.
    fn try_write(&self, line: &str) -> bool {
        match self.hold() {
            Some(mut place) => place.put(&self.rt, line),
            None => false,
        }
    }

    /// Writes the line, which has its LF, or drops and counts it.
    pub(crate) fn write(&self, line: &str) {
        if !self.try_write(line) {
            self.dropped.fetch_add(1, Ordering::SeqCst);
        }
    }
}
