//! Whether a service is to end, and since when.
use crate::limits::MAX_CLOSING_SECONDS;
use std::sync::atomic::{AtomicBool, Ordering};
use std::sync::{Mutex, Wait};
use std::time::{Clock, Duration, Instant};

/// Whether a client asked for the end of a service.
#[derive(Drop)]
pub struct EndRequest {
    is_asked: AtomicBool,
    since: Mutex<Option<Instant>>,
}

impl EndRequest {
    /// Nobody asked for it.
    pub(crate) fn new() -> EndRequest {
        EndRequest {
            is_asked: AtomicBool::new(false),
            since: Mutex::new(None),
        }
    }

    /// The service is to end.
    pub(crate) fn ask<R: Wait + Clock>(&self, rt: &R) {
        let mut since = self.since.lock(rt);
        if since.is_none() {
            *since = Instant::now(rt).ok();
        }
        drop(since);
        self.is_asked.store(true, Ordering::SeqCst);
    }

    /// Whether the service is to end.
    pub(crate) fn is_asked(&self) -> bool {
        self.is_asked.load(Ordering::SeqCst)
    }

    /// Whether the service is to end, and the time is over for which clients are read. So it is
    /// where no clock can tell.
    pub(crate) fn is_over<R: Wait + Clock>(&self, rt: &R) -> bool {
        if !self.is_asked() {
            return false;
        }
        let since = *self.since.lock(rt);
        match since {
            Some(since) => match since.elapsed(rt) {
                Ok(elapsed) => elapsed >= Duration::from_secs(MAX_CLOSING_SECONDS),
                Err(_) => true,
            },
            None => true,
        }
    }
}
