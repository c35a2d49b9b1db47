//! What those who watch a service share with the thread that copies.
use crate::limits::{MOST_PAUSE_LOOKS, PAUSE_LOOK_MILLIS};
use lynx_names::{Memory, ServerId};
use lynx_status::{CopyCommand, CopyDone, CopyFigures};
use std::alloc::Global;
use std::sync::Wait;
use std::sync::atomic::{AtomicBool, AtomicU64, Ordering};
use std::thread;
use std::time::{Clock, Duration};

/// How far the store of one server is in the folder that follows.
#[derive(Drop)]
struct Place {
    entries: AtomicU64,
    follows: AtomicBool,
    /// Its file was found gone.
    is_gone: AtomicBool,
}

/// How far the folder that follows is, and whether it is to pause.
#[derive(Drop)]
pub(crate) struct CopyRoom {
    places: Vec<Place>,
    /// The stores are to be closed.
    is_to_pause: AtomicBool,
    /// How often that was asked for.
    pauses: AtomicU64,
    /// The last of those pauses behind which all stores were closed.
    paused: AtomicU64,
    /// The last of those at which one couldn't be closed.
    unclosed: AtomicU64,
}

impl CopyRoom {
    /// Of so many servers. Nothing follows yet.
    pub(crate) fn new(alloc: Global, servers: u8) -> Result<CopyRoom, Memory> {
        let mut places = Vec::new(alloc);
        for _ in 0..servers {
            places.push(Place {
                entries: AtomicU64::new(0),
                follows: AtomicBool::new(false),
                is_gone: AtomicBool::new(false),
            })?;
        }
        Ok(CopyRoom {
            places,
            is_to_pause: AtomicBool::new(false),
            pauses: AtomicU64::new(0),
            paused: AtomicU64::new(0),
            unclosed: AtomicU64::new(0),
        })
    }

    /// The store of that server follows, and has so many entries.
    pub(crate) fn note(&self, server: ServerId, entries: u64) {
        if let Some(place) = self.places.as_slice().get(server.index()) {
            place.entries.store(entries, Ordering::SeqCst);
            place.follows.store(true, Ordering::SeqCst);
            place.is_gone.store(false, Ordering::SeqCst);
        }
    }

    /// The store of that server is closed, or failed.
    pub(crate) fn leave(&self, server: ServerId) {
        if let Some(place) = self.places.as_slice().get(server.index()) {
            place.follows.store(false, Ordering::SeqCst);
        }
    }

    /// Nothing is known of what the store of that server has.
    pub(crate) fn lose(&self, server: ServerId) {
        if let Some(place) = self.places.as_slice().get(server.index()) {
            place.entries.store(0, Ordering::SeqCst);
            place.follows.store(false, Ordering::SeqCst);
        }
    }

    /// The file of the store of that server is gone.
    pub(crate) fn note_gone(&self, server: ServerId) {
        self.lose(server);
        if let Some(place) = self.places.as_slice().get(server.index()) {
            place.is_gone.store(true, Ordering::SeqCst);
        }
    }

    /// No store follows.
    pub(crate) fn leave_all(&self) {
        for place in self.places.as_slice() {
            place.follows.store(false, Ordering::SeqCst);
        }
    }

    /// The number of the last pause, where the stores are to be closed.
    pub(crate) fn pause(&self) -> Option<u64> {
        let number = self.pauses.load(Ordering::SeqCst);
        self.is_to_pause.load(Ordering::SeqCst).then_some(number)
    }

    /// Whether all stores were closed since the pause of that number was asked for, ..
    pub(crate) fn is_paused(&self, number: u64) -> bool {
        self.paused.load(Ordering::SeqCst) >= number
    }

    /// .. and are so now.
    pub(crate) fn note_pause(&self, number: u64) {
        self.paused.store(number, Ordering::SeqCst);
    }

    /// Whether a store couldn't be closed since the pause of that number was asked for, ..
    pub(crate) fn is_unclosed(&self, number: u64) -> bool {
        self.unclosed.load(Ordering::SeqCst) >= number
    }

    /// .. and couldn't be now.
    pub(crate) fn note_unclosed(&self, number: u64) {
        self.unclosed.store(number, Ordering::SeqCst);
    }

    /// What is told of the store of a server that has so many entries.
    pub(crate) fn figures(&self, server: ServerId, entries: u64) -> Option<CopyFigures> {
        let place = self.places.as_slice().get(server.index())?;
        Some(CopyFigures {
            server,
            follows: place.follows.load(Ordering::SeqCst),
            behind: entries.saturating_sub(place.entries.load(Ordering::SeqCst)),
            is_there: !place.is_gone.load(Ordering::SeqCst),
        })
    }

    /// Has the stores closed, and waits until they are; or has them opened again.
    pub(crate) fn obey<R: Wait + Clock>(&self, rt: &R, command: CopyCommand) -> CopyDone {
        match command {
            CopyCommand::Resume => {
                self.is_to_pause.store(false, Ordering::SeqCst);
                CopyDone::Done
            }
            CopyCommand::Pause => {
                let before = self.pauses.fetch_add(1, Ordering::SeqCst);
                self.is_to_pause.store(true, Ordering::SeqCst);
                self.wait_for_pause(rt, before.saturating_add(1))
            }
        }
    }

    /// Waits until all stores are closed behind the pause of that number, or one couldn't be,
    /// for ten seconds or so at most.
    fn wait_for_pause<R: Wait + Clock>(&self, rt: &R, number: u64) -> CopyDone {
        for _ in 0..MOST_PAUSE_LOOKS {
            if self.is_paused(number) {
                return CopyDone::Done;
            }
            if self.is_unclosed(number) {
                break;
            }
            thread::sleep(rt, Duration::from_millis(PAUSE_LOOK_MILLIS));
        }
        CopyDone::Late
    }
}
