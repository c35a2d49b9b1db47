//! The open connections of a service: clients, the sessions that wait for the next client, and
//! those that watch.
use crate::end_request::EndRequest;
use crate::limits::{
    BRIEF_MILLIS, MAX_BRIEF_WATCHERS, MAX_CLIENTS, MAX_WATCH_SECONDS, MAX_WATCHERS,
    MAX_WRITE_SECONDS,
};
use lynx_cluster::{Frontend, Gate, Session};
use lynx_keep::BatchKeeper;
use std::alloc::{AllocFailed, Global};
use std::sync::atomic::{AtomicBool, AtomicU64, Ordering};
use std::sync::{Mutex, Wait};
use std::time::Duration;

/// The clients of a service. They must be spent, as their sessions must.
struct Clients {
    /// How many connections are open.
    count: u64,
    /// The sessions of those that have ended.
    sessions: Vec<Session>,
}

/// What a service says to a client that comes.
#[derive(Clone, Copy)]
pub(crate) enum Admission {
    /// It is served.
    Admitted,
    /// As many clients are connected as may be.
    Full,
    /// Memory is wanting.
    Memory,
}

/// For how long a connection may watch.
#[derive(Clone, Copy)]
pub(crate) enum WatchTime {
    /// One of those that watch.
    Long,
    /// One more, as long as it asks at once.
    Brief,
}

impl WatchTime {
    /// After which time it is read no more.
    pub(crate) fn reading(self) -> Duration {
        match self {
            WatchTime::Long => Duration::from_secs(MAX_WATCH_SECONDS),
            WatchTime::Brief => Duration::from_millis(BRIEF_MILLIS),
        }
    }

    /// For how long it may leave answers untaken.
    pub(crate) fn writing(self) -> Duration {
        match self {
            WatchTime::Long => Duration::from_secs(MAX_WRITE_SECONDS),
            WatchTime::Brief => Duration::from_millis(BRIEF_MILLIS),
        }
    }
}

/// The open connections, as the threads of a service share them. A connection that ends leaves its
/// session to the next one, with all that it was told, so that a service makes no more of them than
/// it has clients at a time. It must be spent, by [`Connections::into_sessions`].
pub(crate) struct Connections {
    clients: Mutex<Clients>,
    end_request: EndRequest,
    are_closed: AtomicBool,
    /// Whether the last client that came couldn't be taken.
    turned_away: AtomicBool,
    /// Sessions that were made.
    made: AtomicU64,
    /// Bytes that clients were told.
    told: AtomicU64,
    /// .. and those who watch.
    shown: AtomicU64,
    /// How many connections watch.
    watchers: AtomicU64,
}

impl Connections {
    /// Nobody is connected, and no end is asked for.
    pub(crate) fn new(alloc: Global) -> Connections {
        Connections {
            clients: Mutex::new(Clients {
                count: 0,
                sessions: Vec::new(alloc),
            }),
            end_request: EndRequest::new(),
            are_closed: AtomicBool::new(false),
            turned_away: AtomicBool::new(false),
            made: AtomicU64::new(0),
            told: AtomicU64::new(0),
            shown: AtomicU64::new(0),
            watchers: AtomicU64::new(0),
        }
    }

    /// Whether the service is to end.
    pub(crate) fn end_request(&self) -> &EndRequest {
        &self.end_request
    }

    /// No client is let in any more.
    pub(crate) fn close(&self) {
        self.are_closed.store(true, Ordering::SeqCst);
    }

    /// Whether no client is let in any more.
    pub(crate) fn are_closed(&self) -> bool {
        self.are_closed.load(Ordering::SeqCst)
    }

    /// Lets one more client in, with room for its session when it goes.
    pub(crate) fn admit<R: Wait>(&self, rt: &R) -> Admission {
        let mut clients = self.clients.lock(rt);
        let count = clients.count;
        if count >= MAX_CLIENTS {
            return Admission::Full;
        }
        if clients.sessions.reserve(MAX_CLIENTS as usize).is_err() {
            return Admission::Memory;
        }
        clients.count = count + 1;
        Admission::Admitted
    }

    /// Notes that a client could be taken.
    pub(crate) fn note_taken(&self) {
        self.turned_away.store(false, Ordering::SeqCst);
    }

    /// Notes that one couldn't. Whether the last one before it could.
    pub(crate) fn note_turned_away(&self) -> bool {
        !self.turned_away.swap(true, Ordering::SeqCst)
    }

    /// A session for a client that was let in: that of one that has gone, or a new one.
    pub(crate) fn session<R: Wait, K: BatchKeeper, G: Gate>(
        &self,
        rt: &R,
        alloc: Global,
        frontend: &Frontend<K, G>,
    ) -> Option<Session> {
        let left = self.clients.lock(rt).sessions.pop();
        match left {
            Some(session) => Some(session),
            None => {
                let made = frontend.session(rt, alloc);
                if made.is_some() {
                    self.made.fetch_add(1, Ordering::SeqCst);
                }
                made
            }
        }
    }

    /// A client goes, and leaves its session, if it was given one. Its admission made the room for
    /// it; without room it would be abandoned.
    pub(crate) fn release<R: Wait>(&self, rt: &R, session: Option<Session>) {
        let mut clients = self.clients.lock(rt);
        clients.count = clients.count.saturating_sub(1);
        if let Some(session) = session
            && let Err(AllocFailed { value }) = clients.sessions.push(session)
        {
            value.abandon();
        }
    }

    /// How many clients are connected.
    pub(crate) fn clients<R: Wait>(&self, rt: &R) -> u64 {
        self.clients.lock(rt).count
    }

    /// How many sessions were made.
    pub(crate) fn sessions(&self) -> u64 {
        self.made.load(Ordering::SeqCst)
    }

    /// How many bytes clients were told.
    pub(crate) fn told(&self) -> &AtomicU64 {
        &self.told
    }

    /// The same, as a number.
    pub(crate) fn told_bytes(&self) -> u64 {
        self.told.load(Ordering::SeqCst)
    }

    /// How many bytes those were told that watch, which is no figure of the service.
    pub(crate) fn shown(&self) -> &AtomicU64 {
        &self.shown
    }

    /// Lets one more watch. None where as many do as may.
    pub(crate) fn watch(&self) -> Option<WatchTime> {
        let before = self.watchers.fetch_add(1, Ordering::SeqCst);
        if before < MAX_WATCHERS {
            return Some(WatchTime::Long);
        }
        if before - MAX_WATCHERS < MAX_BRIEF_WATCHERS {
            return Some(WatchTime::Brief);
        }
        self.unwatch();
        None
    }

    /// One who watched goes.
    pub(crate) fn unwatch(&self) {
        self.watchers.fetch_sub(1, Ordering::SeqCst);
    }

    /// The sessions of all that were connected.
    pub(crate) fn into_sessions(self) -> Vec<Session> {
        let Connections {
            clients,
            end_request: _,
            are_closed: _,
            turned_away: _,
            made: _,
            told: _,
            shown: _,
            watchers: _,
        } = self;
        let Clients { count: _, sessions } = clients.into_inner();
        sessions
    }
}
