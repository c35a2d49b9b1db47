//! What a client may cost.

/// Connections that are open at a time, at most. A further one is closed at once.
pub const MAX_CLIENTS: u64 = 64;

/// Seconds for which a client may be silent, at most: after them its connection ends, as if its
/// input had.
pub const MAX_IDLE_SECONDS: u64 = 600;

/// Seconds for which a client may be silent once a client asked for the end.
pub const MAX_SHUT_SECONDS: u64 = 1;

/// Seconds after which nothing more is read of any client once one asked for the end.
pub const MAX_CLOSING_SECONDS: u64 = 10;

/// Seconds for which a client may leave answers untaken, from the first byte on that doesn't go.
pub const MAX_WRITE_SECONDS: u64 = 10;

/// Connections that watch the status of a service at a time, at most. A further one is closed
/// unread.
pub const MAX_WATCHERS: u64 = 8;

/// Further connections that are let in while as many watch as may: those that ask at once are
/// answered, so that a service tells how it is beside others that hold their places.
pub const MAX_BRIEF_WATCHERS: u64 = 8;

/// Milliseconds after which such a one is read no more, and those for which it may leave answers
/// untaken.
pub const BRIEF_MILLIS: u64 = 250;

/// Seconds after which a connection that watches is read no more: whoever goes on connects again.
pub const MAX_WATCH_SECONDS: u64 = 20;

/// Milliseconds after which a read or a write that waits looks whether it has to end.
pub(crate) const TICK_MILLIS: u64 = 250;

/// Milliseconds after which a thread that waits for connections looks whether it has to end.
pub(crate) const ACCEPT_MILLIS: i32 = 100;

/// Milliseconds that go by after a connection could not be taken, for want of file handles say,
/// before the next is.
pub(crate) const RETRY_MILLIS: u64 = 20;

/// Entries that are taken of a server at once for the folder that follows, and kept there in one
/// transaction, at most.
pub const MOST_COPIED: usize = 1_000;

/// Milliseconds after which a server that has added nothing more is looked at again for the folder
/// that follows.
pub(crate) const COPY_MILLIS: u64 = 100;

/// Milliseconds after which the files of its stores are looked at again.
pub(crate) const COPY_LOOK_MILLIS: u64 = 1_000;

/// Seconds after which a store of the folder that follows is opened again that failed.
pub const COPY_RETRY_SECONDS: u64 = 60;

/// Milliseconds between two looks whether the stores of the folder that follows are closed, ..
pub(crate) const PAUSE_LOOK_MILLIS: u64 = 10;

/// .. and such looks, at most.
pub(crate) const MOST_PAUSE_LOOKS: u32 = 1_000;

/// Milliseconds between two looks whether the service is to end, of the thread that looks whether
/// its stores are still where their names lead, ..
pub(crate) const LOOK_STEP_MILLIS: u64 = 100;

/// .. and how many of them it makes between two looks at the stores: a second's.
pub(crate) const LOOK_STEPS: u64 = 10;

/// Milliseconds within which a line has to go that is written to standard error, ..
pub(crate) const LINE_MILLIS: i32 = 1_000;

/// .. those between two looks whether another one is being written, ..
pub(crate) const LINE_LOOK_MILLIS: u64 = 1;

/// .. and such looks, at most.
pub(crate) const LINE_LOOKS: u64 = 1_000;
