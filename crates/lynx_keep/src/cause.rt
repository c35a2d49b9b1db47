use thiserror::Error;

/// Why a store failed, in the words of the database under it where it has some.
#[derive(Clone, Copy, Debug, PartialEq, Eq, Error)]
pub enum Cause {
    /// There is no room on the disk.
    #[error("database or disk is full")]
    Full,
    /// A call of the system failed at its file.
    #[error("disk I/O error")]
    Disk,
    #[error("out of memory")]
    Memory,
    /// A failure of the disk closed the database before.
    #[error("closed by an earlier failure of the disk")]
    Closed,
    /// It isn't in the form of a store.
    #[error("database disk image is malformed")]
    Damaged,
    /// What it keeps can't be read back.
    #[error("cannot be read back")]
    Unread,
    /// It has no place for one more entry.
    #[error("no place is left")]
    NoPlace,
    /// The database refused what was asked of it.
    #[error("refused by the database")]
    Refused,
}
