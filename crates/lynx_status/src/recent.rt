//! The last entries of servers.
use lynx_lex::name::Name;
use lynx_names::{ChainId, ServerId, Stamp};

/// One of the last entries of a server.
#[derive(Clone, Copy, Debug, PartialEq, Eq)]
pub struct RecentEntry {
    pub server: ServerId,
    pub stamp: Stamp,
    /// The name of the program that was asked for, or that its chain runs.
    pub program: Name,
    pub kind: RecentKind,
}

/// What an entry is of.
#[derive(Clone, Copy, Debug, PartialEq, Eq)]
pub enum RecentKind {
    /// That chain began.
    Begun(ChainId),
    /// The first hop of a chain refused, and none began.
    Refused,
    /// A later hop of that chain ran.
    Hop { chain: ChainId, hop: u8 },
}
