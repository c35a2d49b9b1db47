//! What was restored.
use crate::undone::Undone;
use lynx_names::ServerId;

/// How much of the copy of a server was restored.
#[derive(Clone, Copy, Debug, PartialEq, Eq)]
pub struct RestoredServer {
    pub server: ServerId,
    /// The entries that its new store has.
    pub taken: u64,
    /// The entries that the copy has, or that were found of it.
    pub of: u64,
}

/// What was restored of copies, and what wasn't.
#[derive(Debug, Drop)]
pub struct Restored {
    /// By number.
    pub servers: Vec<RestoredServer>,
    /// What goes with each entry that was cut off, by server, then in order.
    pub undone: Vec<Undone>,
}
