//! What can be looked up of what a service did.
use lynx_lex::name::Name;
use lynx_names::{ChainId, ClientId};

/// What can be looked up of what a service did.
#[derive(Clone, Copy, Debug, PartialEq, Eq)]
pub enum Wanted {
    /// `/cells/TABLE/KEY`: what that cell holds.
    Cell { table: Name, key: u64 },
    /// `/cells/TABLE?from=F&to=T&limit=L`: the cells of a table that aren't 0.
    Cells { table: Name, range: CellRange },
    /// `/requests/CLIENT/NUMBER`: what became of that request.
    Request { client: ClientId, number: u64 },
    /// `/chains/ORIGIN:INDEX`: what that chain did, and for whom.
    Chain(ChainId),
}

/// Which cells of a table are asked for.
#[derive(Clone, Copy, Debug, PartialEq, Eq)]
pub struct CellRange {
    /// The first key, 0 if left out.
    pub from: u64,
    /// The last key, 2^64-1 if left out; not below the first.
    pub to: u64,
    /// How many cells at most: 1 to 10,000, 1,000 if left out.
    pub limit: u64,
}
