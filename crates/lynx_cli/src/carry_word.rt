//! Why cells weren't carried, as a fault line tells it.
use crate::shown::ShownTable;
use thiserror::Error;

/// Why cells weren't carried: [`CarryFault`](lynx_carry::CarryFault), but for want of memory.
#[derive(Clone, Copy, Debug, PartialEq, Eq, Error)]
pub enum CarryWord {
    /// The set hasn't the table of a cell.
    #[error("table {table}: the set has no such table")]
    NoTable { table: ShownTable },
    /// No program of the set writes a cell of that table at that server.
    #[error("table {table}: no program writes its cell at server {server}")]
    NoWriter { table: ShownTable, server: u8 },
    /// The chains give the server so many entries, more than it can take.
    #[error("server {server}: {entries} entries are too many")]
    TooMany { server: u8, entries: u64 },
    /// The chains that were found don't leave the cells.
    #[error("the chains don't leave the cells")]
    Differs,
}
