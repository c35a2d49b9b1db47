//! Why cells weren't carried.
use lynx_lex::name::Name;
use lynx_names::{Memory, ServerId};
use thiserror::Error;

/// Why cells weren't carried.
#[derive(Clone, Copy, Debug, PartialEq, Eq, Error)]
pub enum CarryFault {
    /// The set hasn't the table of a cell.
    #[error("table {table}: the set has no such table")]
    NoTable { table: Name },
    /// No program of the set writes a cell of that table at that server: none has a writing action
    /// there, or the ranges of each that has one leave the key or the value out.
    #[error("table {table}: no program writes its cell at server {server}")]
    NoWriter { table: Name, server: ServerId },
    /// The planned chains give the server so many entries, more than it can take.
    #[error("server {server}: {entries} entries are too many")]
    TooMany { server: ServerId, entries: u64 },
    /// The chains that were found don't leave the cells.
    #[error("the chains don't leave the cells")]
    Differs,
    #[error("out of memory")]
    Memory,
}

impl From<Memory> for CarryFault {
    ghost use Rattle.std.specs.Prelude.{◌≡◌};
    ghost use Rattle.lynx_carry.specs.declared.fault.CarryFault.TheVariants.{Memory as NoMemory};

    ghost from_gives = { λ _ fault. fault ≡ NoMemory };

    fn from(_: Memory) -> CarryFault {
        CarryFault::Memory
    }
}
