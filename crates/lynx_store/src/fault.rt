use lynx_names::Memory;
use thiserror::Error;

/// Why a store was not opened.
#[derive(Clone, Copy, Debug, PartialEq, Eq, Error)]
pub enum StoreFault {
    /// The database is the store of another server, or of another set.
    #[error("the store of another set")]
    OtherSet,
    /// The tables are those of another version.
    #[error("the store of another version")]
    OtherVersion,
    /// The database has other tables than a store's, or a row that hasn't its form.
    #[error("the store is damaged")]
    Damaged,
    /// The database failed.
    #[error("the store failed")]
    Store,
    /// Want of memory, of the keeper's own.
    #[error("out of memory")]
    Memory,
}

impl From<Memory> for StoreFault {
    ghost use Rattle.std.specs.Prelude.{◌≡◌};
    ghost use Rattle.lynx_store.specs.declared.fault.StoreFault.TheVariants.{Memory as NoMemory};

    ghost from_gives = { λ _ fault. fault ≡ NoMemory };

    fn from(_: Memory) -> StoreFault {
        StoreFault::Memory
    }
}
