//! Why a server didn't do what entries did.
use lynx_names::Memory;
use thiserror::Error;

/// Why a server didn't do again what entries did. It may have done some of it.
#[derive(Clone, Copy, Debug, PartialEq, Eq, Error)]
pub enum RefillFault {
    /// Its history isn't these entries: one of them isn't lawful after those before it, or it did
    /// something before.
    #[error("another history")]
    Differs,
    /// Its keeper failed, or had no memory to settle what it did, and it stopped.
    #[error("the store failed")]
    Store,
    /// Want of memory.
    #[error("out of memory")]
    Memory,
}

impl From<Memory> for RefillFault {
    ghost use Rattle.std.specs.Prelude.{◌≡◌};
    ghost use Rattle.lynx_restore.specs.declared.refill_fault.RefillFault.TheVariants.{Memory as WantOfMemory};

    ghost from_gives = { λ _ fault. fault ≡ WantOfMemory };

    fn from(_: Memory) -> RefillFault {
        RefillFault::Memory
    }
}
