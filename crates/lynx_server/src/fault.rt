//! Why a server wasn't opened.
use lynx_keep::KeepFault;
use lynx_names::Memory;
use thiserror::Error;

/// Why a server wasn't opened.
#[derive(Clone, Copy, Debug, PartialEq, Eq, Error)]
pub enum OpenFault {
    /// No server of the set can have kept this. The place is that of the first entry that isn't
    /// lawful after those before it, counted from 0, or the count of entries where only the cells
    /// aren't theirs.
    #[error("damaged at entry {place}")]
    Damaged { place: u64 },
    /// The store failed.
    #[error("the store failed")]
    Store,
    /// Want of memory.
    #[error("out of memory")]
    Memory,
}

impl From<Memory> for OpenFault {
    ghost use Rattle.std.specs.Prelude.{◌≡◌};
    ghost use Rattle.lynx_server.specs.declared.fault.OpenFault.TheVariants.{Memory as WantOfMemory};

    ghost from_gives = { λ _ fault. fault ≡ WantOfMemory };

    fn from(_: Memory) -> OpenFault {
        OpenFault::Memory
    }
}

impl From<KeepFault> for OpenFault {
    ghost use Rattle.std.specs.Prelude.{◌≡◌};
    ghost use Rattle.lynx_server.specs.Opening.{open_fault};

    ghost from_gives = { λ kept fault. fault ≡ open_fault kept };

    fn from(fault: KeepFault) -> OpenFault {
        match fault {
            KeepFault::Memory => OpenFault::Memory,
            KeepFault::Failed => OpenFault::Store,
        }
    }
}
