use lynx_lines::WriteFailed;
use lynx_names::Memory;
use lynx_store::StoreFault;
use thiserror::Error;

/// Why a store was not listed, or not to its end.
#[derive(Clone, Copy, Debug, PartialEq, Eq, Error)]
pub enum ShowFault {
    /// The tables are those of another version.
    #[error("other-version")]
    OtherVersion,
    /// The database is no store, or a row hasn't its form.
    #[error("damaged")]
    Damaged,
    /// The database failed.
    #[error("store")]
    Store,
    #[error("cannot write")]
    Write,
    #[error("out of memory")]
    Memory,
}

impl From<StoreFault> for ShowFault {
    ghost use Rattle.lynx_show.specs.Upgraded.{ShownAs};

    ghost from_gives = { λ fault shown. ShownAs fault shown };

    fn from(fault: StoreFault) -> ShowFault {
        match fault {
            StoreFault::OtherVersion => ShowFault::OtherVersion,
            StoreFault::OtherSet | StoreFault::Damaged => ShowFault::Damaged,
            StoreFault::Store => ShowFault::Store,
            StoreFault::Memory => ShowFault::Memory,
        }
    }
}

impl From<Memory> for ShowFault {
    ghost use Rattle.std.specs.Prelude.{◌≡◌};
    ghost use Rattle.lynx_show.specs.declared.fault.ShowFault.TheVariants.{Memory as NoMemory};

    ghost from_gives = { λ _ fault. fault ≡ NoMemory };

    fn from(_: Memory) -> ShowFault {
        ShowFault::Memory
    }
}

impl From<WriteFailed> for ShowFault {
    ghost use Rattle.std.specs.Prelude.{◌≡◌};
    ghost use Rattle.lynx_show.specs.declared.fault.ShowFault.TheVariants.{Write};

    ghost from_gives = { λ _ fault. fault ≡ Write };

    fn from(_: WriteFailed) -> ShowFault {
        ShowFault::Write
    }
}
