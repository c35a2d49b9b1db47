//! Why stores weren't given to a set.
ghost use Rattle.std.specs.Prelude.{◌≡◌};
ghost use Rattle.lynx_give.specs.Faults.{store_fault};

use lynx_lines::WriteFailed;
use lynx_names::{Memory, ServerId};
use lynx_store::StoreFault;
use std::alloc::AllocFailed;
use thiserror::Error;

/// Why the stores of a folder weren't given to a set, or not all of them. Before anything is made
/// all were read; after Write, or a fault of a store that is then made, given or closed, some are
/// of the set, and the others as they were: the next time goes on.
#[derive(Clone, Copy, Debug, PartialEq, Eq, Error)]
pub enum GiveFault {
    /// The store of that server can't be opened, made, given to the set or closed; never for want
    /// of memory.
    #[error("server {server}: {fault}")]
    Store { server: ServerId, fault: StoreFault },
    /// The store of that server was there, and isn't: nothing is made in its place.
    #[error("server {server}: missing")]
    Lost { server: ServerId },
    /// A line was not written.
    #[error("cannot write")]
    Write,
    /// Want of memory.
    #[error("out of memory")]
    Memory,
}

impl GiveFault {
    /// The fault of the store of that server.
    pub(crate) fn of_store(server: ServerId, fault: StoreFault) -> GiveFault
        ensures { result ≡ store_fault server fault }
    {
        match fault {
            StoreFault::Memory => GiveFault::Memory,
            fault => GiveFault::Store { server, fault },
        }
    }
}

impl From<WriteFailed> for GiveFault {
    ghost use Rattle.std.specs.Prelude.{◌≡◌};
    ghost use Rattle.lynx_give.specs.declared.fault.GiveFault.TheVariants.{Write};

    ghost from_gives = { λ _ told. told ≡ Write };

    fn from(_: WriteFailed) -> GiveFault {
        GiveFault::Write
    }
}

impl From<Memory> for GiveFault {
    ghost use Rattle.std.specs.Prelude.{◌≡◌};
    ghost use Rattle.lynx_give.specs.declared.fault.GiveFault.TheVariants.{Memory as WantOfMemory};

    ghost from_gives = { λ _ told. told ≡ WantOfMemory };

    fn from(_: Memory) -> GiveFault {
        GiveFault::Memory
    }
}

impl<T: Drop> From<AllocFailed<T>> for GiveFault {
    ghost use Rattle.std.specs.Prelude.{◌≡◌};
    ghost use Rattle.lynx_give.specs.declared.fault.GiveFault.TheVariants.{Memory as WantOfMemory};

    ghost from_gives = { λ _ told. told ≡ WantOfMemory };

    fn from(_: AllocFailed<T>) -> GiveFault {
        GiveFault::Memory
    }
}
