//! Why copies weren't restored.
ghost use Rattle.std.specs.Prelude.{◌≡◌};
ghost use Rattle.lynx_restore.specs.Faults.{contents_fault, filling_fault, store_fault};

use crate::refill_fault::RefillFault;
use lynx_cluster::StartFault;
use lynx_names::{Memory, ServerId};
use lynx_server::OpenFault;
use lynx_store::StoreFault;
use lynx_weave::WeaveFault;
use std::alloc::{AllocError, AllocFailed};
use thiserror::Error;

/// Why copies weren't restored. The copies stand as they were. New stores that were made before
/// the fault are left, and may have some of their entries.
#[derive(Clone, Copy, Debug, PartialEq, Eq, Error)]
pub enum RestoreFault {
    /// No server opens over the copy of that server; never for want of memory.
    #[error("copy {server}: {fault}")]
    Copy { server: ServerId, fault: OpenFault },
    /// The new store of that server can't be made, filled or closed; never for want of memory.
    #[error("store {server}: {fault}")]
    Store { server: ServerId, fault: StoreFault },
    /// There is a store of that server already, which has entries.
    #[error("store {server}: not empty")]
    Taken { server: ServerId },
    /// Want of memory.
    #[error("out of memory")]
    Memory,
}

impl RestoreFault {
    /// The fault of the new store of that server.
    pub(crate) fn of_store(server: ServerId, fault: StoreFault) -> RestoreFault
        ensures { result ≡ store_fault server fault }
    {
        match fault {
            StoreFault::Memory => RestoreFault::Memory,
            fault => RestoreFault::Store { server, fault },
        }
    }

    /// The fault of what the new store of that server holds.
    pub(crate) fn of_contents(server: ServerId, fault: OpenFault) -> RestoreFault
        ensures { result ≡ contents_fault server fault }
    {
        let fault = match fault {
            OpenFault::Damaged { .. } => StoreFault::Damaged,
            OpenFault::Store => StoreFault::Store,
            OpenFault::Memory => return RestoreFault::Memory,
        };
        RestoreFault::Store { server, fault }
    }

    /// The fault of filling the new store of that server.
    pub(crate) fn of_filling(server: ServerId, fault: RefillFault) -> RestoreFault
        ensures { result ≡ filling_fault server fault }
    {
        let fault = match fault {
            RefillFault::Differs => StoreFault::Damaged,
            RefillFault::Store => StoreFault::Store,
            RefillFault::Memory => return RestoreFault::Memory,
        };
        RestoreFault::Store { server, fault }
    }
}

impl From<StartFault> for RestoreFault {
    ghost use Rattle.std.specs.Prelude.{◌≡◌};
    ghost use Rattle.lynx_restore.specs.Faults.{start_fault};

    ghost from_gives = { λ fault told. told ≡ start_fault fault };

    fn from(fault: StartFault) -> RestoreFault {
        match fault {
            StartFault::Open { server, fault } => RestoreFault::Copy { server, fault },
            // There is a copy for each server, and no thread is made.
            StartFault::OtherCount | StartFault::NoThread | StartFault::Memory => {
                RestoreFault::Memory
            }
        }
    }
}

impl From<WeaveFault> for RestoreFault {
    ghost use Rattle.std.specs.Prelude.{◌≡◌};
    ghost use Rattle.lynx_restore.specs.Faults.{apart_fault};

    ghost from_gives = { λ fault told. told ≡ apart_fault fault };

    fn from(fault: WeaveFault) -> RestoreFault {
        match fault {
            WeaveFault::Mismatch { server, place } => RestoreFault::Copy {
                server,
                fault: OpenFault::Damaged { place },
            },
            // Sessions were told nothing.
            WeaveFault::Told { .. } | WeaveFault::Memory => RestoreFault::Memory,
        }
    }
}

impl From<Memory> for RestoreFault {
    ghost use Rattle.std.specs.Prelude.{◌≡◌};
    ghost use Rattle.lynx_restore.specs.declared.fault.RestoreFault.TheVariants.{Memory as WantOfMemory};

    ghost from_gives = { λ _ told. told ≡ WantOfMemory };

    fn from(_: Memory) -> RestoreFault {
        RestoreFault::Memory
    }
}

impl From<AllocError> for RestoreFault {
    ghost use Rattle.std.specs.Prelude.{◌≡◌};
    ghost use Rattle.lynx_restore.specs.declared.fault.RestoreFault.TheVariants.{Memory as WantOfMemory};

    ghost from_gives = { λ _ told. told ≡ WantOfMemory };

    fn from(_: AllocError) -> RestoreFault {
        RestoreFault::Memory
    }
}

impl<T: Drop> From<AllocFailed<T>> for RestoreFault {
    ghost use Rattle.std.specs.Prelude.{◌≡◌};
    ghost use Rattle.lynx_restore.specs.declared.fault.RestoreFault.TheVariants.{Memory as WantOfMemory};

    ghost from_gives = { λ _ told. told ≡ WantOfMemory };

    fn from(_: AllocFailed<T>) -> RestoreFault {
        RestoreFault::Memory
    }
}
