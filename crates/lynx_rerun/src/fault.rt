//! Why a run over stores stops.
ghost use Rattle.std.specs.Prelude.{◌≡◌};
ghost use Rattle.lynx_rerun.specs.Faults.{contents_fault, folder_fault, store_fault};

use lynx_names::{Memory, ServerId};
use lynx_report::RunFault;
use lynx_server::OpenFault;
use lynx_store::StoreFault;
use lynx_store_files::FolderFault;
use lynx_weave::{GatherFault, WeaveFault};
use std::alloc::{AllocError, AllocFailed};
use thiserror::Error;

/// Why a run over stores stopped. What was stored stands, and what was written before.
#[derive(Clone, Copy, Debug, PartialEq, Eq, Error)]
pub enum RerunFault {
    /// The script is faulty, the lines can't be written, or memory is wanting.
    #[error("{0}")]
    Run(RunFault),
    /// The store of that server can't be opened, read or closed, or what it holds is no server's;
    /// never for want of memory.
    #[error("server {server}: {fault}")]
    Store { server: ServerId, fault: StoreFault },
    /// The stores don't belong together; never for want of memory.
    #[error("{0}")]
    Apart(WeaveFault),
}

impl RerunFault {
    /// The fault of the rows of that server's store, or of its file.
    pub(crate) fn of_store(server: ServerId, fault: StoreFault) -> RerunFault
        ensures { result ≡ store_fault server fault }
    {
        match fault {
            StoreFault::Memory => RerunFault::Run(RunFault::Memory),
            fault => RerunFault::Store { server, fault },
        }
    }

    /// The fault of the stores of a folder. One that is lost is damaged.
    pub(crate) fn of_folder(fault: FolderFault) -> RerunFault
        ensures { result ≡ folder_fault fault }
    {
        match fault {
            FolderFault::Store { server, fault } => RerunFault::of_store(server, fault),
            FolderFault::Missing { server } => RerunFault::of_store(server, StoreFault::Damaged),
            FolderFault::Memory => RerunFault::Run(RunFault::Memory),
        }
    }

    /// The fault of what that server's store holds.
    pub(crate) fn of_contents(server: ServerId, fault: OpenFault) -> RerunFault
        ensures { result ≡ contents_fault server fault }
    {
        let fault = match fault {
            OpenFault::Damaged { .. } => StoreFault::Damaged,
            OpenFault::Store => StoreFault::Store,
            OpenFault::Memory => StoreFault::Memory,
        };
        RerunFault::of_store(server, fault)
    }
}

impl From<GatherFault> for RerunFault {
    ghost use Rattle.std.specs.Prelude.{◌≡◌};
    ghost use Rattle.lynx_rerun.specs.Faults.{gather_fault};

    ghost from_gives = { λ fault told. told ≡ gather_fault fault };

    fn from(fault: GatherFault) -> RerunFault {
        match fault {
            GatherFault::Load { server } => RerunFault::of_store(server, StoreFault::Store),
            GatherFault::Weave(fault) => RerunFault::Apart(fault),
            GatherFault::Memory => RerunFault::Run(RunFault::Memory),
        }
    }
}

impl From<RunFault> for RerunFault {
    ghost use Rattle.std.specs.Prelude.{◌≡◌};
    ghost use Rattle.lynx_rerun.specs.declared.fault.RerunFault.TheVariants.{Run as OfRun};

    ghost from_gives = { λ fault told. told ≡ OfRun fault };

    fn from(fault: RunFault) -> RerunFault {
        RerunFault::Run(fault)
    }
}

impl From<Memory> for RerunFault {
    ghost use Rattle.std.specs.Prelude.{◌≡◌};
    ghost use Rattle.lynx_rerun.specs.Faults.{no_memory};

    ghost from_gives = { λ _ told. told ≡ no_memory };

    fn from(_: Memory) -> RerunFault {
        RerunFault::Run(RunFault::Memory)
    }
}

impl From<AllocError> for RerunFault {
    ghost use Rattle.std.specs.Prelude.{◌≡◌};
    ghost use Rattle.lynx_rerun.specs.Faults.{no_memory};

    ghost from_gives = { λ _ told. told ≡ no_memory };

    fn from(_: AllocError) -> RerunFault {
        RerunFault::Run(RunFault::Memory)
    }
}

impl<T: Drop> From<AllocFailed<T>> for RerunFault {
    ghost use Rattle.std.specs.Prelude.{◌≡◌};
    ghost use Rattle.lynx_rerun.specs.Faults.{no_memory};

    ghost from_gives = { λ _ told. told ≡ no_memory };

    fn from(_: AllocFailed<T>) -> RerunFault {
        RerunFault::Run(RunFault::Memory)
    }
}
