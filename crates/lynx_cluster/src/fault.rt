//! Why a cluster didn't start, or didn't close.
use lynx_names::{Memory, ServerId};
use lynx_server::OpenFault;
use lynx_weave::WeaveFault;
use std::alloc::{AllocError, AllocFailed};
use thiserror::Error;

/// Why a cluster didn't start. No thread of it is left.
#[derive(Clone, Copy, Debug, PartialEq, Eq, Error)]
pub enum StartFault {
    /// There are more or fewer keepers than servers.
    #[error("there are more or fewer keepers than servers")]
    OtherCount,
    /// That server didn't open over its keeper; never for want of memory.
    #[error("server {server}: {fault}")]
    Open { server: ServerId, fault: OpenFault },
    /// A thread could not be made.
    #[error("no thread could be made")]
    NoThread,
    /// Want of memory.
    #[error("out of memory")]
    Memory,
}

impl From<Memory> for StartFault {
    ghost use Rattle.std.specs.Prelude.{◌≡◌};
    ghost use Rattle.lynx_cluster.specs.declared.fault.StartFault.TheVariants.{Memory as WantOfMemory};

    ghost from_gives = { λ _ fault. fault ≡ WantOfMemory };

    fn from(_: Memory) -> StartFault {
        StartFault::Memory
    }
}

impl From<AllocError> for StartFault {
    ghost use Rattle.std.specs.Prelude.{◌≡◌};
    ghost use Rattle.lynx_cluster.specs.declared.fault.StartFault.TheVariants.{Memory as WantOfMemory};

    ghost from_gives = { λ _ fault. fault ≡ WantOfMemory };

    fn from(_: AllocError) -> StartFault {
        StartFault::Memory
    }
}

impl<T: Drop> From<AllocFailed<T>> for StartFault {
    ghost use Rattle.std.specs.Prelude.{◌≡◌};
    ghost use Rattle.lynx_cluster.specs.declared.fault.StartFault.TheVariants.{Memory as WantOfMemory};

    ghost from_gives = { λ _ fault. fault ≡ WantOfMemory };

    fn from(_: AllocFailed<T>) -> StartFault {
        StartFault::Memory
    }
}

/// Why a cluster didn't close well. The cluster is gone, its threads have ended, and what the
/// keepers stored stands.
#[derive(Clone, Copy, Debug, PartialEq, Eq, Error)]
pub enum CloseFault {
    /// The entry at that place of that server's history, counted from 0, isn't lawful after those
    /// before it, or no entry sent the message that it ran on.
    #[error("no world has entry {place} of server {server}")]
    Mismatch { server: ServerId, place: u64 },
    /// The item at that place of that session, both counted from 0 and the session in the list that
    /// was handed in, doesn't stand, or is fresh and either its stamp isn't above those that its
    /// session was told before, or an item of an earlier session or place is fresh by the same
    /// entry, or that entry is from before the start.
    #[error("no world has item {place} of session {session}")]
    Told { session: u64, place: u64 },
    /// That server stopped, or its state can't be taken back.
    #[error("server {server} stopped")]
    Stopped { server: ServerId },
    /// Want of memory.
    #[error("out of memory")]
    Memory,
    /// The session of that number was made and isn't handed in.
    #[error("session {session} is absent")]
    Absent { session: u64 },
    /// The fresh answers that sessions were told of that server aren't as many as the entries that
    /// it added for begins.
    #[error("the answers of server {server} are not as many as its begins")]
    Uncounted { server: ServerId },
}

impl From<Memory> for CloseFault {
    ghost use Rattle.std.specs.Prelude.{◌≡◌};
    ghost use Rattle.lynx_cluster.specs.declared.fault.CloseFault.TheVariants.{Memory as WantOfMemory};

    ghost from_gives = { λ _ fault. fault ≡ WantOfMemory };

    fn from(_: Memory) -> CloseFault {
        CloseFault::Memory
    }
}

impl From<WeaveFault> for CloseFault {
    ghost use Rattle.std.specs.Prelude.{◌≡◌};
    ghost use Rattle.lynx_cluster.specs.inner.Closing.{close_fault};

    ghost from_gives = { λ woven fault. fault ≡ close_fault woven };

    fn from(fault: WeaveFault) -> CloseFault {
        match fault {
            WeaveFault::Mismatch { server, place } => CloseFault::Mismatch { server, place },
            WeaveFault::Told { session, place } => CloseFault::Told { session, place },
            WeaveFault::Memory => CloseFault::Memory,
        }
    }
}
