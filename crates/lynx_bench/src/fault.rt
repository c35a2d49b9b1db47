//! Why no work was done.
use lynx_cluster::{CloseFault, StartFault};
use lynx_names::Memory;
use lynx_store::StoreFault;
use std::alloc::{AllocError, AllocFailed};
use std::io;

/// Why no work was done. Where a cluster was started, it is gone, and its threads have ended.
#[derive(Clone, Copy)]
pub enum Fault {
    /// A store failed; never for want of memory.
    Store,
    /// The cluster didn't start; never for want of memory.
    Start,
    /// The cluster made no session.
    Session,
    /// A seed or a payment was answered otherwise than as begun now.
    NotBegun,
    /// The last hops weren't all there after [`MAX_LOOKS`](crate::load::MAX_LOOKS) looks at one of
    /// them.
    NotDone,
    /// The cluster didn't close well; never for want of memory.
    Close,
    /// No order of all chains explains the world.
    Cycle,
    /// The cells hold another sum than was seeded.
    Sum,
    /// Nobody listens at the port.
    Connect,
    /// The connection ended, or what came over it is no answer.
    Lost,
    /// The clock can't be read.
    Clock,
    /// Want of memory.
    Memory,
}

impl Fault {
    /// How it is told.
    pub fn words(self) -> &'static str {
        match self {
            Fault::Store => "the store failed",
            Fault::Start => "the cluster didn't start",
            Fault::Session => "the cluster made no session",
            Fault::NotBegun => "a chain wasn't begun",
            Fault::NotDone => "the last hops aren't all done",
            Fault::Close => "the cluster didn't close",
            Fault::Cycle => "no order explains the world",
            Fault::Sum => "the cells don't hold what was seeded",
            Fault::Connect => "cannot connect",
            Fault::Lost => "connection lost",
            Fault::Clock => "the clock can't be read",
            Fault::Memory => "out of memory",
        }
    }

    /// The exit status: 3 for want of memory, 4 for all else.
    pub fn status(self) -> u8 {
        match self {
            Fault::Memory => 3,
            _ => 4,
        }
    }
}

impl From<StoreFault> for Fault {
    fn from(fault: StoreFault) -> Fault {
        match fault {
            StoreFault::Memory => Fault::Memory,
            _ => Fault::Store,
        }
    }
}

impl From<StartFault> for Fault {
    fn from(fault: StartFault) -> Fault {
        match fault {
            StartFault::Memory => Fault::Memory,
            _ => Fault::Start,
        }
    }
}

impl From<CloseFault> for Fault {
    fn from(fault: CloseFault) -> Fault {
        match fault {
            CloseFault::Memory => Fault::Memory,
            _ => Fault::Close,
        }
    }
}

impl From<io::Error> for Fault {
    fn from(_: io::Error) -> Fault {
        Fault::Clock
    }
}

impl From<Memory> for Fault {
    fn from(_: Memory) -> Fault {
        Fault::Memory
    }
}

impl From<AllocError> for Fault {
    fn from(_: AllocError) -> Fault {
        Fault::Memory
    }
}

impl<T: Drop> From<AllocFailed<T>> for Fault {
    fn from(_: AllocFailed<T>) -> Fault {
        Fault::Memory
    }
}
