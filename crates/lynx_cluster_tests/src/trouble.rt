//! Why a test has no answer.
use lynx_cluster::{CloseFault, StartFault};
use lynx_names::Memory;

/// Why a test has no answer.
#[derive(Clone, Copy, Debug, PartialEq, Eq)]
pub enum Trouble {
    Start(StartFault),
    Close(CloseFault),
    Memory,
    /// A store or a server didn't open.
    Open,
}

impl From<StartFault> for Trouble {
    fn from(fault: StartFault) -> Trouble {
        Trouble::Start(fault)
    }
}

impl From<CloseFault> for Trouble {
    fn from(fault: CloseFault) -> Trouble {
        Trouble::Close(fault)
    }
}

impl From<Memory> for Trouble {
    fn from(_: Memory) -> Trouble {
        Trouble::Memory
    }
}
