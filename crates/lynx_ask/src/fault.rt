//! Why asking stopped.
use lynx_lines::WriteFailed;
use lynx_names::Memory;
use std::alloc::AllocError;
use thiserror::Error;

/// Why asking stopped. What was asked and answered before stands.
#[derive(Clone, Copy, Debug, PartialEq, Eq, Error)]
pub enum AskFault {
    /// Nobody listens at the port.
    #[error("cannot connect")]
    Connect,
    /// The connection ended, or what came over it is no answer. Whether what was asked last was
    /// done isn't known: it may be asked again under the same number.
    #[error("connection lost")]
    Lost,
    #[error("cannot write")]
    Write,
    #[error("out of memory")]
    Memory,
}

impl From<Memory> for AskFault {
    fn from(_: Memory) -> AskFault {
        AskFault::Memory
    }
}

impl From<AllocError> for AskFault {
    fn from(_: AllocError) -> AskFault {
        AskFault::Memory
    }
}

impl From<WriteFailed> for AskFault {
    fn from(_: WriteFailed) -> AskFault {
        AskFault::Write
    }
}
