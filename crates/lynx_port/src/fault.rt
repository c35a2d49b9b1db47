use lynx_codec::DecodeFault;
use lynx_names::Memory;
use std::alloc::AllocError;
use thiserror::Error;

/// Why a connection ended before the client or its input did. What was read, written and asked of
/// the desk before stands.
#[derive(Clone, Copy, Debug, PartialEq, Eq, Error)]
pub enum PortFault {
    /// A read failed.
    #[error("cannot read")]
    Read,
    /// A write failed, or took no byte.
    #[error("cannot write")]
    Write,
    /// What the client sent next is no item: Short where its input ends inside one. Never for want
    /// of memory.
    #[error("{0}")]
    Bad(DecodeFault),
    /// All turns were made: [`MAX_TURNS`](crate::limits::MAX_TURNS).
    #[error("too many turns")]
    Turns,
    /// Want of memory, of the desk's look too.
    #[error("out of memory")]
    Memory,
    /// The client sent an item that no client sends.
    #[error("no client sends this item")]
    NotAsked,
}

impl From<Memory> for PortFault {
    ghost use Rattle.std.specs.Prelude.{◌≡◌};
    ghost use Rattle.lynx_port.specs.declared.fault.PortFault.TheVariants.{Memory as WantOfMemory};

    ghost from_gives = { λ _ fault. fault ≡ WantOfMemory };

    fn from(_: Memory) -> PortFault {
        PortFault::Memory
    }
}

impl From<AllocError> for PortFault {
    ghost use Rattle.std.specs.Prelude.{◌≡◌};
    ghost use Rattle.lynx_port.specs.declared.fault.PortFault.TheVariants.{Memory as WantOfMemory};

    ghost from_gives = { λ _ fault. fault ≡ WantOfMemory };

    fn from(_: AllocError) -> PortFault {
        PortFault::Memory
    }
}

impl From<DecodeFault> for PortFault {
    ghost use Rattle.std.specs.Prelude.{◌≡◌};
    ghost use Rattle.lynx_port.specs.Faults.{fault_of};

    ghost from_gives = { λ fault port. port ≡ fault_of fault };

    fn from(fault: DecodeFault) -> PortFault {
        match fault {
            DecodeFault::Memory => PortFault::Memory,
            fault => PortFault::Bad(fault),
        }
    }
}
