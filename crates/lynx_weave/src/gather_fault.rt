//! Why keepers don't gather to a world.
use crate::fault::WeaveFault;
use lynx_keep::KeepFault;
use lynx_names::{Memory, ServerId};
use thiserror::Error;

/// Why what keepers keep doesn't gather to a world.
#[derive(Clone, Copy, Debug, PartialEq, Eq, Error)]
pub enum GatherFault {
    /// The store of that server failed: its keeper's `faults` rose.
    #[error("the store of server {server} failed")]
    Load { server: ServerId },
    /// What was kept and told doesn't weave; never for want of memory.
    #[error("{0}")]
    Weave(WeaveFault),
    /// Want of memory.
    #[error("out of memory")]
    Memory,
}

impl From<Memory> for GatherFault {
    ghost use Rattle.std.specs.Prelude.{◌≡◌};
    ghost use Rattle.lynx_weave.specs.declared.gather_fault.GatherFault.TheVariants.{Memory as WantOfMemory};

    ghost from_gives = { λ _ fault. fault ≡ WantOfMemory };

    fn from(_: Memory) -> GatherFault {
        GatherFault::Memory
    }
}
