//! Why histories and what was told don't weave.
use lynx_names::{Memory, ServerId};
use thiserror::Error;

/// Why histories and what sessions were told don't weave to a world.
#[derive(Clone, Copy, Debug, PartialEq, Eq, Error)]
pub enum WeaveFault {
    /// The entry at that place of that server's history, counted from 0, isn't lawful after those
    /// before it, or no entry sent the message that it ran on.
    #[error("no world has entry {place} of server {server}")]
    Mismatch { server: ServerId, place: u64 },
    /// The item at that place of that session, both counted from 0, doesn't stand, or is fresh and
    /// either its stamp isn't above those that its session was told before, or an item of an
    /// earlier session or place is fresh by the same entry, or that entry is from before the
    /// sessions began.
    #[error("no world has item {place} of session {session}")]
    Told { session: u64, place: u64 },
    /// Want of memory.
    #[error("out of memory")]
    Memory,
}

impl From<Memory> for WeaveFault {
    ghost use Rattle.std.specs.Prelude.{◌≡◌};
    ghost use Rattle.lynx_weave.specs.declared.fault.WeaveFault.TheVariants.{Memory as WantOfMemory};

    ghost from_gives = { λ _ fault. fault ≡ WantOfMemory };

    fn from(_: Memory) -> WeaveFault {
        WeaveFault::Memory
    }
}
