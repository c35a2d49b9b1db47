ghost use Rattle.std.specs.Prelude.{◌≡◌};
ghost use Rattle.lynx_shards.specs.declared.fault.ShardFault.TheVariants.{Memory as NoMemory};

use lynx_names::Memory;
use thiserror::Error;

/// What is wrong with the ranges of a table.
#[derive(Clone, Copy, Debug, PartialEq, Eq, Error)]
pub enum ShardFault {
    /// A key before the range, or after the last one, is at no server.
    #[error("shard-gap")]
    Gap,
    /// The range begins at or below a key of the one before it, or ends before it begins.
    #[error("shard-overlap")]
    Overlap,
    /// The set has no such server.
    #[error("shard-server")]
    BadServer,
    #[error("out of memory")]
    Memory,
}

impl From<Memory> for ShardFault {
    ghost from_gives = { λ _ fault. fault ≡ NoMemory };

    fn from(_: Memory) -> ShardFault {
        ShardFault::Memory
    }
}
