ghost use Rattle.std.specs.Prelude.{◌≡◌};
ghost use Rattle.lynx_shards.specs.Ranges.{range_fault};

use crate::fault::ShardFault;

/// A range of a table's keys as it is declared, both ends included, and the number of its server.
#[derive(Clone, Copy, Debug, PartialEq, Eq)]
pub struct Range {
    pub low: u64,
    pub high: u64,
    pub server: u64,
}

/// What is wrong with a range that follows the one that ended at `before`, which is None for the
/// first range of a table. Never [`ShardFault::Memory`].
pub fn range_fault(
    servers: u8,
    before: Option<u64>,
    low: u64,
    high: u64,
    server: u64,
) -> Option<ShardFault>
    ensures { result ≡ range_fault servers before low high server }
{
    let expected = match before {
        None => 0,
        Some(u64::MAX) => return Some(ShardFault::Overlap),
        Some(end) => end + 1,
    };
    if low > expected {
        return Some(ShardFault::Gap);
    }
    if low < expected || high < low {
        return Some(ShardFault::Overlap);
    }
    if server >= u64::from(servers) {
        return Some(ShardFault::BadServer);
    }
    None
}
