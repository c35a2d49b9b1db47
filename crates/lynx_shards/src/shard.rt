use lynx_names::{Memory, ServerId, TryCopy};
use std::alloc::Global;

/// A range of a table's keys, both ends included, and the server that keeps its cells.
#[derive(Clone, Copy, Debug, PartialEq, Eq)]
pub struct Shard {
    pub low: u64,
    pub high: u64,
    pub server: ServerId,
}

impl TryCopy for Shard {
    fn copy(&self, _alloc: Global) -> Result<Shard, Memory> {
        Ok(*self)
    }
}
