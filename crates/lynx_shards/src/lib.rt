//! Shards: each table's keys are cut into ranges, each at one server, without gap or overlap.
#![tactic(auto)]

pub use fault::ShardFault;
pub use map::{ShardMap, each_key_has_one_shard};
pub use range::{Range, range_fault};
pub use shard::Shard;
pub use table::TableShards;

pub mod fault;
pub mod map;
pub mod range;
pub mod shard;
pub mod table;
