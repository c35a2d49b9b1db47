ghost use Rattle.std.specs.Prelude.{◌≡◌, ◌+◌, ◌≤◌, ◌++◌, ◌∷◌, [], length, None, IsTrue, ◌==◌, ◌↔◌, ◌^◌, OnOk, OnErr, ℕ};
ghost use Rattle.lynx_names.specs.declared.limits.TheConstants.{MAX_SERVERS};

use crate::fault::ShardFault;
use crate::range::{Range, range_fault};
use crate::shard::Shard;
use lynx_names::{Items, ServerId};
use std::alloc::Global;
use std::marker::Model;

/// The shards of one table as they are declared, one after another from key 0 on.
#[derive(Debug, Drop)]
pub struct TableShards {
    shards: Items<Shard>,
    /// Where the last shard ends.
    last: Option<u64>,
}

impl Model for TableShards {
    ghost use Rattle.std.specs.Prelude.{List, ◌≡◌, None};
    ghost use Rattle.lynx_shards.specs.declared.shard.Shard.{Shard};

    ghost Value = { List Shard };

    ghost use Rattle.lynx_shards.specs.Ranges.{last_key, next_key, Cuts};

    ghost view = { λ table. table.shards };

    ghost invariant = { λ table. (table.last ≡ last_key None table.shards)
        × Cuts 0 table.shards (next_key table.last) };
}

impl TableShards {
    ghost use Rattle.lynx_shards.specs.Ranges.{last_key, next_key, shard_of, range_fault, Judges, Covers};

    /// No shard yet. It takes no memory.
    pub fn new(alloc: Global) -> TableShards
        ensures { result ≡ [] }
    {
        TableShards {
            shards: Items::new(alloc),
            last: None,
        }
    }

    /// How many shards there are.
    pub fn len(&self) -> usize
        ensures { result ≡ length self.now }
    {
        self.shards.len()
    }

    /// No shard was declared.
    pub fn is_empty(&self) -> bool
        ensures { result ≡ (length self.now == 0) }
    {
        self.shards.is_empty()
    }

    /// Whether the shards cover all keys.
    pub fn is_whole(&self) -> bool
        ensures covers { IsTrue result ↔ Covers self.now }
        ensures test { result ≡ (next_key (last_key None self.now) == 2 ^ 64) }
    {
        self.last == Some(u64::MAX)
    }

    /// Whether the next shard has to begin with this key.
    pub fn is_next(&self, key: u64) -> bool
        ensures { result ≡ (next_key (last_key None self.now) == key) }
    {
        match self.last {
            None => key == 0,
            Some(end) => end.checked_add(1) == Some(key),
        }
    }

    /// Adds the next range. An error leaves the table as it was.
    pub fn add(&mut self, servers: u8, range: Range) -> Result<(), ShardFault>
        requires { servers ≤ MAX_SERVERS }
        ensures judged { Judges (range_fault servers
            (last_key None self.old) range.low range.high range.server) result }
        ensures ok { OnOk result (self.new ≡ self.old ++ shard_of range ∷ []) }
        ensures err { OnErr result (self.new ≡ self.old) }
    {
        if let Some(fault) = range_fault(servers, self.last, range.low, range.high, range.server) {
            return Err(fault);
        }
        let Some(server) = ServerId::among(servers, range.server) else {
            return Err(ShardFault::BadServer);
        };
        let shard = Shard {
            low: range.low,
            high: range.high,
            server,
        };
        self.shards.push(shard)?;
        self.last = Some(range.high);
        Ok(())
    }

    /// The shards, in order.
    pub(crate) fn into_shards(self) -> Items<Shard>
        ensures { result ≡ self }
    {
        self.shards
    }
}
