ghost use Rattle.std.specs.Prelude.{ℕ, List, ◌<◌, ◌^◌, ◌≡◌, ◌≤◌, ◌++◌, ◌∷◌, [], None, map, IfOk, OnOk, OnErr};
ghost use Rattle.lynx_names.specs.declared.limits.TheConstants.{MAX_SERVERS};
ghost use Rattle.lynx_shards.specs.Shards.{OneHas, server_in, server_of};

use crate::fault::ShardFault;
use crate::range::Range;
use crate::shard::Shard;
use crate::table::TableShards;
use lynx_names::{Items, Memory, ServerId, TableId, TryCopy};
use std::alloc::Global;
use std::marker::Model;

/// The shards of each table, tables in order of declaration.
#[derive(Debug, Drop)]
pub struct ShardMap {
    tables: Items<Items<Shard>>,
}

impl Model for ShardMap {
    ghost use Rattle.std.specs.Prelude.{List};
    ghost use Rattle.lynx_shards.specs.declared.shard.Shard.{Shard};

    ghost Value = { List (List Shard) };

    ghost use Rattle.lynx_shards.specs.Ranges.{EachCovers};

    ghost view = { λ map. map.tables };

    ghost invariant = { λ map. EachCovers map.tables };
}

impl ShardMap {
    ghost use Rattle.lynx_shards.specs.Ranges.{shard_of, tables_fault, lists, shards_of, Judges, EachCovers, Covers};

    /// The map of no table. It takes no memory.
    pub fn new(alloc: Global) -> ShardMap
        ensures { result ≡ [] }
    {
        ShardMap {
            tables: Items::new(alloc),
        }
    }

    /// The map of these tables. The fault is the first one, of a table whose ranges end too early
    /// or that has none a gap.
    pub fn from_ranges(
        alloc: Global,
        servers: u8,
        tables: Vec<Vec<Range>>,
    ) -> Result<ShardMap, ShardFault>
        requires { servers ≤ MAX_SERVERS }
        ensures judged { Judges (tables_fault servers (lists tables.items)) result }
        ensures ok { IfOk result (λ map. map ≡ shards_of (lists tables.items)) }
    {
        let mut map = ShardMap::new(alloc);
        for ranges in &tables {
            let shards = whole_table(alloc, servers, ranges)?;
            map.add_table(shards)?;
        }
        Ok(map)
    }

    /// Adds the shards of the next table, which are all of them. An error leaves the map as it was.
    pub fn add_table(&mut self, table: TableShards) -> Result<(), Memory>
        requires { Covers table }
        ensures ok { OnOk result (self.new ≡ self.old ++ table ∷ []) }
        ensures err { OnErr result (self.new ≡ self.old) }
    {
        self.tables.push(table.into_shards())?;
        Ok(())
    }

    /// The shards of each table, in order.
    pub fn tables(&self) -> &[Items<Shard>]
        ensures value { result.now ≡ self.now }
        ensures covers { EachCovers self.now }
    {
        self.tables.as_slice()
    }

    /// The server that keeps the key of that table. Its cost is logarithmic in the table's shards.
    pub fn server_of(&self, table: TableId, key: u64) -> ServerId
        ensures { result ≡ server_of self.now table key }
    {
        match self.tables.as_slice().get(table.index()) {
            Some(shards) => server_in(shards.as_slice(), key),
            None => ServerId::first(),
        }
    }
}

impl TryCopy for ShardMap {
    fn copy(&self, alloc: Global) -> Result<ShardMap, Memory> {
        Ok(ShardMap {
            tables: self.tables.copy(alloc)?,
        })
    }
}

ghost use Rattle.lynx_shards.specs.Ranges.{shard_of, table_fault, Judges, Covers};

/// The shards of one table, where its ranges have no fault.
fn whole_table(alloc: Global, servers: u8, ranges: &[Range]) -> Result<TableShards, ShardFault>
    requires { servers ≤ MAX_SERVERS }
    ensures judged { Judges (table_fault servers None ranges.now) result }
    ensures ok { IfOk result (λ table. table ≡ map shard_of ranges.now) }
    ensures whole { IfOk result Covers }
{
    let mut table = TableShards::new(alloc);
    for range in ranges {
        table.add(servers, *range)?;
    }
    if !table.is_whole() {
        return Err(ShardFault::Gap);
    }
    Ok(table)
}

/// The server of the first shard that doesn't end below the key.
fn server_in(shards: &[Shard], key: u64) -> ServerId
    requires { Covers shards.now }
    ensures { result ≡ server_in shards.now key }
{
    let place = shards.partition_point(|shard| shard.high < key);
    match shards.get(place) {
        Some(shard) => shard.server,
        None => ServerId::first(),
    }
}

/// In shards that cover all keys, each key is in just one, and that one's server keeps it.
pub fn each_key_has_one_shard()
    ensures { (shards : List Shard) (key : ℕ) → Covers shards → key < 2 ^ 64
        → OneHas shards key (server_in shards key) }
{}
