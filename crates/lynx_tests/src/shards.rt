//! Tables of shards, and the server of a key.
use lynx_names::{Memory, TableId, TryCopy};
use lynx_shards::{Range, ShardFault, ShardMap};
use std::alloc::Global;

/// A range's first key, its last one, and its server.
type Shard = (u64, u64, u64);

fn table_of(alloc: Global, shards: &[Shard]) -> Result<Vec<Range>, Memory> {
    let mut table = Vec::new(alloc);
    for &(low, high, server) in shards {
        table.push(Range { low, high, server })?;
    }
    Ok(table)
}

fn tables_of(alloc: Global, first: &[Shard], second: &[Shard]) -> Result<Vec<Vec<Range>>, Memory> {
    let mut tables = Vec::new(alloc);
    tables.push(table_of(alloc, first)?)?;
    tables.push(table_of(alloc, second)?)?;
    Ok(tables)
}

/// These two tables at three servers.
fn map_of(alloc: Global, first: &[Shard], second: &[Shard]) -> Result<ShardMap, ShardFault> {
    ShardMap::from_ranges(alloc, 3, tables_of(alloc, first, second)?)
}

/// What is wrong with them.
fn fault_of(alloc: Global, first: &[Shard], second: &[Shard]) -> Option<ShardFault> {
    map_of(alloc, first, second).err()
}

const LAST: u64 = u64::MAX;

const WHOLE: &[Shard] = &[(0, 99, 1), (100, LAST, 2)];

const PAST_THE_LAST: &[Shard] = &[(0, LAST, 0), (0, 1, 0)];

/// A range that begins too late, too early, and behind its end; at a server that there isn't; and
/// one that ends early.
const GAP: &[Shard] = &[(0, 99, 1), (101, LAST, 3)];

const OVERLAP: &[Shard] = &[(0, 99, 1), (99, LAST, 3)];

const TURNED: &[Shard] = &[(0, 99, 1), (100, 99, 3)];

const NO_SERVER: &[Shard] = &[(0, 99, 1), (100, LAST, 3)];

const SHORT: &[Shard] = &[(0, 99, 1), (100, LAST - 1, 2)];

/// Two tables, and what is wrong with them: the first fault is answered.
const TABLES: &[(&[Shard], &[Shard], Option<ShardFault>)] = &[
    (WHOLE, WHOLE, None),
    (WHOLE, &[], Some(ShardFault::Gap)),
    (PAST_THE_LAST, WHOLE, Some(ShardFault::Overlap)),
    (WHOLE, GAP, Some(ShardFault::Gap)),
    (WHOLE, OVERLAP, Some(ShardFault::Overlap)),
    (WHOLE, TURNED, Some(ShardFault::Overlap)),
    (WHOLE, NO_SERVER, Some(ShardFault::BadServer)),
    (WHOLE, SHORT, Some(ShardFault::Gap)),
    (NO_SERVER, &[], Some(ShardFault::BadServer)),
    (OVERLAP, GAP, Some(ShardFault::Overlap)),
];

#[test]
fn the_first_fault_of_two_tables_is_answered(rt: HostRuntime) {
    for (place, &(first, second, want)) in TABLES.iter().enumerate() {
        assert!(rt;
            fault_of(rt.alloc(), first, second) == want,
            "tables {place}"
        );
    }
}

const SPLIT: &[Shard] = &[(0, 0, 2), (1, 99, 1), (100, LAST, 0)];

const AT_THE_THIRD: &[Shard] = &[(0, LAST, 2)];

/// A copy of a map.
fn copied(alloc: Global) -> Result<ShardMap, ShardFault> {
    let map = map_of(alloc, SPLIT, AT_THE_THIRD)?;
    Ok(map.copy(alloc)?)
}

/// The number of the server that has a key there.
fn server_at(alloc: Global, table: u8, key: u64) -> Result<u8, ShardFault> {
    let table = TableId::new(table).ok_or(ShardFault::Memory)?;
    let map = copied(alloc)?;
    Ok(map.server_of(table, key).number())
}

/// A table, a key and its server.
const SERVERS: &[(u8, u64, u8)] = &[
    (0, 0, 2),
    (0, 1, 1),
    (0, 99, 1),
    (0, 100, 0),
    (0, LAST, 0),
    (1, 50, 2),
];

#[test]
fn keys_have_the_server_of_their_shard(rt: HostRuntime) {
    for &(table, key, server) in SERVERS {
        assert!(rt;
            server_at(rt.alloc(), table, key) == Ok(server),
            "{table} {key}"
        );
    }
}
