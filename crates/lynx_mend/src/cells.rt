//! A cell at a server, by which a chain takes its turn there.
use lynx_names::limits::MAX_TABLES;
use lynx_names::{ServerId, TableId};
use lynx_set::{Action, ChainSet, Hop, Update};
use lynx_shards::Shard;

/// A cell.
#[derive(Clone, Copy, Debug)]
pub(crate) struct Cell {
    pub table: TableId,
    pub key: u64,
}

/// Whether the action may collide with an `add` in the table.
fn disturbs(action: &Action, table: TableId) -> bool {
    match *action {
        Action::Get { table: own, .. } => own == table,
        Action::Update {
            update,
            table: own,
            ..
        } => own == table && update != Update::Add && update != Update::Sub,
        Action::Let { .. } | Action::Need { .. } => false,
    }
}

fn disturbing_in(hops: &[Hop], table: TableId) -> usize {
    let mut count = 0usize;
    for hop in hops {
        let actions = hop.actions.as_slice().iter();
        count = count.saturating_add(actions.filter(|action| disturbs(action, table)).count());
    }
    count
}

/// How many actions of the set may collide with an `add` in the table.
fn disturbing(set: &ChainSet, table: TableId) -> usize {
    let mut count = 0usize;
    for (_, program) in set.programs() {
        count = count.saturating_add(disturbing_in(program.hops.as_slice(), table));
    }
    count
}

/// The first shard at the server.
pub(crate) fn shard_at(set: &ChainSet, table: TableId, server: ServerId) -> Option<Shard> {
    let shards = set.shards().tables().get(table.index())?;
    shards
        .as_slice()
        .iter()
        .find(|shard| shard.server == server)
        .copied()
}

/// A cell at the server, of a table whose other actions collide the least with an `add`. None where
/// no table has a shard there.
pub(crate) fn quiet_cell(set: &ChainSet, server: ServerId) -> Option<Cell> {
    let mut best = None;
    let mut least = usize::MAX;
    for number in 0..MAX_TABLES {
        if let Some(table) = TableId::new(number) {
            if let Some(shard) = shard_at(set, table, server) {
                let count = disturbing(set, table);
                if count < least {
                    least = count;
                    best = Some(Cell {
                        table,
                        key: shard.low,
                    });
                }
            }
        }
    }
    best
}
