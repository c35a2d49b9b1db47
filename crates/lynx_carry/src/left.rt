//! The cells that are to be written, and which of them are left.
use lynx_names::{Memory, ServerId, TableId};
use lynx_set::ChainSet;
use std::alloc::Global;

/// A cell that a chain is to write. They are in order of table, server and key.
#[derive(Clone, Copy, Debug, PartialEq, Eq, PartialOrd, Ord)]
pub(crate) struct LeftCell {
    pub table: TableId,
    pub server: ServerId,
    pub key: u64,
    pub value: u64,
    /// Its place among the cells that were given.
    pub place: usize,
    /// No chain writes it yet.
    pub is_left: bool,
}

/// Where the cells of one table at one server stand: from `start` on, and before `end`.
#[derive(Clone, Copy, Debug)]
pub(crate) struct Group {
    pub start: usize,
    pub end: usize,
}

/// The cells in order, all of them left. It takes n log n steps.
pub(crate) fn left_cells(
    alloc: Global,
    set: &ChainSet,
    cells: &[(TableId, u64, u64)],
) -> Result<Vec<LeftCell>, Memory> {
    let mut left = Vec::with_capacity(alloc, cells.len())?;
    for (place, (table, key, value)) in cells.iter().enumerate() {
        left.push(LeftCell {
            table: *table,
            server: set.shards().server_of(*table, *key),
            key: *key,
            value: *value,
            place,
            is_left: true,
        })?;
    }
    left.sort_unstable();
    Ok(left)
}

fn is_before(cell: &LeftCell, table: TableId, server: ServerId) -> bool {
    cell.table < table || (cell.table == table && cell.server < server)
}

fn is_up_to(cell: &LeftCell, table: TableId, server: ServerId) -> bool {
    cell.table < table || (cell.table == table && cell.server <= server)
}

/// Where the cells of the table at the server stand.
pub(crate) fn group_of(left: &[LeftCell], table: TableId, server: ServerId) -> Group {
    Group {
        start: left.partition_point(|cell| is_before(cell, table, server)),
        end: left.partition_point(|cell| is_up_to(cell, table, server)),
    }
}

/// Marks the cells as written, or as left once more.
pub(crate) fn mark(left: &mut [LeftCell], places: &[usize], is_left: bool) {
    for place in places {
        if let Some(cell) = left.get_mut(*place) {
            cell.is_left = is_left;
        }
    }
}
