//! Lists of cells.
use lynx_names::TableId;

/// The number of a table, a key and a value.
pub type Cell = (u8, u64, u64);

/// Whether these are the cells, in that order.
pub fn are_cells(cells: &[(TableId, u64, u64)], want: &[Cell]) -> bool {
    for (&(table, key, value), want) in cells.iter().zip(want) {
        if (table.number(), key, value) != *want {
            return false;
        }
    }
    cells.len() == want.len()
}
