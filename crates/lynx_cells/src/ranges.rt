//! Cells of a table in the order of their keys.
ghost use Rattle.std.specs.Prelude.{◌≡◌, ◌≤◌, IfOk, take};
ghost use Rattle.lynx_cells.specs.Ranges.{cells_between};

use crate::cells::Cells;
use lynx_names::{Memory, TableId};
use std::alloc::Global;

impl Cells {
    /// The cells of a table that are not 0 and have keys from `first` to `last`, both among them,
    /// by key, so many at most: each a key and the value. It passes over each cell between them
    /// that was ever written.
    pub fn list_between(
        &self,
        alloc: Global,
        table: TableId,
        first: u64,
        last: u64,
        most: usize,
    ) -> Result<Vec<(u64, u64)>, Memory>
        requires { first ≤ last }
        ensures { IfOk result (λ list. list.items
            ≡ take most (cells_between table first last self.now.database)) }
    {
        let mut list = Vec::new(alloc);
        for (&(_, key), &value) in self.slots.range((table, first)..=(table, last)) {
            if list.len() == most {
                break;
            }
            if value != 0 {
                list.push((key, value))?;
            }
        }
        Ok(list)
    }
}
