//! Changes of cells, as they are gathered and applied.
use lynx_cells::{Cells, Changes};
use lynx_fixtures::cells::{Cell, are_cells};
use lynx_names::{Memory, TableId};
use std::alloc::Global;

fn changes_of(alloc: Global, writes: &[Cell]) -> Result<Changes, Memory> {
    let mut changes = Changes::new(alloc);
    for &(number, key, value) in writes {
        changes.put(TableId::new(number).ok_or(Memory)?, key, value)?;
    }
    Ok(changes)
}

const REPEATED: &[Cell] = &[(2, 7, 1), (1, 9, 2), (2, 7, 3), (1, 3, 0), (2, 6, 4)];

const KEPT: &[Cell] = &[(1, 3, 0), (1, 9, 2), (2, 6, 4), (2, 7, 3)];

/// Whether the last value of each cell is kept, in order.
fn last_are_kept(alloc: Global) -> Result<bool, Memory> {
    let changes = changes_of(alloc, REPEATED)?;
    Ok(are_cells(changes.list(), KEPT))
}

const FIRST: &[Cell] = &[(1, 5, 10), (0, 8, 20), (1, 4, 30), (0, 9, 0)];

const SECOND: &[Cell] = &[(1, 4, 31), (1, 5, 0), (1, 4, 32)];

const LEFT: &[Cell] = &[(0, 8, 20), (1, 4, 32)];

fn write(alloc: Global, cells: &mut Cells, writes: &[Cell]) -> Result<(), Memory> {
    let changes = changes_of(alloc, writes)?;
    cells.stage(&changes)?;
    cells.apply(&changes);
    Ok(())
}

/// Whether the second writes are seen through the first ones, and leave these cells and no other
/// one.
fn are_left(alloc: Global) -> Result<bool, Memory> {
    let mut cells = Cells::new(alloc);
    write(alloc, &mut cells, FIRST)?;
    let second = changes_of(alloc, SECOND)?;
    let seen = cells.get_through(&second, TableId::new(1).ok_or(Memory)?, 4);
    write(alloc, &mut cells, SECOND)?;
    let list = cells.list(alloc)?;
    Ok(seen == 32 && are_cells(list.as_slice(), LEFT))
}

#[test]
fn changes_are_kept_and_applied_in_order(rt: HostRuntime) {
    assert!(rt; last_are_kept(rt.alloc()) == Ok(true));
    assert!(rt; are_left(rt.alloc()) == Ok(true));
}
