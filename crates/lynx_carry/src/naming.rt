//! Cells by the names of their tables.
ghost use Rattle.std.specs.Prelude.{◌≡◌, ◌++◌, None, IfErr, IfOk, OnOk, MatchOption, length, map, option_to_list};
ghost use Rattle.std.specs.List.{filter_map};
ghost use Rattle.lynx_names.specs.declared.limits.TheConstants.{MAX_TABLES};
ghost use Rattle.lynx_set.specs.Names.{place_below};
ghost use Rattle.lynx_carry.specs.Faults.{IsCarryFault};
ghost use Rattle.lynx_carry.specs.Naming.{by_name, named_cell};

use crate::fault::CarryFault;
use lynx_lex::name::Name;
use lynx_names::{Memory, TableId};
use lynx_set::ChainSet;
use std::alloc::Global;

/// A cell, by the name of its table.
#[derive(Clone, Copy, Debug, PartialEq, Eq)]
pub struct NamedCell {
    pub table: Name,
    pub key: u64,
    pub value: u64,
}

/// The cell under the name of its table. None where the set hasn't the table.
fn named_cell(set: &ChainSet, cell: &(TableId, u64, u64)) -> Option<NamedCell>
    ensures { result ≡ named_cell set.now cell.now }
{
    let (table, key, value) = *cell;
    let name = set.tables().get_index(table.index())?;
    Some(NamedCell {
        table: *name,
        key,
        value,
    })
}

/// Adds the cell, if there is one.
fn add(named: &mut Vec<NamedCell>, cell: Option<NamedCell>) -> Result<(), Memory>
    ensures { OnOk result (named.new.items ≡ named.old.items ++ option_to_list cell) }
{
    if let Some(cell) = cell {
        named.push(cell)?;
    }
    Ok(())
}

/// The cells under the names of their tables, in their order. Cells of a table that the set hasn't
/// are left out; a world of the set has none. It takes a step for each cell.
pub fn named_cells(
    alloc: Global,
    set: &ChainSet,
    cells: &[(TableId, u64, u64)],
) -> Result<Vec<NamedCell>, Memory>
    ensures named { IfOk result (λ named. named.items ≡ filter_map (named_cell set.now) cells.now) }
    ensures whole { IfOk result (λ named. length named.items ≡ length cells.now
        → named.items ≡ map (by_name set.now) cells.now) }
{
    let mut named = Vec::new(alloc);
    for cell in cells {
        add(&mut named, named_cell(set, cell))?;
    }
    Ok(named)
}

/// The cell with the number of its table. None where the set hasn't the table.
fn numbered_cell(set: &ChainSet, cell: &NamedCell) -> Option<(TableId, u64, u64)>
    ensures { MatchOption result (place_below MAX_TABLES set.now.tables cell.now.table ≡ None)
        (λ triple. by_name set.now triple ≡ cell.now) }
{
    let table = set.find_table(&cell.table)?;
    Some((table, cell.key, cell.value))
}

/// The cells with the numbers of their tables, in their order. The fault is that of the first cell
/// of a table that the set hasn't, or want of memory.
pub(crate) fn numbered_cells(
    alloc: Global,
    set: &ChainSet,
    cells: &[NamedCell],
) -> Result<Vec<(TableId, u64, u64)>, CarryFault>
    ensures ok { IfOk result (λ triples. map (by_name set.now) triples.items ≡ cells.now) }
    ensures err { IfErr result (IsCarryFault set.now cells.now) }
{
    let mut triples = Vec::new(alloc);
    for cell in cells {
        let Some(triple) = numbered_cell(set, cell) else {
            return Err(CarryFault::NoTable { table: cell.table });
        };
        triples.push(triple).map_err(Memory::from)?;
    }
    Ok(triples)
}
