//! Why a cell was left over, and whether servers can take the chains.
ghost use Rattle.std.specs.Prelude.{IfErr, OnOk};
ghost use Rattle.lynx_carry.specs.Counts.{HaveRoom};
ghost use Rattle.lynx_carry.specs.Faults.{IsPlanFault};

use crate::counting::entries_of;
use crate::fault::CarryFault;
use crate::naming::NamedCell;
use crate::writers::{Target, set_writes};
use lynx_entry::Request;
use lynx_names::ServerId;
use lynx_names::limits::MAX_ENTRIES;
use lynx_set::ChainSet;
use std::alloc::Global;

/// Why the cell at that place was left over.
pub(crate) fn why_left(set: &ChainSet, cells: &[NamedCell], place: usize) -> CarryFault
    ensures { IsPlanFault set.now cells.now result }
{
    let Some(cell) = cells.get(place) else {
        return CarryFault::Differs;
    };
    let Some(table) = set.find_table(&cell.table) else {
        return CarryFault::NoTable { table: cell.table };
    };
    let server = set.shards().server_of(table, cell.key);
    let target = Target {
        server,
        table,
        key: cell.key,
        value: cell.value,
    };
    if set_writes(set, &target) {
        return CarryFault::Differs;
    }
    CarryFault::NoWriter {
        table: cell.table,
        server,
    }
}

/// Each server of the set can take the entries of the chains, or which can't, the first.
pub(crate) fn check_room(
    alloc: Global,
    set: &ChainSet,
    requests: &[Request],
    cells: &[NamedCell],
) -> Result<(), CarryFault>
    ensures ok { OnOk result (HaveRoom set.now requests.now) }
    ensures err { IfErr result (IsPlanFault set.now cells.now) }
{
    let counts = entries_of(alloc, set, requests)?;
    for number in 0..set.servers() {
        let server = ServerId::at(number);
        let entries = counts[server.index()];
        if entries > MAX_ENTRIES {
            return Err(CarryFault::TooMany { server, entries });
        }
    }
    Ok(())
}
