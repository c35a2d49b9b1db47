//! What an entry changed, by its hop, which is run again.
ghost use Rattle.std.specs.Prelude.{◌≡◌, IfOk};
ghost use Rattle.lynx_cells.specs.Database.{applied};
ghost use Rattle.lynx_hops.specs.Meaning.{meaning};
ghost use Rattle.lynx_rules.specs.Tables.{after_entry, database_after};

use lynx_cells::{Cells, Changes};
use lynx_entry::Entry;
use lynx_hops::{HopFault, run_hop};
use lynx_names::{Memory, ProgramId, Values};
use lynx_set::ChainSet;
use std::alloc::Global;

/// The changes of a hop over the cells that it finds. A hop that refuses has none.
fn changes_of_hop(
    alloc: Global,
    set: &ChainSet,
    program: ProgramId,
    hop: usize,
    args: &[u64],
    earlier: &[Values],
    cells: &Cells,
) -> Result<Changes, Memory>
    ensures { IfOk result (λ changes. applied changes cells.now.database
        ≡ database_after (meaning set.now program hop args.now earlier.now cells.now.database)
        cells.now.database) }
{
    match run_hop(alloc, set, program, hop, args, earlier, cells) {
        Ok(ran) => {
            let (_, changes) = ran.spend();
            Ok(changes)
        }
        Err(HopFault::Refused(_)) => Ok(Changes::new(alloc)),
        Err(HopFault::Memory) => Err(Memory),
    }
}

/// The changes that an entry made to the cells that it found. It takes the work of the entry's hop.
pub fn changes_of(
    alloc: Global,
    set: &ChainSet,
    entry: &Entry,
    cells: &Cells,
) -> Result<Changes, Memory>
    ensures { IfOk result (λ changes. applied changes cells.now.database
        ≡ after_entry set.now cells.now.database entry.now) }
{
    match entry {
        Entry::Begun(begun) => {
            let args = begun.request.args.as_slice();
            changes_of_hop(alloc, set, begun.request.program, 0, args, &[], cells)
        }
        Entry::Refused(_) => Ok(Changes::new(alloc)),
        Entry::Hop(ran) => {
            let message = &ran.message;
            let hop = usize::from(message.hop);
            let args = message.args.as_slice();
            let earlier = message.results.as_slice();
            changes_of_hop(alloc, set, message.program, hop, args, earlier, cells)
        }
    }
}
