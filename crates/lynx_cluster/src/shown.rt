//! What readers have of a server: where they read much, a mirror of its cells, so that none waits
//! for the lock of the server while others settle.
ghost use Rattle.std.specs.Prelude.{◌≡◌, ◌≤◌, IfOk, IfSome};
ghost use Rattle.lynx_cluster.specs.Readings.{IsRead};

use crate::reading::CellsRead;
use lynx_keep::BatchKeeper;
use lynx_names::{Memory, ServerId, TableId};
use lynx_resting::{Mirror, Resting};
use lynx_set::ChainSet;
use std::alloc::Global;
use std::sync::atomic::{AtomicU64, Ordering};
use std::sync::{Arc, Mutex, Wait};

/// For so many more entries that are settled one read makes a mirror worth its while.
const ENTRIES_A_READ: u64 = 1_024;

/// For so many more entries all reads together do, at most.
const MOST_ENTRIES: u64 = 64 * ENTRIES_A_READ;

/// A mirror is made where it is worth its while for so many more entries.
const ENTRIES_TO_MAKE: u64 = 16 * ENTRIES_A_READ;

/// The mirror of a server's cells, if there is one. It is made where there are many reads, and let
/// go where there are few.
#[derive(Drop)]
pub(crate) struct Shown {
    /// Changed by those alone who have the lock of the server.
    mirror: Mutex<Option<Arc<Mirror>>>,
    /// For how many more entries it is worth its while. Each read raises it.
    entries: AtomicU64,
}

/// What is read of a mirror.
fn read_of(
    alloc: Global,
    mirror: &Mirror,
    table: TableId,
    first: u64,
    last: u64,
    most: usize,
) -> Result<CellsRead, Memory>
    requires { first ≤ last }
    ensures { IfOk result (IsRead mirror.now.set mirror.now.server table first last most) }
{
    let cells = mirror.cells();
    Ok(CellsRead {
        stamp: mirror.stamp(),
        cells: cells.list_between(alloc, table, first, last, most)?,
    })
}

impl Shown {
    /// Nobody has read yet.
    pub(crate) fn new() -> Shown {
        Shown {
            mirror: Mutex::new(None),
            entries: AtomicU64::new(0),
        }
    }

    /// Somebody reads.
    pub(crate) fn note_read(&self) {
        let entries = self.entries.load(Ordering::SeqCst);
        let raised = entries.saturating_add(ENTRIES_A_READ).min(MOST_ENTRIES);
        self.entries.store(raised, Ordering::SeqCst);
    }

    /// So many entries more are settled.
    fn note_settled(&self, count: usize) {
        let entries = self.entries.load(Ordering::SeqCst);
        let left = entries.saturating_sub(count as u64);
        self.entries.store(left, Ordering::SeqCst);
    }

    /// Brings the mirror, if there is one, up to what is settled after a settling of so many
    /// entries. It is let go where few read, and where the server stopped. The caller has the lock
    /// of the server.
    pub(crate) fn follow<R: Wait, K: BatchKeeper>(
        &self,
        rt: &R,
        alloc: Global,
        state: &mut Resting<K>,
        count: usize,
    )
        ensures { state.new ≡ state.old }
    {
        self.note_settled(count);
        if !state.has_mirror() || count == 0 {
            return;
        }
        let mut mirror = self.mirror.lock(rt);
        *mirror = None;
        if state.is_stopped() || self.entries.load(Ordering::SeqCst) == 0 {
            state.drop_mirror();
        } else {
            state.follow_mirror(alloc);
        }
        *mirror = state.mirror();
    }

    /// Many read, so that a mirror is to be made if there is none.
    pub(crate) fn is_due(&self) -> bool {
        self.entries.load(Ordering::SeqCst) >= ENTRIES_TO_MAKE
    }

    /// Makes a mirror if there is none, unless memory is wanting. The caller has the lock of the
    /// server.
    pub(crate) fn make<R: Wait, K: BatchKeeper>(
        &self,
        rt: &R,
        alloc: Global,
        state: &mut Resting<K>,
    )
        ensures { state.new ≡ state.old }
    {
        if !state.has_mirror() && state.make_mirror(alloc).is_ok() {
            *self.mirror.lock(rt) = state.mirror();
        }
    }

    /// What a mirror of that server has of the cells, as after the last settling. None where there
    /// is no mirror.
    pub(crate) fn read<R: Wait>(
        &self,
        rt: &R,
        alloc: Global,
        set: &ChainSet,
        server: ServerId,
        table: TableId,
        first: u64,
        last: u64,
        most: usize,
    ) -> Result<Option<CellsRead>, Memory>
        requires { first ≤ last }
        ensures { IfOk result (λ found. IfSome found (IsRead set.now server table first last
            most)) }
    {
        let mirror = self.mirror.lock(rt);
        let Some(mirror) = &*mirror else {
            return Ok(None);
        };
        if mirror.server() != server || !mirror.set().is_same(set) {
            return Ok(None);
        }
        Ok(Some(read_of(alloc, mirror, table, first, last, most)?))
    }
}
