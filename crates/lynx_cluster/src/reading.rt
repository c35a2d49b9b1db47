//! Reads cells of one server, all of one moment. The caller needs no session.
ghost use Rattle.std.specs.Prelude.{◌≡◌, ◌≤◌, IfOk, IfSome};
ghost use Rattle.lynx_cluster.specs.Readings.{IsRead, ReadsHistory};
ghost use Rattle.lynx_resting.specs.Resting.{settled_front};

use crate::cluster::{Frontend, is_of};
use crate::gate::Gate;
use crate::shared_server::SharedServer;
use lynx_keep::BatchKeeper;
use lynx_names::{Memory, ServerId, Stamp, TableId, learn};
use lynx_resting::{Resting, clock_of};
use std::alloc::Global;
use std::sync::Wait;

/// Cells of a table of one server, all of one moment, between two whole steps of it.
#[derive(Debug, Drop)]
pub struct CellsRead {
    /// The stamp of the last entry then, 0 where there was none.
    pub stamp: Stamp,
    /// Those that aren't 0, by key: each a key and its value.
    pub cells: Vec<(u64, u64)>,
}

/// What is read of what is settled of a server. None while something of it isn't.
fn read_of<K: BatchKeeper>(
    alloc: Global,
    state: &Resting<K>,
    table: TableId,
    first: u64,
    last: u64,
    most: usize,
) -> Result<Option<CellsRead>, Memory>
    requires { first ≤ last }
    ensures { IfOk result (λ found. IfSome found (ReadsHistory state.now.here.set
        (settled_front state.now) table first last most)) }
{
    let stamp = clock_of(state.settled());
    let Some(cells) = state.cells() else {
        return Ok(None);
    };
    Ok(Some(CellsRead {
        stamp,
        cells: cells.list_between(alloc, table, first, last, most)?,
    }))
}

impl<K: BatchKeeper, G: Gate> Frontend<K, G> {
    /// What is read under the lock of the server.
    fn read_locked<R: Wait>(
        &self,
        rt: &R,
        alloc: Global,
        shared: &SharedServer<K>,
        server: ServerId,
        table: TableId,
        first: u64,
        last: u64,
        most: usize,
    ) -> Result<Option<CellsRead>, Memory>
        requires { first ≤ last }
        ensures { IfOk result (λ found. IfSome found (IsRead self.now.set server table first last
            most)) }
    {
        let state = shared.look_settled(rt, alloc);
        if !is_of(&state, &self.set, server) {
            return Ok(None);
        }
        // By its type the history is lawful.
        learn(state.settled());
        read_of(alloc, &state, table, first, last, most)
    }

    /// The cells of a table that aren't 0 at that server and have keys from `first` to `last`, by
    /// key, so many at most, between two whole steps of the server: what was answered before is
    /// done. Nothing is written, and no session notes it. None where there is no such server, or
    /// where it stopped and something that it did isn't settled. It costs the cells between the two
    /// keys that were ever written. The first reads wait for the settling of what the server did;
    /// many reads have a copy of all its cells, and wait no more.
    pub fn read<R: Wait>(
        &self,
        rt: &R,
        alloc: Global,
        server: ServerId,
        table: TableId,
        first: u64,
        last: u64,
        most: usize,
    ) -> Result<Option<CellsRead>, Memory>
        requires { first ≤ last }
        ensures { IfOk result (λ found. IfSome found (IsRead self.now.set server table first last
            most)) }
    {
        let Some(shared) = self.shared_servers.as_slice().get(server.index()) else {
            return Ok(None);
        };
        let shown = &shared.shown;
        shown.note_read();
        if let Some(read) = shown.read(rt, alloc, &self.set, server, table, first, last, most)? {
            return Ok(Some(read));
        }
        if shown.is_due() {
            shown.make(rt, alloc, &mut shared.look_settled(rt, alloc));
        }
        self.read_locked(rt, alloc, shared, server, table, first, last, most)
    }
}
