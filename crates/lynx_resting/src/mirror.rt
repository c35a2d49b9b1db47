//! Mirrors: copies of a server's cells for readers, who don't wait for its lock.
ghost use Rattle.std.specs.Prelude.{◌≡◌, IfOk, OnOk, fold};
ghost use Rattle.lynx_cells.specs.Database.{Database, applied, written};
ghost use Rattle.lynx_cells.specs.Triples.{entries_of};
ghost use Rattle.lynx_rules.specs.Tables.{after_entry, clock_of, tables_of};
ghost use Rattle.lynx_server.specs.History.{IsLawfulHistory};
ghost use Rattle.lynx_resting.specs.Mirrors.{IsMirrorOf, IsOfHistory};

use crate::redoing::changes_of;
use lynx_cells::{Cells, Changes};
use lynx_entry::Entry;
use lynx_names::{Memory, ServerId, Stamp, TableId, TryCopy};
use lynx_set::ChainSet;
use std::alloc::Global;
use std::marker::Model;

/// The cells of a server as its first entries left them, apart from the server.
#[derive(Drop)]
pub struct Mirror {
    set: ChainSet,
    server: ServerId,
    /// Of so many entries.
    count: usize,
    /// The stamp of the last of them, 0 where there is none.
    stamp: Stamp,
    cells: Cells,
}

impl Model for Mirror {
    ghost use Rattle.lynx_resting.specs.Mirrors.{MirrorState, IsOfHistory, mirror_code};

    ghost Value = { MirrorState };

    ghost coded = { mirror_code };

    ghost view = { λ mirror. record {
      set = mirror.set;
      server = mirror.server;
      count = mirror.count;
      stamp = mirror.stamp;
      cells = mirror.cells.database;
    } };

    ghost invariant = { λ mirror. IsOfHistory mirror.set mirror.server mirror.stamp
        mirror.cells.database };
}

/// Changes that write these values, one after another.
fn changes_to(alloc: Global, writes: &[(TableId, u64, u64)]) -> Result<Changes, Memory>
    ensures { IfOk result (λ changes. (db : Database) → applied changes db
        ≡ written (entries_of writes.now) db) }
{
    let mut changes = Changes::new(alloc);
    for &(table, key, value) in writes {
        changes.put(table, key, value)?;
    }
    Ok(changes)
}

/// Cells that hold the same: as much work as there are cells.
fn copy_of(alloc: Global, cells: &Cells) -> Result<Cells, Memory>
    ensures { IfOk result (λ copied. copied.database ≡ cells.now.database) }
{
    let list = cells.list(alloc)?;
    let changes = changes_to(alloc, list.as_slice())?;
    let mut copied = Cells::new(alloc);
    copied.stage(&changes)?;
    copied.apply(&changes);
    Ok(copied)
}

/// Does to the cells what these entries did, one after another. After an error they may have some
/// of it.
fn redo(alloc: Global, set: &ChainSet, entries: &[Entry], cells: &mut Cells) -> Result<(), Memory>
    ensures { OnOk result (cells.new.database
        ≡ fold (after_entry set.now) cells.old.database entries.now) }
{
    for entry in entries {
        let changes = changes_of(alloc, set, entry, cells)?;
        cells.stage(&changes)?;
        cells.apply(&changes);
    }
    Ok(())
}

/// The stamp of the last entry of a history, 0 where there is none.
pub fn clock_of(history: &[Entry]) -> Stamp
    ensures { result ≡ clock_of history.now }
{
    match history.last() {
        Some(entry) => entry.stamp(),
        None => Stamp::zero(),
    }
}

impl Mirror {
    /// A copy of the cells that the entries of a server left: as much work as there are cells.
    pub(crate) fn new(
        alloc: Global,
        set: &ChainSet,
        server: ServerId,
        history: &[Entry],
        cells: &Cells,
    ) -> Result<Mirror, Memory>
        requires lawful { IsLawfulHistory set.now server history.now }
        requires cells { cells.now.database ≡ tables_of set.now history.now }
        ensures { IfOk result (IsMirrorOf set.now server history.now) }
    {
        Ok(Mirror {
            set: set.copy(alloc)?,
            server,
            count: history.len(),
            stamp: clock_of(history),
            cells: copy_of(alloc, cells)?,
        })
    }

    /// The same, of all entries of a history that begins with those that it is of. The work is that
    /// of the hops of the entries that are more.
    pub(crate) fn follow(self, alloc: Global, history: &[Entry]) -> Result<Mirror, Memory>
        requires lawful { IsLawfulHistory self.set self.server history.now }
        requires mirrors { IsMirrorOf self.set self.server history.now self }
        ensures { IfOk result (IsMirrorOf self.set self.server history.now) }
    {
        let Mirror {
            set,
            server,
            count,
            mut cells,
            ..
        } = self;
        redo(alloc, &set, &history[count..], &mut cells)?;
        Ok(Mirror {
            set,
            server,
            count: history.len(),
            stamp: clock_of(history),
            cells,
        })
    }

    pub fn set(&self) -> &ChainSet
        ensures { result.now ≡ self.now.set }
    {
        &self.set
    }

    pub fn server(&self) -> ServerId
        ensures { result ≡ self.now.server }
    {
        self.server
    }

    /// The stamp of the last entry that the cells are of, 0 where there is none.
    pub fn stamp(&self) -> Stamp
        ensures { result ≡ self.now.stamp }
    {
        self.stamp
    }

    /// The cells, as some history of that server left them.
    pub fn cells(&self) -> &Cells
        ensures { IsOfHistory self.now.set self.now.server self.now.stamp result.now.database }
    {
        &self.cells
    }
}
