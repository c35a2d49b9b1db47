ghost use Rattle.lynx_store.specs.Heading.{owner_in};
ghost use Rattle.lynx_store.specs.Laws.{leaves_either, leaves_kept};
ghost use Rattle.lynx_store.specs.Premise.{IsUndisturbed};
ghost use Rattle.lynx_store.specs.Stored.{IsKept, LeavesOneOf, Owner};
ghost use Rattle.lynx_store_files.specs.Closing.{StandsAlone};
ghost use Rattle.sqlite.specs.Files.{file_state};
ghost use Rattle.sqlite_store.specs.FileStore.{recovers, view};
ghost use Rattle.sqlite_store.specs.Laws.{settled_at};
ghost use Rattle.std.specs.Prelude.{◌≡◌, IfOk};
ghost use Rattle.lynx_keep.specs.Kept.{KeptState};

use lynx_cells::Changes;
use lynx_entry::Entry;
use lynx_keep::{BatchKeeper, Cause, KeepFault, Keeper, Loaded};
use lynx_store::{SqlKeeper, StoreFault};
use sqlite::{FileStore, Files};
use sqlite_disk::Disk;
use std::alloc::Global;

/// A keeper over the file of a store.
pub type StoreKeeper<D> = SqlKeeper<FileStore<D>>;

/// A keeper over the file of a store, which hands each call on to the [`StoreKeeper`] in it. Its
/// contracts hold over any kind of disk, so also over the files of a path, whatever they held as
/// they were opened. It is a name of its own, so that a program can say it beside threads and
/// sockets: docs/DECISIONS.md, Services and clients.
#[derive(Drop)]
pub struct FileKeeper<D: Disk> {
    keeper: StoreKeeper<D>,
}

impl<D: Disk + Drop> FileKeeper<D> {
    /// Of that keeper.
    pub fn new(keeper: StoreKeeper<D>) -> FileKeeper<D>
        ensures { result.keeper ≡ keeper }
    {
        FileKeeper { keeper }
    }

    /// How many entries it keeps.
    pub fn entries(&self) -> u32
        ensures { result ≡ self.now.keeper.count }
    {
        self.keeper.entries()
    }

    /// The keeper in it.
    pub fn into_inner(self) -> StoreKeeper<D>
        ensures { result ≡ self.keeper }
    {
        self.keeper
    }

    /// Closes the store: its log is copied into the file, which then holds all that is kept, also
    /// without the log. The files are let go of where they are dropped.
    pub fn close(self) -> Result<Files<D>, StoreFault>
        ensures { IfOk result (λ files. (kept : KeptState)
            → IsKept (file_state self.keeper.conn) (owner_in self.keeper.heading)
            self.keeper.count kept
            → StandsAlone self.keeper.conn files (owner_in self.keeper.heading) kept) }
    {
        match self.keeper.into_connection().close_files() {
            Ok(files) => Ok(files),
            Err((_, store)) => {
                drop(store.close());
                Err(StoreFault::Store)
            }
        }
    }
}

impl<D: Disk> Keeper for FileKeeper<D> {
    ghost terms = { record {
      sound = λ keeper. IsUndisturbed (file_state keeper.keeper.conn);
      keeps = λ keeper kept. IsKept (file_state keeper.keeper.conn) (owner_in keeper.keeper.heading)
          keeper.keeper.count kept;
      leaves = λ keeper one other. LeavesOneOf (file_state keeper.keeper.conn).may_leave
          (owner_in keeper.keeper.heading) one other;
      counted = λ keeper. keeper.keeper.faults;
      rests = λ keeper settled kept. Unit {0};
      Owner = Owner;
      owner = λ keeper. owner_in keeper.keeper.heading;
    } };

    fn commit(&mut self, alloc: Global, entry: &Entry, changes: &Changes) -> Result<(), KeepFault> {
        self.keeper.commit(alloc, entry, changes)
    }

    fn load(&mut self, alloc: Global) -> Result<Loaded, KeepFault> {
        self.keeper.load(alloc)
    }

    fn faults(&self) -> u64 {
        self.keeper.faults()
    }

    fn cause(&self) -> Option<Cause> {
        self.keeper.cause()
    }

    ghost settled = { λ keeper kept sound keeps. leaves_kept (recovers keeper.keeper.conn.store)
        (view keeper.keeper.conn.store).committed (owner_in keeper.keeper.heading) kept kept
        (λ db may. settled_at keeper.keeper.conn.store D.Disk.seen_may_stay db keeps.tables.is_open
        may) keeps.tables.tables };

    ghost weaker = { λ keeper kept other left. leaves_either (recovers keeper.keeper.conn.store)
        (owner_in keeper.keeper.heading) kept other left };
}

impl<D: Disk> BatchKeeper for FileKeeper<D> {
    fn commit_all(
        &mut self,
        alloc: Global,
        entries: &[Entry],
        changes: &Changes,
    ) -> Result<(), KeepFault> {
        self.keeper.commit_all(alloc, entries, changes)
    }
}
