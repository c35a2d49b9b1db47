ghost use Rattle.std.specs.Prelude.{◌≡◌, IfOk, IfSome};
ghost use Rattle.std.specs.List.{AllByRecursion};
ghost use Rattle.std.specs.String.{string_bytes};
ghost use Rattle.sqlite.specs.Files.{file_state};
ghost use Rattle.sqlite_wal.specs.Files.{image_at};
ghost use Rattle.lynx_keep.specs.Kept.{KeptState};
ghost use Rattle.lynx_keep.specs.Stored.{HasEncoding};
ghost use Rattle.lynx_store.specs.Crashes.{HoldsEither, KeepsEither};
ghost use Rattle.lynx_store.specs.Heading.{owner_in};
ghost use Rattle.lynx_store.specs.Premise.{IsUndisturbed};
ghost use Rattle.lynx_store.specs.Stored.{IsKept, owner_for};
ghost use Rattle.lynx_store_files.specs.Paths.{store_path};

use crate::carried::check_carried;
use crate::keeper::FileKeeper;
use crate::presence::{check_folder, check_restored, has_store, judge};
use crate::stores::Stores;
use lynx_names::{Memory, ServerId};
use lynx_set::ChainSet;
use lynx_sql::schema::is_empty;
use lynx_store::{SqlKeeper, StoreFault};
use sqlite::{Connection, File, FileFrom, Start, Unknown};
use std::alloc::Global;
use std::rt::HostRuntime;

/// The path of a server's store in the folder.
pub fn store_path(alloc: Global, folder: &str, server: ServerId) -> Result<String, Memory>
    ensures { IfOk result (λ path. string_bytes path ≡ store_path folder.now server) }
{
    match format!(in alloc; "{folder}/server-{server}.lynx") {
        Ok(path) => Ok(path),
        Err(_) => Err(Memory),
    }
}

/// The keeper over the store of that server at the path, which is made where there is none. `S`
/// stands for what the file and its log held as they were opened, whatever that was. No clause ties
/// the files to the path: the kit has none that could.
pub fn open_store<S: Start>(
    rt: &HostRuntime,
    path: &str,
    set: &ChainSet,
    server: ServerId,
    start: S,
) -> Result<FileKeeper<FileFrom<S>>, StoreFault>
    ensures owner { IfOk result
        (λ keeper. owner_in keeper.keeper.heading ≡ owner_for server set.now) }
    // It keeps something, whatever was there.
    ensures kept { IfOk result (λ keeper. IsUndisturbed (file_state keeper.keeper.conn)
        → (kept : KeptState)
        × IsKept (file_state keeper.keeper.conn) (owner_in keeper.keeper.heading)
        keeper.keeper.count kept) }
    // Where a stop left one of two states in the files, it keeps one of the two.
    ensures either { IfOk result (λ keeper. IsUndisturbed (file_state keeper.keeper.conn)
        → (one other : KeptState) → AllByRecursion HasEncoding one.entries
        → AllByRecursion HasEncoding other.entries
        → HoldsEither (image_at S.Start) (owner_for server set.now) one other
        → KeepsEither (file_state keeper.keeper.conn) (owner_in keeper.keeper.heading)
        keeper.keeper.count one other) }
{
    judge(rt, path)?;
    let conn = match Connection::open_from(rt, path, false, start) {
        Ok(conn) => conn,
        Err(_) => return Err(StoreFault::Store),
    };
    match SqlKeeper::open(rt.alloc(), conn, set, server) {
        Ok(keeper) => Ok(FileKeeper::new(keeper)),
        Err((fault, _)) => Err(fault),
    }
}

/// The keeper over the store of that server at the path, as [`open_store`] gives it. None where the
/// database has no tables yet: nothing is made then.
pub fn open_made<S: Start>(
    rt: &HostRuntime,
    path: &str,
    set: &ChainSet,
    server: ServerId,
    start: S,
) -> Result<Option<FileKeeper<FileFrom<S>>>, StoreFault>
    ensures owner { IfOk result (λ found. IfSome found
        (λ keeper. owner_in keeper.keeper.heading ≡ owner_for server set.now)) }
    // It keeps something, whatever was there.
    ensures kept { IfOk result (λ found. IfSome found
        (λ keeper. IsUndisturbed (file_state keeper.keeper.conn) → (kept : KeptState)
        × IsKept (file_state keeper.keeper.conn) (owner_in keeper.keeper.heading)
        keeper.keeper.count kept)) }
    // Where a stop left one of two states in the files, it keeps one of the two.
    ensures either { IfOk result (λ found. IfSome found
        (λ keeper. IsUndisturbed (file_state keeper.keeper.conn)
        → (one other : KeptState) → AllByRecursion HasEncoding one.entries
        → AllByRecursion HasEncoding other.entries
        → HoldsEither (image_at S.Start) (owner_for server set.now) one other
        → KeepsEither (file_state keeper.keeper.conn) (owner_in keeper.keeper.heading)
        keeper.keeper.count one other)) }
{
    judge(rt, path)?;
    let conn = match Connection::open_from(rt, path, false, start) {
        Ok(conn) => conn,
        Err(_) => return Err(StoreFault::Store),
    };
    if is_empty(conn.schema()) {
        return Ok(None);
    }
    match SqlKeeper::open(rt.alloc(), conn, set, server) {
        Ok(keeper) => Ok(Some(FileKeeper::new(keeper))),
        Err((fault, _)) => Err(fault),
    }
}

/// Stores in files: `server-0.lynx` in the folder and so on, each with its log beside it. A file is
/// locked while it is open, so a second process gets [`StoreFault::Store`], and so does who names a
/// folder that isn't there. A file that is no database's is answered [`StoreFault::Damaged`], and
/// so is one that was emptied beside its log: nothing of either is changed. No store is made in a
/// folder to which a restore was stopped ([`restoring_path`](crate::restoring_path)): that is
/// Damaged too. A folder whose books are closed ([`carried_path`](crate::carried_path)) opens no
/// store for writing, which is answered [`StoreFault::Store`]: each opening looks for that file
/// once it holds the lock of the store. A copy of a store can still be read.
#[derive(Drop)]
pub struct Files {
    pub(crate) rt: HostRuntime,
}

impl Files {
    /// Stores among the files that this runtime reaches.
    pub fn new(rt: HostRuntime) -> Files
        ensures { result.rt ≡ rt }
    {
        Files { rt }
    }
}

// Each file is opened by a call of its own of `open_store` or `open_made`, whose contracts hold for
// whatever that file held; `Unknown` is the name that a program gives it (docs/DECISIONS.md,
// Services and clients).
impl Stores<FileKeeper<File>> for Files {
    ghost use Rattle.std.specs.Prelude.{◌≡◌, true};
    ghost use Rattle.lynx_store.specs.Heading.{owner_in};
    ghost use Rattle.lynx_store.specs.Stored.{owner_for};
    ghost use Rattle.lynx_store_files.specs.Closing.{IsLetGo};

    ghost store_terms = { record {
      store_in = λ folder set server keeper.
          owner_in keeper.keeper.heading ≡ owner_for server set;
      lacks = λ folder server. Unit {0};
      count_of = λ keeper. keeper.keeper.count;
      closed = λ keeper is_well. is_well ≡ true → IsLetGo keeper.keeper.conn
          keeper.keeper.heading keeper.keeper.count;
    } };

    fn open(
        &self,
        folder: &str,
        set: &ChainSet,
        server: ServerId,
    ) -> Result<FileKeeper<File>, StoreFault> {
        let path = store_path(self.rt.alloc(), folder, server)?;
        if !has_store(&self.rt, path.as_str())? {
            check_restored(&self.rt, folder)?;
            check_carried(&self.rt, folder)?;
        }
        let keeper = open_store(&self.rt, path.as_str(), set, server, Unknown)?;
        check_carried(&self.rt, folder)?;
        Ok(keeper)
    }

    fn open_there(
        &self,
        folder: &str,
        set: &ChainSet,
        server: ServerId,
    ) -> Result<Option<FileKeeper<File>>, StoreFault> {
        check_folder(&self.rt, folder)?;
        let path = store_path(self.rt.alloc(), folder, server)?;
        if !has_store(&self.rt, path.as_str())? {
            return Ok(None);
        }
        let found = open_made(&self.rt, path.as_str(), set, server, Unknown)?;
        check_carried(&self.rt, folder)?;
        Ok(found)
    }

    fn has(&self, folder: &str, server: ServerId) -> Result<bool, StoreFault> {
        check_folder(&self.rt, folder)?;
        let path = store_path(self.rt.alloc(), folder, server)?;
        has_store(&self.rt, path.as_str())
    }

    fn entries(&self, keeper: &FileKeeper<File>) -> u64 {
        u64::from(keeper.entries())
    }

    fn close(&self, keeper: FileKeeper<File>) -> Result<(), StoreFault> {
        keeper.close()?;
        Ok(())
    }
}
