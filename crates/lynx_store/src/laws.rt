//! What a stop leaves, and what the opening after it finds. Laws are the contracts of functions
//! that do nothing.
ghost use Rattle.std.specs.Prelude.{◌≡◌};
ghost use Rattle.std.specs.List.{AllByRecursion};
ghost use Rattle.sqlite_wal.specs.Recovery.{Image};
ghost use Rattle.sqlite_trees.specs.View.{IsClean};
ghost use Rattle.sqlite.specs.Files.{IsOpened, file_state};
ghost use Rattle.sqlite.specs.Held.{state};
ghost use Rattle.sqlite.specs.Start.{FindsIn};
ghost use Rattle.sqlite_store.specs.FileStore as files;
ghost use Rattle.lynx_keep.specs.Kept.{KeptState};
ghost use Rattle.lynx_keep.specs.Stored.{HasEncoding};
ghost use Rattle.lynx_store.specs.Crashes.{FindsEither, HoldsEither, IsEither, IsSoundConnection, KeepsEither};
ghost use Rattle.lynx_store.specs.Heading.{owner_in};
ghost use Rattle.lynx_store.specs.Premise.{IsUndisturbed};
ghost use Rattle.lynx_store.specs.Stored.{IsKept, LeavesOneOf, Owner};

use crate::keeper::SqlKeeper;
use lynx_sql::Rising;
use sqlite::{Connection, FileStore};
use sqlite_disk::Disk;

/// What a stop leaves in log and file is a database, and stands for one of the two states that a
/// stop leaves by the clauses of this connection's keeper: after a commit, whatever it answered,
/// Failed too, for what was kept before, or that with the whole entry, its cells included.
pub fn a_stop_leaves_one_of_both<D: Disk>(was: &Connection<FileStore<D>>)
    ensures { (owner : Owner) (one other : KeptState) (image : Image)
        → IsSoundConnection was.now → IsUndisturbed (file_state was.now)
        → LeavesOneOf (file_state was.now).may_leave owner one other
        → (files.state was.now.store).may_leave image
        → HoldsEither image owner one other }
{}

/// Lets go of a connection as a process that stops does, and gives back its store: log and file,
/// of which each image that can be left holds one of the two states.
pub fn stopped<D: Disk + Drop>(was: Connection<FileStore<D>>) -> FileStore<D>
    ensures { IsClean (files.view result) → (owner : Owner) (one other : KeptState)
        (image : Image)
        → LeavesOneOf (file_state was).may_leave owner one other
        → (files.state result).may_leave image
        → HoldsEither image owner one other }
{
    was.into_store()
}

/// What a stop left is what the next connection over log and file keeps.
pub fn the_next_opening_finds_it<D: Disk>(next: &Connection<FileStore<D>>)
    ensures { (owner : Owner) (one other : KeptState) (image : Image)
        → IsOpened next.now → FindsIn image (file_state next.now)
        → AllByRecursion HasEncoding one.entries → AllByRecursion HasEncoding other.entries
        → HoldsEither image owner one other
        → FindsEither (file_state next.now) owner one other }
{}

/// What is read back where one of two is kept is one of the two: the last premise is the clause
/// `all` of a keeper's `load`.
pub fn a_load_gives_one_of_both<S: Rising>(keeper: &SqlKeeper<S>)
    ensures { (one other told : KeptState)
        → KeepsEither (state S.Store keeper.now.conn) (owner_in keeper.now.heading)
        keeper.now.count one other
        → ((kept : KeptState) → IsKept (state S.Store keeper.now.conn)
        (owner_in keeper.now.heading) keeper.now.count kept → kept ≡ told)
        → IsEither told one other }
{}
