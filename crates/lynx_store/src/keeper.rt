ghost use Rattle.std.specs.Prelude.{◌≡◌, ◌+◌, ◌-◌, ◌<◌, ◌≤◌, ◌^◌, ℕ, IsErrOf, IfOk, None, Some, length, min};
ghost use Rattle.sqlite_trees.specs.View.{doubt};
ghost use Rattle.sqlite.specs.Tree.{Trees};
ghost use Rattle.sqlite.specs.Held.{state};
ghost use Rattle.lynx_keep.specs.Kept.{KeptState, kept_in};
ghost use Rattle.lynx_store.specs.Causes.{cause_of};
ghost use Rattle.lynx_store.specs.Heading.{owner_in};
ghost use Rattle.lynx_store.specs.Premise.{IsUndisturbed};
ghost use Rattle.lynx_store.specs.Stored.{IsKept, Tells};

use crate::acts::{act_at, are_acts_shown};
use crate::body::body_of;
use crate::heading::Heading;
use crate::loading::{cells_of, entries_of};
use lynx_cells::Changes;
use lynx_entry::Entry;
use lynx_keep::{Cause, KeepFault, Keeper, Loaded};
use lynx_sql::commit::write_entry;
use lynx_sql::{Rising, StoredRows, read_rows};
use sqlite::{Connection, Error, ErrorCode};
use std::alloc::Global;

/// Keeps a server's entries and cells in a database, and in a store of version 2 the hops that its
/// entries are of. Each commit is one transaction.
///
/// What it says of what is kept rests on a premise: nobody else writes the file, and the disk has
/// given back what was written to it, so far.
#[derive(Drop)]
pub struct SqlKeeper<S: Rising> {
    pub(crate) conn: Connection<S>,
    pub(crate) heading: Heading,
    /// How many entries are kept: the place of the next one.
    pub(crate) count: u32,
    faults: u64,
    cause: Option<Cause>,
}

/// Why the database failed.
pub(crate) fn cause_of(error: &Error) -> Cause
    ensures { result ≡ cause_of error.now }
{
    match error {
        Error::SqliteFailure(ErrorCode::DiskFull) => Cause::Full,
        Error::SqliteFailure(ErrorCode::SystemIoFailure) => Cause::Disk,
        Error::SqliteFailure(ErrorCode::OutOfMemory) => Cause::Memory,
        Error::SqliteFailure(ErrorCode::Closed) => Cause::Closed,
        Error::SqliteFailure(ErrorCode::NotADatabase | ErrorCode::DatabaseCorrupt) => {
            Cause::Damaged
        }
        _ => Cause::Refused,
    }
}

/// What the rows tell. Failed where they tell nothing of this heading: a row hasn't its form, say.
pub(crate) fn loaded_of(
    alloc: Global,
    heading: &Heading,
    rows: &StoredRows,
) -> Result<Loaded, KeepFault>
    ensures told { IfOk result
        (λ loaded. Tells rows.now (owner_in heading.now) (kept_in loaded)) }
    ensures few { IfOk result (λ loaded. length loaded.entries.items < 2 ^ 32) }
    ensures failed { IsErrOf result KeepFault.Failed → (kept : KeptState)
        → length kept.entries < 2 ^ 32 → Tells rows.now (owner_in heading.now) kept → ⊥ }
{
    if !heading.is_shown(rows.title.as_slice()) {
        return Err(KeepFault::Failed);
    }
    let Some(entries) = entries_of(alloc, rows.entries.as_slice())? else {
        return Err(KeepFault::Failed);
    };
    let Some(cells) = cells_of(alloc, rows.cells.as_slice())? else {
        return Err(KeepFault::Failed);
    };
    if !are_acts_shown(alloc, heading.version, entries.as_slice(), &rows.acted)? {
        return Err(KeepFault::Failed);
    }
    Ok(Loaded { entries, cells })
}

/// What the tables under this heading hold.
fn read<S: Rising>(
    alloc: Global,
    conn: &mut Connection<S>,
    heading: &Heading,
) -> Result<Loaded, KeepFault>
    ensures clean { doubt (state S.Store conn.old).is_clean
        ≤ doubt (state S.Store conn.new).is_clean }
    ensures ok { IsUndisturbed (state S.Store conn.new) → IfOk result (λ loaded.
        IsKept (state S.Store conn.new) (owner_in heading.now) (length loaded.entries.items)
        (kept_in loaded)) }
    ensures all { IsUndisturbed (state S.Store conn.new)
        → IfOk result (λ loaded. (count : ℕ) (kept : KeptState)
        → IsKept (state S.Store conn.old) (owner_in heading.now) count kept
        → kept ≡ kept_in loaded) }
    ensures memory { IsUndisturbed (state S.Store conn.new) → IsErrOf result KeepFault.Memory
        → (count : ℕ) (kept : KeptState)
        → IsKept (state S.Store conn.old) (owner_in heading.now) count kept
        → IsKept (state S.Store conn.new) (owner_in heading.now) count kept }
    ensures stop { IsUndisturbed (state S.Store conn.new) → (db : Trees)
        → (state S.Store conn.new).may_leave db → (state S.Store conn.old).may_leave db }
{
    match read_rows(conn) {
        Ok(rows) => loaded_of(alloc, heading, &rows),
        Err(_) => Err(KeepFault::Failed),
    }
}

impl<S: Rising> SqlKeeper<S> {
    /// A keeper over a store that holds so many entries.
    pub(crate) fn over(conn: Connection<S>, heading: Heading, count: u32) -> SqlKeeper<S>
        ensures { result
            ≡ record { conn = conn; heading = heading; count = count; faults = 0; cause = None } }
    {
        SqlKeeper {
            conn,
            heading,
            count,
            faults: 0,
            cause: None,
        }
    }

    /// Counts a failure of the store, and notes why it came.
    pub(crate) fn fail(&mut self, cause: Cause) -> KeepFault
        ensures noted { self.new ≡ record self.old {
          faults = min (self.old.faults + 1) (2 ^ 64 - 1);
          cause = Some cause;
        } }
        ensures counts { self.old.faults ≤ self.new.faults }
        ensures failed { result ≡ KeepFault.Failed }
    {
        self.faults = self.faults.saturating_add(1);
        self.cause = Some(cause);
        KeepFault::Failed
    }

    /// How many entries it keeps.
    pub fn entries(&self) -> u32
        ensures { result ≡ self.now.count }
    {
        self.count
    }

    /// Gives the connection back.
    pub fn into_connection(self) -> Connection<S>
        ensures { result ≡ self.conn }
    {
        self.conn
    }
}

impl<S: Rising> Keeper for SqlKeeper<S> {
    ghost use Rattle.sqlite.specs.Held.{state};
    ghost use Rattle.lynx_store.specs.Heading.{owner_in};
    ghost use Rattle.lynx_store.specs.Premise.{IsUndisturbed};
    ghost use Rattle.lynx_store.specs.Stored.{IsKept, LeavesOneOf, Owner};
    ghost use Rattle.lynx_store.specs.Laws.{leaves_kept, leaves_either};

    ghost terms = { record {
      sound = λ keeper. IsUndisturbed (state S.Store keeper.conn);
      keeps = λ keeper kept. IsKept (state S.Store keeper.conn) (owner_in keeper.heading)
          keeper.count kept;
      leaves = λ keeper one other. LeavesOneOf (state S.Store keeper.conn).may_leave
          (owner_in keeper.heading) one other;
      counted = λ keeper. keeper.faults;
      rests = λ keeper settled kept. Unit {0};
      Owner = Owner;
      owner = λ keeper. owner_in keeper.heading;
    } };

    fn commit(&mut self, alloc: Global, entry: &Entry, changes: &Changes) -> Result<(), KeepFault> {
        let body = body_of(alloc, entry)?;
        if self.count == u32::MAX {
            return Err(self.fail(Cause::NoPlace));
        }
        let acted = act_at(self.count, entry);
        match write_entry(
            &mut self.conn,
            self.heading.version,
            self.count,
            body.as_slice(),
            changes,
            acted,
        ) {
            Ok(()) => {
                self.count += 1;
                Ok(())
            }
            Err(error) => Err(self.fail(cause_of(&error))),
        }
    }

    fn load(&mut self, alloc: Global) -> Result<Loaded, KeepFault> {
        match read(alloc, &mut self.conn, &self.heading) {
            Ok(loaded) => {
                let Ok(count) = u32::try_from(loaded.entries.len()) else {
                    return Err(self.fail(Cause::NoPlace));
                };
                self.count = count;
                Ok(loaded)
            }
            Err(KeepFault::Memory) => Err(KeepFault::Memory),
            Err(KeepFault::Failed) => Err(self.fail(Cause::Unread)),
        }
    }

    fn faults(&self) -> u64 {
        self.faults
    }

    fn cause(&self) -> Option<Cause> {
        self.cause
    }

    ghost settled = { λ keeper kept sound keeps. leaves_kept (S.Store.recovers keeper.conn.store)
        (S.Store.view keeper.conn.store).committed (owner_in keeper.heading) kept kept
        (λ db may. S.Store.settled keeper.conn.store db keeps.tables.is_open may)
        keeps.tables.tables };

    ghost weaker = { λ keeper kept other left. leaves_either (S.Store.recovers keeper.conn.store)
        (owner_in keeper.heading) kept other left };
}
