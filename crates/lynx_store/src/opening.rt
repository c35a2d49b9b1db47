//! Opens a store, or makes a new one.
ghost use Rattle.std.specs.Prelude.{◌≡◌, ◌⊎◌, ◌<◌, ◌≤◌, ◌^◌, ℕ, length, IfOk, IfErr, IfNone, IfSome, Some};
ghost use Rattle.sqlite_trees.specs.View.{doubt};
ghost use Rattle.sqlite.specs.Tree.{Trees};
ghost use Rattle.sqlite.specs.Held.{state};
ghost use Rattle.lynx_keep.specs.Kept.{KeptState, nothing_kept};
ghost use Rattle.lynx_sql.specs.Contents.{Title};
ghost use Rattle.lynx_sql.specs.Tables.{IsStoreSchema, no_schema};
ghost use Rattle.lynx_store.specs.Crashes.{FindsEither, KeepsEither};
ghost use Rattle.lynx_store.specs.Heading.{owner_in};
ghost use Rattle.lynx_store.specs.Premise.{IsUndisturbed};
ghost use Rattle.lynx_store.specs.Stored.{HasTitle, IsKept, IsOfOtherSet, IsOfOtherVersion, IsOther, KeepsNothing, LeavesOpened, ShowsTitle, owner_for, title_for};

use crate::fault::StoreFault;
use crate::heading::{Heading, texts_of, version_text};
use crate::keeper::{SqlKeeper, loaded_of};
use lynx_keep::KeepFault;
use lynx_names::ServerId;
use lynx_set::ChainSet;
use lynx_sql::making::make_store;
use lynx_sql::schema::{is_empty, is_store};
use lynx_sql::{Rising, read_rows};
use sqlite::{Connection, Row};
use std::alloc::Global;

/// What is wrong with the rows of `meta`, if they are not those of the heading: Damaged where they
/// are no three texts, else OtherVersion where the version differs, else OtherSet.
fn heading_fault(heading: &Heading, rows: &[Row]) -> Option<StoreFault>
    ensures none { IfNone result (ShowsTitle rows.now (title_for (owner_in heading.now))) }
    ensures damaged { result ≡ Some StoreFault.Damaged → (title : Title)
        → ShowsTitle rows.now title → ⊥ }
    ensures other_version { result ≡ Some StoreFault.OtherVersion
        → IsOfOtherVersion (ShowsTitle rows.now) (owner_in heading.now) }
    ensures other_set { result ≡ Some StoreFault.OtherSet
        → IsOfOtherSet (ShowsTitle rows.now) (owner_in heading.now) }
    ensures told { IfSome result (λ fault. (fault ≡ StoreFault.Damaged) ⊎ IsOther fault) }
{
    let Some((version, server, set)) = texts_of(rows) else {
        return Some(StoreFault::Damaged);
    };
    if version != version_text(heading.version) {
        return Some(StoreFault::OtherVersion);
    }
    if server != heading.server.as_slice() {
        return Some(StoreFault::OtherSet);
    }
    if set != heading.set.as_slice() {
        return Some(StoreFault::OtherSet);
    }
    None
}

/// How many entries a store holds whose rows all have their forms.
fn count_kept<S: Rising>(
    alloc: Global,
    conn: &mut Connection<S>,
    heading: &Heading,
) -> Result<u32, StoreFault>
    ensures clean { doubt (state S.Store conn.old).is_clean
        ≤ doubt (state S.Store conn.new).is_clean }
    ensures kept { IsUndisturbed (state S.Store conn.new) → IfOk result (λ count. (kept : KeptState)
        × IsKept (state S.Store conn.new) (owner_in heading.now) count kept) }
    ensures same { IsUndisturbed (state S.Store conn.new)
        → IfOk result (λ count. (before : ℕ) (kept : KeptState)
        → IsKept (state S.Store conn.old) (owner_in heading.now) before kept
        → IsKept (state S.Store conn.new) (owner_in heading.now) count kept) }
    ensures other { IsUndisturbed (state S.Store conn.new)
        → IfErr result (λ fault. IsOther fault → (before : ℕ) (kept : KeptState)
        → IsKept (state S.Store conn.old) (owner_in heading.now) before kept → ⊥) }
    ensures damaged { IsUndisturbed (state S.Store conn.new)
        → IfErr result (λ fault. fault ≡ StoreFault.Damaged
        → KeepsNothing (state S.Store conn.old) (owner_in heading.now)) }
    ensures ordered { IsUndisturbed (state S.Store conn.new)
        → IfErr result (λ fault. fault ≡ StoreFault.Damaged
        → IsStoreSchema (state S.Store conn.old).now.schema
        → (title : Title) → HasTitle (state S.Store conn.old) title
        → title ≡ title_for (owner_in heading.now)) }
    ensures other_version { IsUndisturbed (state S.Store conn.new)
        → IfErr result (λ fault. fault ≡ StoreFault.OtherVersion
        → IsOfOtherVersion (HasTitle (state S.Store conn.old)) (owner_in heading.now)) }
    ensures other_set { IsUndisturbed (state S.Store conn.new)
        → IfErr result (λ fault. fault ≡ StoreFault.OtherSet
        → IsOfOtherSet (HasTitle (state S.Store conn.old)) (owner_in heading.now)) }
    ensures stop { IsUndisturbed (state S.Store conn.new) → (db : Trees)
        → (state S.Store conn.new).may_leave db → (state S.Store conn.old).may_leave db }
{
    if !is_store(conn.schema()) {
        return Err(StoreFault::Damaged);
    }
    let Ok(rows) = read_rows(conn) else {
        return Err(StoreFault::Store);
    };
    if let Some(fault) = heading_fault(heading, rows.title.as_slice()) {
        return Err(fault);
    }
    match loaded_of(alloc, heading, &rows) {
        Ok(loaded) => {
            let Ok(count) = u32::try_from(loaded.entries.len()) else {
                return Err(StoreFault::Damaged);
            };
            Ok(count)
        }
        Err(KeepFault::Memory) => Err(StoreFault::Memory),
        Err(KeepFault::Failed) => Err(StoreFault::Damaged),
    }
}

impl<S: Rising> SqlKeeper<S> {
    /// A keeper over the store of a server of a set; an empty database is made a new store, whole
    /// or not at all. A store of the other version is answered OtherVersion.
    pub fn open(
        alloc: Global,
        mut conn: Connection<S>,
        set: &ChainSet,
        server: ServerId,
    ) -> Result<SqlKeeper<S>, (StoreFault, Connection<S>)>
        ensures clean { IfOk result (λ keeper. doubt (state S.Store conn).is_clean
            ≤ doubt (state S.Store keeper.conn).is_clean) }
        ensures owner { IfOk result (λ keeper. owner_in keeper.heading ≡ owner_for server set.now) }
        // The tables stand for something, whatever the database held.
        ensures kept { IfOk result
            (λ keeper. IsUndisturbed (state S.Store keeper.conn) → (kept : KeptState)
            × IsKept (state S.Store keeper.conn) (owner_in keeper.heading) keeper.count kept) }
        // A new store keeps nothing.
        ensures new { IfOk result (λ keeper. IsUndisturbed (state S.Store keeper.conn)
            → (state S.Store conn).now.schema ≡ no_schema
            → IsKept (state S.Store keeper.conn) (owner_in keeper.heading) keeper.count
            nothing_kept) }
        // Another keeps what its tables hold.
        ensures same { IfOk result
            (λ keeper. IsUndisturbed (state S.Store keeper.conn) → (count : ℕ) (kept : KeptState)
            → IsKept (state S.Store conn) (owner_in keeper.heading) count kept
            → IsKept (state S.Store keeper.conn) (owner_in keeper.heading) keeper.count kept) }
        // Of what a stop left, one of two states, the keeper keeps one.
        ensures either { IfOk result (λ keeper. IsUndisturbed (state S.Store keeper.conn)
            → (one other : KeptState)
            → FindsEither (state S.Store conn) (owner_in keeper.heading) one other
            → KeepsEither (state S.Store keeper.conn) (owner_in keeper.heading) keeper.count one
            other) }
        // A store of this set, server and version is called no other.
        ensures other { IfErr result
            (λ failed. IsUndisturbed (state S.Store failed.1) → IsOther failed.0
            → (count : ℕ) (kept : KeptState)
            → IsKept (state S.Store conn) (owner_for server set.now) count kept → ⊥) }
        // What a stop left of less than 2^32 entries is refused for want of memory, or where the
        // database fails, alone.
        ensures left { IfErr result (λ failed. IsUndisturbed (state S.Store failed.1)
            → (one other : KeptState) → length one.entries < 2 ^ 32 → length other.entries < 2 ^ 32
            → FindsEither (state S.Store conn) (owner_for server set.now) one other
            → (failed.0 ≡ StoreFault.Store) ⊎ (failed.0 ≡ StoreFault.Memory)) }
        // A store is called damaged only where nothing is kept for just this set and server.
        ensures damaged { IfErr result
            (λ failed. IsUndisturbed (state S.Store failed.1) → failed.0 ≡ StoreFault.Damaged
            → KeepsNothing (state S.Store conn) (owner_for server set.now)) }
        // One of another version, server or set, by its tables and its `meta`, is not called so.
        ensures ordered { IfErr result
            (λ failed. IsUndisturbed (state S.Store failed.1) → failed.0 ≡ StoreFault.Damaged
            → IsStoreSchema (state S.Store conn).now.schema
            → (title : Title) → HasTitle (state S.Store conn) title
            → title ≡ title_for (owner_for server set.now)) }
        // It is called of another version, or of another set, only where its `meta` says so.
        ensures other_version { IfErr result
            (λ failed. IsUndisturbed (state S.Store failed.1) → failed.0 ≡ StoreFault.OtherVersion
            → IsOfOtherVersion (HasTitle (state S.Store conn)) (owner_for server set.now)) }
        ensures other_set { IfErr result
            (λ failed. IsUndisturbed (state S.Store failed.1) → failed.0 ≡ StoreFault.OtherSet
            → IsOfOtherSet (HasTitle (state S.Store conn)) (owner_for server set.now)) }
        // A stop leaves what was there, or of an empty database the whole new store.
        ensures stop { IfOk result (λ keeper. IsUndisturbed (state S.Store keeper.conn)
            → LeavesOpened (state S.Store conn) (state S.Store keeper.conn)
            (owner_for server set.now)) }
        ensures stop_err { IfErr result (λ failed. IsUndisturbed (state S.Store failed.1)
            → LeavesOpened (state S.Store conn) (state S.Store failed.1)
            (owner_for server set.now)) }
    {
        let Ok(heading) = Heading::new(alloc, set, server) else {
            return Err((StoreFault::Memory, conn));
        };
        if is_empty(conn.schema()) {
            let made = make_store(
                &mut conn,
                heading.version,
                version_text(heading.version),
                heading.server.as_slice(),
                heading.set.as_slice(),
            );
            return match made {
                Ok(()) => Ok(SqlKeeper::over(conn, heading, 0)),
                Err(_) => Err((StoreFault::Store, conn)),
            };
        }
        match count_kept(alloc, &mut conn, &heading) {
            Ok(count) => Ok(SqlKeeper::over(conn, heading, count)),
            Err(fault) => Err((fault, conn)),
        }
    }
}
