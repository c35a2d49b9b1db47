//! One transaction for many entries, their cells and their hops.
ghost use Rattle.std.specs.Prelude.{◌≡◌, ◌⊎◌, ◌+◌, ◌<◌, ◌≤◌, ◌^◌, length, IsTrue, OnOk};
ghost use Rattle.sqlite_trees.specs.View.{doubt};
ghost use Rattle.sqlite.specs.Tree.{Trees};
ghost use Rattle.sqlite.specs.Held.{state};
ghost use Rattle.sqlite.specs.State.{HasCleanDisk, Survives};
ghost use Rattle.lynx_sql.specs.declared.version.StoreVersion.{StoreVersion};
ghost use Rattle.lynx_sql.specs.Acts.{AreNext, version_of};
ghost use Rattle.lynx_sql.specs.Contents.{Contents, bodies_in, with_bodies};
ghost use Rattle.lynx_sql.specs.Tables.{store_schema};
ghost use Rattle.lynx_sql.specs.Steps.{AddsEntries, NotesActs, Keeps, Holds};
ghost use Rattle.lynx_sql.specs.Steps.{InTransaction};

use crate::acts::{Acted, insert_acts};
use crate::cells::write_cells;
use crate::entries::insert_entry;
use crate::version::StoreVersion;
use lynx_cells::Changes;
use sqlite::{Alter, Connection, Error, ErrorCode, Transaction};

/// Writes the bodies of entries, one after another, at the places from this one on.
fn insert_entries<S: Alter>(
    tx: &mut Transaction<'_, S>,
    place: u32,
    bodies: &[Vec<u8>],
) -> Result<(), Error>
    requires { place + length bodies.now < 2 ^ 32 }
    ensures same_reference { tx.new.conn.ghost_name ≡ tx.old.conn.ghost_name }
    ensures ok { InTransaction (state S.Store tx.old.conn.now) (state S.Store tx.new.conn.now)
        (IsTrue (state S.Store tx.old.conn.now).is_open
        → (version : StoreVersion)
        → (state S.Store tx.old.conn.now).now.schema ≡ store_schema version
        → OnOk result
        (AddsEntries (state S.Store tx.old.conn.now) (state S.Store tx.new.conn.now) place
        (bodies_in bodies.now))) }
    ensures survives { Survives (state S.Store tx.old.conn.now) (state S.Store tx.new.conn.now)
        (λ _. ⊥) }
{
    let mut next = place;
    for body in bodies {
        insert_entry(tx, next, body.as_slice())?;
        next += 1;
    }
    Ok(())
}

/// Writes the rows of the hops of entries into a store of version 2. One of version 1 has no such
/// rows.
fn note_acts<S: Alter>(
    tx: &mut Transaction<'_, S>,
    version: StoreVersion,
    acts: &[Acted],
) -> Result<(), Error>
    ensures same_reference { tx.new.conn.ghost_name ≡ tx.old.conn.ghost_name }
    ensures ok { InTransaction (state S.Store tx.old.conn.now) (state S.Store tx.new.conn.now)
        (IsTrue (state S.Store tx.old.conn.now).is_open
        → (state S.Store tx.old.conn.now).now.schema ≡ store_schema version
        → OnOk result
        (NotesActs (state S.Store tx.old.conn.now) (state S.Store tx.new.conn.now) version
        acts.now)) }
    ensures survives { Survives (state S.Store tx.old.conn.now) (state S.Store tx.new.conn.now)
        (λ _. ⊥) }
{
    if version == StoreVersion::One {
        return Ok(());
    }
    insert_acts(tx, acts)
}

/// Keeps the bodies of the next entries, of which the first has this place, the changes of their
/// cells and the rows of their hops, all or nothing, in one transaction, however many they are. The
/// version is that of the store, which its opening found: a store of version 1 has no rows of hops.
pub fn write_entries<S: Alter>(
    conn: &mut Connection<S>,
    version: StoreVersion,
    place: u32,
    bodies: &[Vec<u8>],
    changes: &Changes,
    acts: &[Acted],
) -> Result<(), Error>
    requires { place + length bodies.now < 2 ^ 32 }
    ensures clean { doubt (state S.Store conn.old).is_clean
        ≤ doubt (state S.Store conn.new).is_clean }
    ensures ok { HasCleanDisk (state S.Store conn.new)
        → AreNext acts.now place (length bodies.now)
        → OnOk result ((before : Contents)
        → Keeps (state S.Store conn.old) before → version_of before.acted ≡ version
        → place ≡ length before.bodies
        → Keeps (state S.Store conn.new)
        (with_bodies before (bodies_in bodies.now) changes.now acts.now)) }
    // A stop leaves what it could leave before the call, or the tables with all of the entries.
    ensures stop { HasCleanDisk (state S.Store conn.new)
        → AreNext acts.now place (length bodies.now)
        → (before : Contents)
        → Keeps (state S.Store conn.old) before → version_of before.acted ≡ version
        → place ≡ length before.bodies
        → (db : Trees) → (state S.Store conn.new).may_leave db
        → (state S.Store conn.old).may_leave db
        ⊎ Holds db (with_bodies before (bodies_in bodies.now) changes.now acts.now) }
{
    if !conn.is_autocommit() {
        return Err(Error::SqliteFailure(ErrorCode::TransactionState));
    }
    let mut tx = conn.transaction();
    insert_entries(&mut tx, place, bodies)?;
    write_cells(&mut tx, changes.list())?;
    note_acts(&mut tx, version, acts)?;
    tx.commit()
}
