//! A store of version 1 made one of version 2, and a store given to another set, each in one
//! transaction.
ghost use Rattle.std.specs.Prelude.{◌≡◌, ◌⊎◌, ◌≤◌, None, length, IsTrue, OnOk};
ghost use Rattle.sqlite_trees.specs.View.{doubt};
ghost use Rattle.sqlite.specs.Tree.{Trees};
ghost use Rattle.sqlite.specs.Held.{state};
ghost use Rattle.sqlite.specs.State.{HasCleanDisk, Survives};
ghost use Rattle.lynx_sql.specs.declared.version.StoreVersion.{StoreVersion};
ghost use Rattle.lynx_sql.specs.Acts.{ArePlaced};
ghost use Rattle.lynx_sql.specs.Contents.{Contents, retitled, upgraded};
ghost use Rattle.lynx_sql.specs.Tables.{store_schema};
ghost use Rattle.lynx_sql.specs.Steps.{Keeps, Holds, Retitles, AddsTable};
ghost use Rattle.lynx_sql.specs.Steps.{InTransaction};

use crate::acts::{Acted, insert_acts};
use crate::making::make_acted;
use crate::meta::set_text;
use sqlite::{Alter, Connection, Error, ErrorCode, Transaction};

/// Makes `acted` in a store of version 1, with the rows of these hops.
fn add_acted<S: Alter>(tx: &mut Transaction<'_, S>, acts: &[Acted]) -> Result<(), Error>
    ensures same_reference { tx.new.conn.ghost_name ≡ tx.old.conn.ghost_name }
    ensures ok { InTransaction (state S.Store tx.old.conn.now) (state S.Store tx.new.conn.now)
        ((state S.Store tx.old.conn.now).now.schema ≡ store_schema StoreVersion.One
        → OnOk result
        (AddsTable (state S.Store tx.old.conn.now) (state S.Store tx.new.conn.now) acts.now)) }
    ensures survives { Survives (state S.Store tx.old.conn.now) (state S.Store tx.new.conn.now)
        (λ _. ⊥) }
{
    make_acted(tx)?;
    insert_acts(tx, acts)
}

/// Changes the texts of the version and of the set.
fn retitle<S: Alter>(tx: &mut Transaction<'_, S>, version: &[u8], set: &[u8]) -> Result<(), Error>
    ensures same_reference { tx.new.conn.ghost_name ≡ tx.old.conn.ghost_name }
    ensures ok { InTransaction (state S.Store tx.old.conn.now) (state S.Store tx.new.conn.now)
        ((tables : StoreVersion) → (state S.Store tx.old.conn.now).now.schema ≡ store_schema tables
        → OnOk result
        (Retitles (state S.Store tx.old.conn.now) (state S.Store tx.new.conn.now) version.now
        set.now)) }
    ensures survives { Survives (state S.Store tx.old.conn.now) (state S.Store tx.new.conn.now)
        (λ _. ⊥) }
{
    set_text(tx, 1, version)?;
    set_text(tx, 3, set)?;
    Ok(())
}

/// Makes a store of version 1 one of version 2, whole or not at all: it has these hops, and the
/// texts of its version and its set are these.
pub fn upgrade_tables<S: Alter>(
    conn: &mut Connection<S>,
    version: &[u8],
    set: &[u8],
    acts: &[Acted],
) -> Result<(), Error>
    ensures clean { doubt (state S.Store conn.old).is_clean
        ≤ doubt (state S.Store conn.new).is_clean }
    ensures ok { HasCleanDisk (state S.Store conn.new) → OnOk result ((before : Contents)
        → Keeps (state S.Store conn.old) before → before.acted ≡ None
        → ArePlaced acts.now (length before.bodies)
        → Keeps (state S.Store conn.new) (upgraded before version.now set.now acts.now)) }
    // A stop leaves what it could leave before the call, or the whole store of version 2.
    ensures stop { HasCleanDisk (state S.Store conn.new) → (before : Contents)
        → Keeps (state S.Store conn.old) before → before.acted ≡ None
        → ArePlaced acts.now (length before.bodies)
        → (db : Trees) → (state S.Store conn.new).may_leave db
        → (state S.Store conn.old).may_leave db
        ⊎ Holds db (upgraded before version.now set.now acts.now) }
{
    if !conn.is_autocommit() {
        return Err(Error::SqliteFailure(ErrorCode::TransactionState));
    }
    let mut tx = conn.transaction();
    add_acted(&mut tx, acts)?;
    retitle(&mut tx, version, set)?;
    tx.commit()
}

/// Changes the text of the set, whole or not at all.
pub fn retitle_tables<S: Alter>(conn: &mut Connection<S>, set: &[u8]) -> Result<(), Error>
    ensures clean { doubt (state S.Store conn.old).is_clean
        ≤ doubt (state S.Store conn.new).is_clean }
    ensures ok { HasCleanDisk (state S.Store conn.new) → OnOk result ((before : Contents)
        → Keeps (state S.Store conn.old) before
        → Keeps (state S.Store conn.new) (retitled before set.now)) }
    // A stop leaves what it could leave before the call, or the store with the other text.
    ensures stop { HasCleanDisk (state S.Store conn.new) → (before : Contents)
        → Keeps (state S.Store conn.old) before
        → (db : Trees) → (state S.Store conn.new).may_leave db
        → (state S.Store conn.old).may_leave db ⊎ Holds db (retitled before set.now) }
{
    if !conn.is_autocommit() {
        return Err(Error::SqliteFailure(ErrorCode::TransactionState));
    }
    let mut tx = conn.transaction();
    set_text(&mut tx, 3, set)?;
    tx.commit()
}
