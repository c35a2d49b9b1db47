//! A new store, made in one transaction.
ghost use Rattle.std.specs.Prelude.{◌≡◌, ◌⊎◌, ◌≤◌, IsTrue, OnOk};
ghost use Rattle.sqlite_trees.specs.View.{doubt};
ghost use Rattle.sqlite.specs.Tree.{Trees};
ghost use Rattle.sqlite.specs.Held.{state};
ghost use Rattle.sqlite.specs.State.{HasCleanDisk, Survives};
ghost use Rattle.lynx_sql.specs.declared.version.StoreVersion.{StoreVersion};
ghost use Rattle.lynx_sql.specs.Contents.{title_of, titled};
ghost use Rattle.lynx_sql.specs.Tables.{no_schema, meta_schema, entry_schema, store_schema, acted_tree, cell_tree, entry_tree, meta_tree};
ghost use Rattle.lynx_sql.specs.Steps.{Keeps, Holds, Makes, MakesTables};
ghost use Rattle.lynx_sql.specs.Steps.{InTransaction};

use crate::meta::write_title;
use crate::version::StoreVersion;
use sqlite::{Alter, Connection, Error, ErrorCode, Transaction};

fn make_meta<S: Alter>(tx: &mut Transaction<'_, S>) -> Result<usize, Error>
    ensures same_reference { tx.new.conn.ghost_name ≡ tx.old.conn.ghost_name }
    ensures ok { InTransaction (state S.Store tx.old.conn.now) (state S.Store tx.new.conn.now)
        ((state S.Store tx.old.conn.now).now.schema ≡ no_schema
        → OnOk result (Makes (state S.Store tx.old.conn.now) (state S.Store tx.new.conn.now)
        no_schema meta_schema meta_tree)) }
    ensures survives { Survives (state S.Store tx.old.conn.now) (state S.Store tx.new.conn.now)
        (λ _. ⊥) }
{
    tx.execute(
        "CREATE TABLE meta(id INTEGER PRIMARY KEY, txt TEXT NOT NULL) STRICT",
        &[],
    )
}

fn make_entry<S: Alter>(tx: &mut Transaction<'_, S>) -> Result<usize, Error>
    ensures same_reference { tx.new.conn.ghost_name ≡ tx.old.conn.ghost_name }
    ensures ok { InTransaction (state S.Store tx.old.conn.now) (state S.Store tx.new.conn.now)
        ((state S.Store tx.old.conn.now).now.schema ≡ meta_schema
        → OnOk result (Makes (state S.Store tx.old.conn.now) (state S.Store tx.new.conn.now)
        meta_schema entry_schema entry_tree)) }
    ensures survives { Survives (state S.Store tx.old.conn.now) (state S.Store tx.new.conn.now)
        (λ _. ⊥) }
{
    tx.execute(
        "CREATE TABLE entry(place INTEGER PRIMARY KEY, body BLOB NOT NULL) STRICT",
        &[],
    )
}

fn make_cell<S: Alter>(tx: &mut Transaction<'_, S>) -> Result<usize, Error>
    ensures same_reference { tx.new.conn.ghost_name ≡ tx.old.conn.ghost_name }
    ensures ok { InTransaction (state S.Store tx.old.conn.now) (state S.Store tx.new.conn.now)
        ((state S.Store tx.old.conn.now).now.schema ≡ entry_schema
        → OnOk result (Makes (state S.Store tx.old.conn.now) (state S.Store tx.new.conn.now)
        entry_schema (store_schema StoreVersion.One) cell_tree)) }
    ensures survives { Survives (state S.Store tx.old.conn.now) (state S.Store tx.new.conn.now)
        (λ _. ⊥) }
{
    tx.execute(
        "CREATE TABLE cell(tab INTEGER NOT NULL, k BLOB NOT NULL, v BLOB NOT NULL, PRIMARY KEY(tab, k)) STRICT",
        &[],
    )
}

pub(crate) fn make_acted<S: Alter>(tx: &mut Transaction<'_, S>) -> Result<usize, Error>
    ensures same_reference { tx.new.conn.ghost_name ≡ tx.old.conn.ghost_name }
    ensures ok { InTransaction (state S.Store tx.old.conn.now) (state S.Store tx.new.conn.now)
        ((state S.Store tx.old.conn.now).now.schema ≡ store_schema StoreVersion.One
        → OnOk result (Makes (state S.Store tx.old.conn.now) (state S.Store tx.new.conn.now)
        (store_schema StoreVersion.One) (store_schema StoreVersion.Two) acted_tree)) }
    ensures survives { Survives (state S.Store tx.old.conn.now) (state S.Store tx.new.conn.now)
        (λ _. ⊥) }
{
    tx.execute(
        "CREATE TABLE acted(origin INTEGER NOT NULL, idx BLOB NOT NULL, hop INTEGER NOT NULL, place INTEGER NOT NULL UNIQUE, PRIMARY KEY(origin, idx, hop)) STRICT",
        &[],
    )
}

/// Makes the three tables of version 1, which have no row yet.
fn make_three<S: Alter>(tx: &mut Transaction<'_, S>) -> Result<(), Error>
    ensures same_reference { tx.new.conn.ghost_name ≡ tx.old.conn.ghost_name }
    ensures ok { InTransaction (state S.Store tx.old.conn.now) (state S.Store tx.new.conn.now)
        ((state S.Store tx.old.conn.now).now.schema ≡ no_schema
        → OnOk result
        (MakesTables (state S.Store tx.old.conn.now) (state S.Store tx.new.conn.now)
        StoreVersion.One)) }
    ensures survives { Survives (state S.Store tx.old.conn.now) (state S.Store tx.new.conn.now)
        (λ _. ⊥) }
{
    make_meta(tx)?;
    make_entry(tx)?;
    make_cell(tx)?;
    Ok(())
}

/// Makes the tables of a version, which have no row yet.
fn make_tables<S: Alter>(tx: &mut Transaction<'_, S>, tables: StoreVersion) -> Result<(), Error>
    ensures same_reference { tx.new.conn.ghost_name ≡ tx.old.conn.ghost_name }
    ensures ok { InTransaction (state S.Store tx.old.conn.now) (state S.Store tx.new.conn.now)
        ((state S.Store tx.old.conn.now).now.schema ≡ no_schema
        → OnOk result
        (MakesTables (state S.Store tx.old.conn.now) (state S.Store tx.new.conn.now) tables)) }
    ensures survives { Survives (state S.Store tx.old.conn.now) (state S.Store tx.new.conn.now)
        (λ _. ⊥) }
{
    make_three(tx)?;
    match tables {
        StoreVersion::One => Ok(()),
        StoreVersion::Two => {
            make_acted(tx)?;
            Ok(())
        }
    }
}

/// Makes a new store of a version in an empty database, whole or not at all.
pub fn make_store<S: Alter>(
    conn: &mut Connection<S>,
    tables: StoreVersion,
    version: &[u8],
    server: &[u8],
    set: &[u8],
) -> Result<(), Error>
    ensures clean { doubt (state S.Store conn.old).is_clean
        ≤ doubt (state S.Store conn.new).is_clean }
    ensures ok { HasCleanDisk (state S.Store conn.new)
        → (state S.Store conn.old).now.schema ≡ no_schema
        → OnOk result (Keeps (state S.Store conn.new)
        (titled tables (title_of version.now server.now set.now))) }
    // A stop leaves what it could leave before the call, or the whole new store.
    ensures stop { HasCleanDisk (state S.Store conn.new)
        → (state S.Store conn.old).now.schema ≡ no_schema
        → (db : Trees) → (state S.Store conn.new).may_leave db
        → (state S.Store conn.old).may_leave db
        ⊎ Holds db (titled tables (title_of version.now server.now set.now)) }
{
    if !conn.is_autocommit() {
        return Err(Error::SqliteFailure(ErrorCode::TransactionState));
    }
    let mut tx = conn.transaction();
    make_tables(&mut tx, tables)?;
    write_title(&mut tx, version, server, set)?;
    tx.commit()
}
