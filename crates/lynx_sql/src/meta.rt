//! The rows of `meta`.
ghost use Rattle.std.specs.Prelude.{◌≡◌, [], IsTrue, OnOk};
ghost use Rattle.sqlite.specs.Held.{state};
ghost use Rattle.sqlite.specs.State.{Survives};
ghost use Rattle.lynx_sql.specs.Contents.{title_of};
ghost use Rattle.lynx_sql.specs.declared.version.StoreVersion.{StoreVersion};
ghost use Rattle.lynx_sql.specs.Tables.{store_schema, meta_tree};
ghost use Rattle.lynx_sql.specs.Steps.{AddsText, WritesTitle, SetsText};
ghost use Rattle.lynx_sql.specs.Steps.{InTransaction};

use sqlite::types::{ToSql, ValueRef};
use sqlite::{Alter, Error, Transaction};

/// Writes one text of `meta` under its number.
pub fn insert_text<S: Alter>(
    tx: &mut Transaction<'_, S>,
    id: u32,
    text: &[u8],
) -> Result<usize, Error>
    ensures same_reference { tx.new.conn.ghost_name ≡ tx.old.conn.ghost_name }
    ensures ok { InTransaction (state S.Store tx.old.conn.now) (state S.Store tx.new.conn.now)
        ((tables : StoreVersion) → (state S.Store tx.old.conn.now).now.schema ≡ store_schema tables
        → OnOk result
        (AddsText (state S.Store tx.old.conn.now) (state S.Store tx.new.conn.now) id text.now)) }
    ensures survives { Survives (state S.Store tx.old.conn.now) (state S.Store tx.new.conn.now)
        (λ _. ⊥) }
{
    tx.execute(
        "INSERT INTO meta VALUES(?1, ?2)",
        &[id.to_sql(), ValueRef::Text(text)],
    )
}

/// Writes the three texts of `meta`, which has none yet.
pub fn write_title<S: Alter>(
    tx: &mut Transaction<'_, S>,
    version: &[u8],
    server: &[u8],
    set: &[u8],
) -> Result<(), Error>
    ensures same_reference { tx.new.conn.ghost_name ≡ tx.old.conn.ghost_name }
    ensures ok { InTransaction (state S.Store tx.old.conn.now) (state S.Store tx.new.conn.now)
        ((tables : StoreVersion) → (state S.Store tx.old.conn.now).now.schema ≡ store_schema tables
        → (state S.Store tx.old.conn.now).now.trees meta_tree ≡ []
        → OnOk result (WritesTitle (state S.Store tx.old.conn.now) (state S.Store tx.new.conn.now)
        (title_of version.now server.now set.now))) }
    ensures survives { Survives (state S.Store tx.old.conn.now) (state S.Store tx.new.conn.now)
        (λ _. ⊥) }
{
    insert_text(tx, 1, version)?;
    insert_text(tx, 2, server)?;
    insert_text(tx, 3, set)?;
    Ok(())
}

/// Changes the text under a number.
pub fn set_text<S: Alter>(tx: &mut Transaction<'_, S>, id: u32, text: &[u8]) -> Result<usize, Error>
    ensures same_reference { tx.new.conn.ghost_name ≡ tx.old.conn.ghost_name }
    ensures ok { InTransaction (state S.Store tx.old.conn.now) (state S.Store tx.new.conn.now)
        ((tables : StoreVersion) → (state S.Store tx.old.conn.now).now.schema ≡ store_schema tables
        → OnOk result
        (SetsText (state S.Store tx.old.conn.now) (state S.Store tx.new.conn.now) id text.now)) }
    ensures survives { Survives (state S.Store tx.old.conn.now) (state S.Store tx.new.conn.now)
        (λ _. ⊥) }
{
    tx.execute(
        "UPDATE meta SET txt = ?2 WHERE id = ?1",
        &[id.to_sql(), ValueRef::Text(text)],
    )
}
