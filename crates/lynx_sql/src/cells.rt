//! The rows of cells.
ghost use Rattle.std.specs.Prelude.{◌≡◌, ◌≢◌, IsTrue, OnOk, ◌^◌, ◌<◌};
ghost use Rattle.sqlite.specs.Held.{state};
ghost use Rattle.sqlite.specs.State.{Survives};
ghost use Rattle.lynx_names.specs.declared.limits.TheConstants.{MAX_TABLES};
ghost use Rattle.lynx_cells.specs.Database.{Database, with_value, written};
ghost use Rattle.lynx_cells.specs.Triples.{entries_of};
ghost use Rattle.lynx_sql.specs.declared.version.StoreVersion.{StoreVersion};
ghost use Rattle.lynx_sql.specs.Tables.{store_schema};
ghost use Rattle.lynx_sql.specs.Steps.{WritesCells};
ghost use Rattle.lynx_sql.specs.Steps.{InTransaction};

use lynx_names::TableId;
use sqlite::{Alter, Error, Transaction, params};

/// Writes a cell that isn't 0.
pub fn put_cell<S: Alter>(
    tx: &mut Transaction<'_, S>,
    table: u32,
    key: u64,
    value: u64,
) -> Result<usize, Error>
    requires table { table < MAX_TABLES }
    requires nonzero { value ≢ 0 }
    ensures same_reference { tx.new.conn.ghost_name ≡ tx.old.conn.ghost_name }
    ensures ok { InTransaction (state S.Store tx.old.conn.now) (state S.Store tx.new.conn.now)
        ((version : StoreVersion)
        → (state S.Store tx.old.conn.now).now.schema ≡ store_schema version
        → OnOk result
        (WritesCells (state S.Store tx.old.conn.now) (state S.Store tx.new.conn.now)
        (λ db. with_value db table key value))) }
    ensures survives { Survives (state S.Store tx.old.conn.now) (state S.Store tx.new.conn.now)
        (λ _. ⊥) }
{
    let key = key.to_be_bytes();
    let value = value.to_be_bytes();
    tx.execute(
        "INSERT INTO cell VALUES(?1, ?2, ?3) ON CONFLICT(tab, k) DO UPDATE SET v = excluded.v",
        params![table, key.as_slice(), value.as_slice()],
    )
}

/// Takes out a cell, which is 0 from then on.
pub fn delete_cell<S: Alter>(
    tx: &mut Transaction<'_, S>,
    table: u32,
    key: u64,
) -> Result<usize, Error>
    ensures same_reference { tx.new.conn.ghost_name ≡ tx.old.conn.ghost_name }
    ensures ok { InTransaction (state S.Store tx.old.conn.now) (state S.Store tx.new.conn.now)
        ((version : StoreVersion)
        → (state S.Store tx.old.conn.now).now.schema ≡ store_schema version
        → OnOk result
        (WritesCells (state S.Store tx.old.conn.now) (state S.Store tx.new.conn.now)
        (λ db. with_value db table key 0))) }
    ensures survives { Survives (state S.Store tx.old.conn.now) (state S.Store tx.new.conn.now)
        (λ _. ⊥) }
{
    let key = key.to_be_bytes();
    tx.execute(
        "DELETE FROM cell WHERE tab = ?1 AND k = ?2",
        params![table, key.as_slice()],
    )
}

/// Writes a cell, or takes it out where it becomes 0.
pub fn write_cell<S: Alter>(
    tx: &mut Transaction<'_, S>,
    table: u32,
    key: u64,
    value: u64,
) -> Result<usize, Error>
    requires { table < MAX_TABLES }
    ensures same_reference { tx.new.conn.ghost_name ≡ tx.old.conn.ghost_name }
    ensures ok { InTransaction (state S.Store tx.old.conn.now) (state S.Store tx.new.conn.now)
        ((version : StoreVersion)
        → (state S.Store tx.old.conn.now).now.schema ≡ store_schema version
        → OnOk result
        (WritesCells (state S.Store tx.old.conn.now) (state S.Store tx.new.conn.now)
        (λ db. with_value db table key value))) }
    ensures survives { Survives (state S.Store tx.old.conn.now) (state S.Store tx.new.conn.now)
        (λ _. ⊥) }
{
    if value == 0 {
        delete_cell(tx, table, key)
    } else {
        put_cell(tx, table, key, value)
    }
}

/// Writes cells, one after another.
pub fn write_cells<S: Alter>(
    tx: &mut Transaction<'_, S>,
    changes: &[(TableId, u64, u64)],
) -> Result<(), Error>
    ensures same_reference { tx.new.conn.ghost_name ≡ tx.old.conn.ghost_name }
    ensures ok { InTransaction (state S.Store tx.old.conn.now) (state S.Store tx.new.conn.now)
        (IsTrue (state S.Store tx.old.conn.now).is_open
        → (version : StoreVersion)
        → (state S.Store tx.old.conn.now).now.schema ≡ store_schema version
        → OnOk result
        (WritesCells (state S.Store tx.old.conn.now) (state S.Store tx.new.conn.now)
        (written (entries_of changes.now)))) }
    ensures survives { Survives (state S.Store tx.old.conn.now) (state S.Store tx.new.conn.now)
        (λ _. ⊥) }
{
    for &(table, key, value) in changes {
        write_cell(tx, u32::from(table.number()), key, value)?;
    }
    Ok(())
}
