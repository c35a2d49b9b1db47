//! The rows of entries.
ghost use Rattle.std.specs.Prelude.{◌≡◌, IsTrue, OnOk};
ghost use Rattle.sqlite.specs.Held.{state};
ghost use Rattle.sqlite.specs.State.{Survives};
ghost use Rattle.lynx_sql.specs.declared.version.StoreVersion.{StoreVersion};
ghost use Rattle.lynx_sql.specs.Tables.{store_schema};
ghost use Rattle.lynx_sql.specs.Steps.{AddsEntry};
ghost use Rattle.lynx_sql.specs.Steps.{InTransaction};

use sqlite::{Alter, Error, Transaction, params};

/// Writes the body of an entry at its place.
pub fn insert_entry<S: Alter>(
    tx: &mut Transaction<'_, S>,
    place: u32,
    body: &[u8],
) -> Result<usize, Error>
    ensures same_reference { tx.new.conn.ghost_name ≡ tx.old.conn.ghost_name }
    ensures ok { InTransaction (state S.Store tx.old.conn.now) (state S.Store tx.new.conn.now)
        ((version : StoreVersion)
        → (state S.Store tx.old.conn.now).now.schema ≡ store_schema version
        → OnOk result
        (AddsEntry (state S.Store tx.old.conn.now) (state S.Store tx.new.conn.now) place
        body.now)) }
    ensures survives { Survives (state S.Store tx.old.conn.now) (state S.Store tx.new.conn.now)
        (λ _. ⊥) }
{
    tx.execute("INSERT INTO entry VALUES(?1, ?2)", params![place, body])
}
