//! The rows of `acted`, which a store of version 2 has.
ghost use Rattle.std.specs.Prelude.{◌≡◌, IsTrue, OnOk};
ghost use Rattle.sqlite.specs.Held.{state};
ghost use Rattle.sqlite.specs.State.{Survives};
ghost use Rattle.lynx_sql.specs.declared.version.StoreVersion.{StoreVersion};
ghost use Rattle.lynx_sql.specs.Tables.{store_schema};
ghost use Rattle.lynx_sql.specs.Steps.{AddsAct, AddsActs, NotesActed};
ghost use Rattle.lynx_sql.specs.Steps.{InTransaction};

use crate::version::StoreVersion;
use sqlite::{Alter, Error, Transaction, params};

/// A hop that ran, hop 0 where its chain began: a row of `acted`.
#[derive(Clone, Copy, Debug, PartialEq, Eq)]
pub struct Acted {
    /// The server where the chain began.
    pub origin: u32,
    /// Which of its origin's chains it is, counted from 0.
    pub index: u64,
    /// The number of the hop.
    pub hop: u32,
    /// The place of the entry.
    pub place: u32,
}

/// Writes a row of those numbers.
fn insert_row<S: Alter>(
    tx: &mut Transaction<'_, S>,
    origin: u32,
    index: u64,
    hop: u32,
    place: u32,
) -> Result<usize, Error>
    ensures same_reference { tx.new.conn.ghost_name ≡ tx.old.conn.ghost_name }
    ensures ok { InTransaction (state S.Store tx.old.conn.now) (state S.Store tx.new.conn.now)
        ((state S.Store tx.old.conn.now).now.schema ≡ store_schema StoreVersion.Two
        → OnOk result (AddsAct (state S.Store tx.old.conn.now) (state S.Store tx.new.conn.now)
        (record { origin = origin; index = index; hop = hop; place = place }))) }
    ensures survives { Survives (state S.Store tx.old.conn.now) (state S.Store tx.new.conn.now)
        (λ _. ⊥) }
{
    let index = index.to_be_bytes();
    tx.execute(
        "INSERT INTO acted VALUES(?1, ?2, ?3, ?4)",
        params![origin, index.as_slice(), hop, place],
    )
}

/// Writes the row of a hop.
pub fn insert_act<S: Alter>(tx: &mut Transaction<'_, S>, act: &Acted) -> Result<usize, Error>
    ensures same_reference { tx.new.conn.ghost_name ≡ tx.old.conn.ghost_name }
    ensures ok { InTransaction (state S.Store tx.old.conn.now) (state S.Store tx.new.conn.now)
        ((state S.Store tx.old.conn.now).now.schema ≡ store_schema StoreVersion.Two
        → OnOk result
        (AddsAct (state S.Store tx.old.conn.now) (state S.Store tx.new.conn.now) act.now)) }
    ensures survives { Survives (state S.Store tx.old.conn.now) (state S.Store tx.new.conn.now)
        (λ _. ⊥) }
{
    insert_row(tx, act.origin, act.index, act.hop, act.place)
}

/// Writes the rows of hops, one after another.
pub fn insert_acts<S: Alter>(tx: &mut Transaction<'_, S>, acts: &[Acted]) -> Result<(), Error>
    ensures same_reference { tx.new.conn.ghost_name ≡ tx.old.conn.ghost_name }
    ensures ok { InTransaction (state S.Store tx.old.conn.now) (state S.Store tx.new.conn.now)
        (IsTrue (state S.Store tx.old.conn.now).is_open
        → (state S.Store tx.old.conn.now).now.schema ≡ store_schema StoreVersion.Two
        → OnOk result
        (AddsActs (state S.Store tx.old.conn.now) (state S.Store tx.new.conn.now) acts.now)) }
    ensures survives { Survives (state S.Store tx.old.conn.now) (state S.Store tx.new.conn.now)
        (λ _. ⊥) }
{
    for act in acts {
        insert_act(tx, act)?;
    }
    Ok(())
}

/// Writes the row of the hop of an entry, if there is one, into a store of version 2. One of
/// version 1 has no such row.
pub fn note_acted<S: Alter>(
    tx: &mut Transaction<'_, S>,
    version: StoreVersion,
    acted: Option<Acted>,
) -> Result<(), Error>
    ensures same_reference { tx.new.conn.ghost_name ≡ tx.old.conn.ghost_name }
    ensures ok { InTransaction (state S.Store tx.old.conn.now) (state S.Store tx.new.conn.now)
        (IsTrue (state S.Store tx.old.conn.now).is_open
        → (state S.Store tx.old.conn.now).now.schema ≡ store_schema version
        → OnOk result
        (NotesActed (state S.Store tx.old.conn.now) (state S.Store tx.new.conn.now) version
        acted)) }
    ensures survives { Survives (state S.Store tx.old.conn.now) (state S.Store tx.new.conn.now)
        (λ _. ⊥) }
{
    let Some(act) = acted else {
        return Ok(());
    };
    if version == StoreVersion::One {
        return Ok(());
    }
    insert_row(tx, act.origin, act.index, act.hop, act.place)?;
    Ok(())
}
