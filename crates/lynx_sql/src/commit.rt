//! One transaction for an entry, its cells and its hop.
ghost use Rattle.std.specs.Prelude.{◌≡◌, ◌⊎◌, ◌≤◌, length, OnOk, IfSome};
ghost use Rattle.sqlite_trees.specs.View.{doubt};
ghost use Rattle.sqlite.specs.Tree.{Trees};
ghost use Rattle.sqlite.specs.Held.{state};
ghost use Rattle.sqlite.specs.State.{HasCleanDisk};
ghost use Rattle.lynx_sql.specs.Acts.{version_of};
ghost use Rattle.lynx_sql.specs.Contents.{Contents, with_body};
ghost use Rattle.lynx_sql.specs.Steps.{Keeps, Holds};

use crate::acts::{Acted, note_acted};
use crate::cells::write_cells;
use crate::entries::insert_entry;
use crate::version::StoreVersion;
use lynx_cells::Changes;
use sqlite::{Alter, Connection, Error, ErrorCode};

/// Keeps the body of the next entry, the changes of its cells and the row of its hop, if one ran,
/// all or nothing, in one transaction. The version is that of the store, which its opening found: a
/// store of version 1 has no rows of hops.
pub fn write_entry<S: Alter>(
    conn: &mut Connection<S>,
    version: StoreVersion,
    place: u32,
    body: &[u8],
    changes: &Changes,
    acted: Option<Acted>,
) -> Result<(), Error>
    ensures clean { doubt (state S.Store conn.old).is_clean
        ≤ doubt (state S.Store conn.new).is_clean }
    ensures ok { HasCleanDisk (state S.Store conn.new) → IfSome acted (λ act. act.place ≡ place)
        → OnOk result ((before : Contents)
        → Keeps (state S.Store conn.old) before → version_of before.acted ≡ version
        → place ≡ length before.bodies
        → Keeps (state S.Store conn.new) (with_body before body.now changes.now acted)) }
    // A stop leaves what it could leave before the call, or the tables with the whole entry.
    ensures stop { HasCleanDisk (state S.Store conn.new) → IfSome acted (λ act. act.place ≡ place)
        → (before : Contents)
        → Keeps (state S.Store conn.old) before → version_of before.acted ≡ version
        → place ≡ length before.bodies
        → (db : Trees) → (state S.Store conn.new).may_leave db
        → (state S.Store conn.old).may_leave db
        ⊎ Holds db (with_body before body.now changes.now acted) }
{
    if !conn.is_autocommit() {
        return Err(Error::SqliteFailure(ErrorCode::TransactionState));
    }
    let mut tx = conn.transaction();
    insert_entry(&mut tx, place, body)?;
    write_cells(&mut tx, changes.list())?;
    note_acted(&mut tx, version, acted)?;
    tx.commit()
}
