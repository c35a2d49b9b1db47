//! The rows of a store, read back.
ghost use Rattle.std.specs.Prelude.{◌≡◌, ◌≤◌, ℕ, List, [], Option, map, length, IsTrue, IfOk, OnOk};
ghost use Rattle.sqlite_trees.specs.View.{doubt};
ghost use Rattle.sqlite.specs.Tree.{Trees};
ghost use Rattle.sqlite.specs.Held.{state};
ghost use Rattle.sqlite.specs.State.{HasCleanDisk, IsLive, Shown};
ghost use Rattle.sqlite.specs.Given.{IsPlain};
ghost use Rattle.sqlite.specs.Listing.{understood};
ghost use Rattle.lynx_sql.specs.Contents.{Title, Contents};
ghost use Rattle.lynx_sql.specs.Rows.{meta_rows, shown_meta};
ghost use Rattle.lynx_sql.specs.Steps.{Keeps};
ghost use Rattle.lynx_sql.specs.declared.acts.Acted.{Acted};
ghost use Rattle.lynx_sql.specs.declared.version.StoreVersion.{StoreVersion};
ghost use Rattle.lynx_sql.specs.Acts.{HoldsActs, HoldsActed, ShowActed, ArePlaced, shown_act, acts_in, version_of};
ghost use Rattle.lynx_sql.specs.Tables.{store_schema, IsStoreSchema, acted_tree, meta_tree};
ghost use Rattle.lynx_sql.specs.Shown.{AreCells};
ghost use Rattle.lynx_sql.specs.Reading.{IsStore, SameTables, ShowRows};

use crate::rising::Rising;
use crate::schema::{is_first, is_second, is_store};
use sqlite::{Alter, Connection, Error, ErrorCode, Row};

/// The rows that a query shows of a store, outside a transaction. An error where the database has
/// not the tables of a store.
fn read_store<S: Alter>(conn: &mut Connection<S>, text: &str) -> Result<Vec<Row>, Error>
    // In a store the query only reads, whichever version it is of.
    requires { (version : StoreVersion)
        → (state S.Store conn.old).now.schema ≡ store_schema version
        → IsPlain (understood (store_schema version) text.now) }
    ensures clean { doubt (state S.Store conn.old).is_clean
        ≤ doubt (state S.Store conn.new).is_clean }
    ensures shown { HasCleanDisk (state S.Store conn.new) → IfOk result (λ rows.
        IsLive (state S.Store conn.old)
        × (IsTrue (state S.Store conn.old).is_open
        → (state S.Store conn.old).now ≡ (state S.Store conn.old).committed)
        × IsStoreSchema (state S.Store conn.old).now.schema
        × Shown text.now [] (state S.Store conn.old) (state S.Store conn.new) rows.items) }
    ensures store { HasCleanDisk (state S.Store conn.new)
        → OnOk result (IsStore (state S.Store conn.new)) }
    ensures same { HasCleanDisk (state S.Store conn.new)
        → OnOk result (SameTables (state S.Store conn.old) (state S.Store conn.new)) }
    ensures stop { HasCleanDisk (state S.Store conn.new) → (db : Trees)
        → (state S.Store conn.new).may_leave db → (state S.Store conn.old).may_leave db }
{
    if !conn.is_autocommit() || !is_store(conn.schema()) {
        return Err(Error::SqliteFailure(ErrorCode::NotADatabase));
    }
    conn.query_all(text, &[])
}

/// The hops by place, in a store of version 2: each an origin, an index, a hop and a place.
fn read_places<S: Rising>(conn: &mut Connection<S>) -> Result<Vec<Row>, Error>
    ensures clean { doubt (state S.Store conn.old).is_clean
        ≤ doubt (state S.Store conn.new).is_clean }
    ensures version { HasCleanDisk (state S.Store conn.new)
        → OnOk result (((state S.Store conn.old).now.schema ≡ store_schema StoreVersion.Two)
        × ((state S.Store conn.new).now.schema ≡ store_schema StoreVersion.Two)) }
    ensures ok { HasCleanDisk (state S.Store conn.new) → IfOk result (λ rows. (contents : Contents)
        → Keeps (state S.Store conn.old) contents
        → rows.items ≡ map shown_act (acts_in contents.acted)) }
    ensures back { HasCleanDisk (state S.Store conn.new)
        → IfOk result (λ rows. (acts : List Acted) (places : ℕ)
        → ArePlaced acts places → rows.items ≡ map shown_act acts
        → HoldsActs ((state S.Store conn.new).committed.trees acted_tree) acts) }
    ensures same { HasCleanDisk (state S.Store conn.new)
        → OnOk result (SameTables (state S.Store conn.old) (state S.Store conn.new)) }
    ensures kept { HasCleanDisk (state S.Store conn.new) → OnOk result ((contents : Contents)
        → Keeps (state S.Store conn.old) contents → Keeps (state S.Store conn.new) contents) }
    ensures stop { HasCleanDisk (state S.Store conn.new) → (db : Trees)
        → (state S.Store conn.new).may_leave db → (state S.Store conn.old).may_leave db }
{
    if !is_second(conn.schema()) {
        return Err(Error::SqliteFailure(ErrorCode::NotADatabase));
    }
    read_store(
        conn,
        "SELECT origin, idx, hop, place FROM acted ORDER BY place",
    )
}

/// The hops by place, None in a store of version 1, which has no such rows.
#[tactic(auto, using(crate::proofs::KeptBack::first_shown, crate::proofs::KeptBack::first_back, crate::proofs::KeptBack::second_shown, crate::proofs::KeptBack::second_back))]
fn read_acted<S: Rising>(conn: &mut Connection<S>) -> Result<Option<Vec<Row>>, Error>
    ensures clean { doubt (state S.Store conn.old).is_clean
        ≤ doubt (state S.Store conn.new).is_clean }
    ensures ok { HasCleanDisk (state S.Store conn.new) → IfOk result (λ rows. (contents : Contents)
        → Keeps (state S.Store conn.old) contents → ShowActed rows contents.acted) }
    ensures back { HasCleanDisk (state S.Store conn.new)
        → IfOk result (λ rows. (acted : Option (List Acted)) (places : ℕ)
        → ArePlaced (acts_in acted) places → ShowActed rows acted
        → HoldsActed ((state S.Store conn.new).committed.trees acted_tree) acted
        × ((state S.Store conn.new).now.schema ≡ store_schema (version_of acted))) }
    ensures same { HasCleanDisk (state S.Store conn.new)
        → OnOk result (SameTables (state S.Store conn.old) (state S.Store conn.new)) }
    ensures kept { HasCleanDisk (state S.Store conn.new) → OnOk result ((contents : Contents)
        → Keeps (state S.Store conn.old) contents → Keeps (state S.Store conn.new) contents) }
    ensures stop { HasCleanDisk (state S.Store conn.new) → (db : Trees)
        → (state S.Store conn.new).may_leave db → (state S.Store conn.old).may_leave db }
{
    if is_first(conn.schema()) {
        return Ok(None);
    }
    let rows = read_places(conn)?;
    Ok(Some(rows))
}

/// All rows of a store, as the queries show them.
#[derive(Drop)]
pub struct StoredRows {
    pub title: Vec<Row>,
    pub entries: Vec<Row>,
    pub cells: Vec<Row>,
    /// The hops that ran, None in a store of version 1.
    pub acted: Option<Vec<Row>>,
}

/// Reads all rows of a store. An error where the database has not its tables, or fails.
pub fn read_rows<S: Rising>(conn: &mut Connection<S>) -> Result<StoredRows, Error>
    ensures clean { doubt (state S.Store conn.old).is_clean
        ≤ doubt (state S.Store conn.new).is_clean }
    // The rows show what is kept.
    ensures ok { HasCleanDisk (state S.Store conn.new) → IfOk result (λ rows. (contents : Contents)
        → Keeps (state S.Store conn.old) contents → ShowRows rows contents) }
    // Of what is kept each cell's row has its form.
    ensures formed { HasCleanDisk (state S.Store conn.new)
        → IfOk result (λ rows. (contents : Contents)
        → Keeps (state S.Store conn.old) contents → AreCells rows.cells.items) }
    // The texts that are shown are those of `meta`.
    ensures titled { HasCleanDisk (state S.Store conn.new) → IfOk result (λ rows. (title : Title)
        → rows.title.items ≡ shown_meta title
        → (state S.Store conn.old).committed.trees meta_tree ≡ meta_rows title) }
    // And those that it holds are shown.
    ensures shown { HasCleanDisk (state S.Store conn.new) → IfOk result (λ rows. (title : Title)
        → (state S.Store conn.old).committed.trees meta_tree ≡ meta_rows title
        → rows.title.items ≡ shown_meta title) }
    // What the rows show is kept.
    ensures back { HasCleanDisk (state S.Store conn.new)
        → IfOk result (λ rows. (contents : Contents)
        → AreCells rows.cells.items → ArePlaced (acts_in contents.acted) (length contents.bodies)
        → ShowRows rows contents
        → Keeps (state S.Store conn.new) contents) }
    ensures kept { HasCleanDisk (state S.Store conn.new) → OnOk result ((contents : Contents)
        → Keeps (state S.Store conn.old) contents → Keeps (state S.Store conn.new) contents) }
    ensures stop { HasCleanDisk (state S.Store conn.new) → (db : Trees)
        → (state S.Store conn.new).may_leave db → (state S.Store conn.old).may_leave db }
{
    let acted = read_acted(conn)?;
    // The texts of `meta` by number: each a number and a text.
    let title = read_store(conn, "SELECT id, txt FROM meta ORDER BY id")?;
    // The entries by place: each a place and a body.
    let entries = read_store(conn, "SELECT place, body FROM entry ORDER BY place")?;
    // The cells by table, then key: each a table, a key and a value.
    let cells = read_store(conn, "SELECT tab, k, v FROM cell ORDER BY tab, k")?;
    Ok(StoredRows {
        title,
        entries,
        cells,
        acted,
    })
}
