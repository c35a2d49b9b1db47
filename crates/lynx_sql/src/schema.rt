//! Whether the schema of a database is that of a store.
ghost use Rattle.std.specs.Prelude.{◌≡◌, ◌↔◌, ◌∷◌, [], Some, None, true, codes, IsTrue};
ghost use Rattle.sqlite_value.specs.Keys.{plain};
ghost use Rattle.lynx_sql.specs.declared.version.StoreVersion.{StoreVersion};
ghost use Rattle.lynx_sql.specs.Tables.{key_column, column_of, numbered_table, store_schema, no_schema, meta, entry, cell, cell_index, acted, place_index, hop_index, IsNamed, IsKeyed, IsPlainTable, IsStoreSchema};

use sqlite_items::Items;
use sqlite_schema::schema::{Column, Index, Kind, Schema, Table};
use sqlite_value::keys::{Collation, Order};
use sqlite_value::value::Value;

/// Whether a database has no table, index or view.
pub fn is_empty(schema: &Schema) -> bool
    ensures { IsTrue result ↔ (schema.now ≡ no_schema) }
{
    schema.tables.is_empty() && schema.indexes.is_empty() && schema.views.is_empty()
}

/// Whether a column is an INTEGER PRIMARY KEY of that name.
fn is_key_column(column: &Column, name: &[u8]) -> bool
    ensures { IsTrue result ↔ (column.now ≡ key_column name.now) }
{
    column.name.as_slice() == name
        && column.kind == Kind::Integer
        && column.is_strict
        && !column.not_null
        && matches!(&column.default, Value::Null)
        && column.collation == Collation::Binary
}

/// Whether a column is a NOT NULL column of that name and type.
fn is_column(column: &Column, name: &[u8], kind: Kind) -> bool
    ensures { IsTrue result ↔ (column.now ≡ column_of name.now kind) }
{
    column.name.as_slice() == name
        && column.kind == kind
        && column.is_strict
        && column.not_null
        && matches!(&column.default, Value::Null)
        && column.collation == Collation::Binary
}

/// Whether a table has no rule but those of its columns and its keys.
fn is_plain(table: &Table) -> bool
    ensures { IsTrue result ↔ IsPlainTable table.now }
{
    table.checks.roots.is_empty()
        && table.references.is_empty()
        && table.computed.is_empty()
        && table.stamps.places.is_empty()
        && table.stamps.terms.roots.is_empty()
        && table.stamps.formats.is_empty()
        && !table.is_counted
}

/// Whether a table has that tree and that name.
fn is_named(table: &Table, tree: u32, name: &[u8]) -> bool
    ensures { IsTrue result ↔ IsNamed table.now tree name.now }
{
    table.tree == tree && table.name.as_slice() == name
}

/// Whether a table's first column is its key, and it has no other.
fn is_keyed_by_number(table: &Table) -> bool
    ensures { IsTrue result ↔ IsKeyed table.now (Some 0) (0 ∷ []) [] [] }
{
    table.key == Some(0)
        && table.primary.as_slice() == [0usize].as_slice()
        && table.uniques.is_empty()
        && table.orders.is_empty()
}

/// Whether the columns are a number, and one more.
fn are_numbered_columns(columns: &[Column], key: &[u8], other: &[u8], kind: Kind) -> bool
    ensures { IsTrue result ↔ (columns.now ≡ key_column key.now ∷ column_of other.now kind ∷ []) }
{
    let [first, second] = columns else {
        return false;
    };
    is_key_column(first, key) && is_column(second, other, kind)
}

/// Whether a table is one of rows under a number, with one more column.
#[tactic(auto, using(crate::proofs::SameTable::same_numbered))]
fn is_numbered(table: &Table, tree: u32, name: &[u8], key: &[u8], other: &[u8], kind: Kind) -> bool
    ensures { IsTrue result ↔ (table.now ≡ numbered_table tree name.now key.now other.now kind) }
{
    is_named(table, tree, name)
        && are_numbered_columns(table.columns.as_slice(), key, other, kind)
        && is_keyed_by_number(table)
        && is_plain(table)
}

/// Whether the columns are those of the table of cells.
fn are_cell_columns(columns: &[Column]) -> bool
    ensures { IsTrue result ↔ (columns.now ≡ cell.columns) }
{
    let [table, key, value] = columns else {
        return false;
    };
    is_column(table, b"tab", Kind::Integer)
        && is_column(key, b"k", Kind::Blob)
        && is_column(value, b"v", Kind::Blob)
}

/// Whether some places are those of the cells' key.
fn is_cell_key(places: &Items<usize>) -> bool
    ensures { IsTrue result ↔ (places.now ≡ 1 ∷ 2 ∷ []) }
{
    places.as_slice() == [1usize, 2].as_slice()
}

/// Whether there is one order, and it is the plain one.
fn are_plain(orders: &[Order]) -> bool
    ensures { IsTrue result ↔ (orders.now ≡ plain ∷ []) }
{
    let [order] = orders else {
        return false;
    };
    *order == Order::PLAIN
}

/// Whether there is one list of places, and it is that of the cells' key.
fn are_cell_uniques(uniques: &[Items<usize>]) -> bool
    ensures { IsTrue result ↔ (uniques.now ≡ cell.uniques) }
{
    let [unique] = uniques else {
        return false;
    };
    is_cell_key(unique)
}

/// Whether a table's key is that of the cells.
fn is_keyed_by_cell(table: &Table) -> bool
    ensures { IsTrue result ↔ IsKeyed table.now None (1 ∷ 2 ∷ []) cell.uniques cell.orders }
{
    table.key.is_none()
        && is_cell_key(&table.primary)
        && are_cell_uniques(table.uniques.as_slice())
        && are_plain(table.orders.as_slice())
}

/// Whether a table is that of the cells.
#[tactic(auto, using(crate::proofs::SameTable::same_cell))]
fn is_cell(table: &Table) -> bool
    ensures { IsTrue result ↔ (table.now ≡ cell) }
{
    is_named(table, 2, b"cell")
        && are_cell_columns(table.columns.as_slice())
        && is_keyed_by_cell(table)
        && is_plain(table)
}

/// Whether an index has that tree, table and name.
fn is_index_named(index: &Index) -> bool
    ensures { IsTrue result ↔ ((index.now.name ≡ codes "sqlite_autoindex_cell_1")
        × (index.now.tree ≡ 3) × (index.now.table ≡ 2)) }
{
    index.tree == 3
        && index.table == 2
        && index.name.as_slice() == b"sqlite_autoindex_cell_1".as_slice()
}

/// Whether an index is over the columns of the cells' key.
fn is_over_cells(index: &Index) -> bool
    ensures { IsTrue result ↔ ((index.now.columns ≡ 1 ∷ 2 ∷ []) × (index.now.order ≡ plain)
        × (index.now.is_unique ≡ true)) }
{
    index.is_unique && index.order == Order::PLAIN && is_cell_key(&index.columns)
}

/// Whether an index is that of the cells' primary key.
fn is_cell_index(index: &Index) -> bool
    ensures { IsTrue result ↔ (index.now ≡ cell_index) }
{
    is_index_named(index) && is_over_cells(index)
}

/// Whether the columns are those of the table of hops.
fn are_acted_columns(columns: &[Column]) -> bool
    ensures { IsTrue result ↔ (columns.now ≡ acted.columns) }
{
    let [origin, index, hop, place] = columns else {
        return false;
    };
    is_column(origin, b"origin", Kind::Integer)
        && is_column(index, b"idx", Kind::Blob)
        && is_column(hop, b"hop", Kind::Integer)
        && is_column(place, b"place", Kind::Integer)
}

/// Whether some places are that of the column `place` alone.
fn is_place_key(places: &Items<usize>) -> bool
    ensures { IsTrue result ↔ (places.now ≡ 4 ∷ []) }
{
    places.as_slice() == [4usize].as_slice()
}

/// Whether some places are those of the hops' primary key.
fn is_hop_key(places: &Items<usize>) -> bool
    ensures { IsTrue result ↔ (places.now ≡ 1 ∷ 2 ∷ 3 ∷ []) }
{
    places.as_slice() == [1usize, 2, 3].as_slice()
}

/// Whether there are two orders, and both are the plain one.
fn are_both_plain(orders: &[Order]) -> bool
    ensures { IsTrue result ↔ (orders.now ≡ plain ∷ plain ∷ []) }
{
    let [first, second] = orders else {
        return false;
    };
    *first == Order::PLAIN && *second == Order::PLAIN
}

/// Whether the lists of places are those of the hops' two keys.
fn are_acted_uniques(uniques: &[Items<usize>]) -> bool
    ensures { IsTrue result ↔ (uniques.now ≡ acted.uniques) }
{
    let [place, hop] = uniques else {
        return false;
    };
    is_place_key(place) && is_hop_key(hop)
}

/// Whether a table's keys are those of the hops.
fn is_keyed_by_hop(table: &Table) -> bool
    ensures { IsTrue result ↔ IsKeyed table.now None (1 ∷ 2 ∷ 3 ∷ []) acted.uniques acted.orders }
{
    table.key.is_none()
        && is_hop_key(&table.primary)
        && are_acted_uniques(table.uniques.as_slice())
        && are_both_plain(table.orders.as_slice())
}

/// Whether a table is that of the hops.
#[tactic(auto, using(crate::proofs::SameTable::same_acted))]
fn is_acted(table: &Table) -> bool
    ensures { IsTrue result ↔ (table.now ≡ acted) }
{
    is_named(table, 4, b"acted")
        && are_acted_columns(table.columns.as_slice())
        && is_keyed_by_hop(table)
        && is_plain(table)
}

/// Whether an index is one of the hops, with that tree and that name.
fn is_acted_index(index: &Index, tree: u32, name: &[u8]) -> bool
    ensures { IsTrue result
        ↔ ((index.now.name ≡ name.now) × (index.now.tree ≡ tree) × (index.now.table ≡ 4)
        × (index.now.order ≡ plain) × (index.now.is_unique ≡ true)) }
{
    index.tree == tree
        && index.table == 4
        && index.name.as_slice() == name
        && index.order == Order::PLAIN
        && index.is_unique
}

/// Whether an index is that of the hops' places.
fn is_place_index(index: &Index) -> bool
    ensures { IsTrue result ↔ (index.now ≡ place_index) }
{
    is_acted_index(index, 5, b"sqlite_autoindex_acted_1") && is_place_key(&index.columns)
}

/// Whether an index is that of the hops' primary key.
fn is_hop_index(index: &Index) -> bool
    ensures { IsTrue result ↔ (index.now ≡ hop_index) }
{
    is_acted_index(index, 6, b"sqlite_autoindex_acted_2") && is_hop_key(&index.columns)
}

/// Whether three tables are those of version 1.
fn are_three(first: &Table, second: &Table, third: &Table) -> bool
    ensures { IsTrue result ↔ ((first.now ≡ meta) × (second.now ≡ entry) × (third.now ≡ cell)) }
{
    is_numbered(first, 0, b"meta", b"id", b"txt", Kind::Text)
        && is_numbered(second, 1, b"entry", b"place", b"body", Kind::Blob)
        && is_cell(third)
}

/// Whether a database has the tables of a store of version 1, and nothing else.
pub fn is_first(schema: &Schema) -> bool
    ensures { IsTrue result ↔ (schema.now ≡ store_schema StoreVersion.One) }
{
    let [meta, entry, cell] = schema.tables.as_slice() else {
        return false;
    };
    let [index] = schema.indexes.as_slice() else {
        return false;
    };
    schema.views.is_empty() && are_three(meta, entry, cell) && is_cell_index(index)
}

/// Whether a database has the tables of a store of version 2, and nothing else.
pub fn is_second(schema: &Schema) -> bool
    ensures { IsTrue result ↔ (schema.now ≡ store_schema StoreVersion.Two) }
{
    let [meta, entry, cell, acted] = schema.tables.as_slice() else {
        return false;
    };
    let [index, places, hops] = schema.indexes.as_slice() else {
        return false;
    };
    schema.views.is_empty()
        && are_three(meta, entry, cell)
        && is_acted(acted)
        && is_cell_index(index)
        && is_place_index(places)
        && is_hop_index(hops)
}

/// Whether a database has the tables of a store, of either version, and nothing else.
pub fn is_store(schema: &Schema) -> bool
    ensures { IsTrue result ↔ IsStoreSchema schema.now }
{
    is_first(schema) || is_second(schema)
}
