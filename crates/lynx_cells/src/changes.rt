ghost use Rattle.std.specs.Prelude.{◌≡◌, IsSome, IsOk, OnOk, OnErr, IfOk, IfErr};
ghost use Rattle.std.specs.FinMap as map;
ghost use Rattle.lynx_cells.specs.Database.{cell_cmp, Database, applied, with_value};
ghost use Rattle.lynx_cells.specs.Triples.{entries_of, triples_of, RisesByCell};
ghost use Rattle.lynx_cells.specs.inner.Place.{IsPlaceOf, IsGapFor};

use lynx_names::{Memory, TableId};
use std::alloc::Global;
use std::marker::Model;

/// The new values of some cells. A 0 says that its cell becomes 0.
#[derive(Debug, Drop)]
pub struct Changes {
    items: Vec<(TableId, u64, u64)>,
}

impl Model for Changes {
    ghost use Rattle.std.specs.FinMap as map;
    ghost use Rattle.std.specs.Coded.{coded×, coded_ℕ};
    ghost use Rattle.lynx_cells.specs.Database.{ChangeSet};
    ghost use Rattle.lynx_cells.specs.Triples.{entries_of, RisesByCell};

    ghost Value = { ChangeSet };

    ghost coded = { map.code (coded× coded_ℕ coded_ℕ) coded_ℕ };

    ghost view = { λ changes. map.from_entries (entries_of changes.items.items) };

    ghost invariant = { λ changes. RisesByCell changes.items.items };
}

impl Changes {
    /// No changes, which take no memory.
    pub fn new(alloc: Global) -> Changes
        ensures { result ≡ map.empty }
    {
        Changes {
            items: Vec::new(alloc),
        }
    }

    /// Adds a change, or puts its value in the place of an earlier one of the same cell. A new
    /// change moves those after it, so a set is meant to have tens of changes, not thousands.
    pub fn put(&mut self, table: TableId, key: u64, value: u64) -> Result<(), Memory>
        ensures ok { OnOk result (self.new ≡ map.insert self.old (table, key) value) }
        ensures err { OnErr result (self.new ≡ self.old) }
        ensures changed_already { IsSome (map.get self.old (table, key)) → IsOk result }

        // One more change is one more write.
        ensures writes { OnOk result ((db : Database) → applied self.new db
            ≡ with_value (applied self.old db) table key value) }
    {
        put_change(&mut self.items, table, key, value)
    }

    /// The new value of a cell, or None where it isn't changed.
    pub fn get(&self, table: TableId, key: u64) -> Option<u64>
        ensures { result ≡ map.get self.now (table, key) }
    {
        match place_of(&self.items, table, key) {
            Ok(place) => Some(self.items[place].2),
            Err(_) => None,
        }
    }

    /// The changes by table, then key: each a table, a key and the new value.
    pub fn list(&self) -> &[(TableId, u64, u64)]
        ensures { result.now ≡ triples_of (map.entries self.now) }
    {
        self.items.as_slice()
    }
}

// Where the change of a cell is, or where it would go.
fn place_of(changes: &[(TableId, u64, u64)], table: TableId, key: u64) -> Result<usize, usize>
    requires { RisesByCell changes.now }
    ensures there { IfOk result (IsPlaceOf changes.now (table, key)) }
    ensures gap { IfErr result (IsGapFor changes.now (table, key)) }
{
    changes.binary_search_by_key(&(table, key), |change| (change.0, change.1))
}

// The changes with one more, in its place.
fn put_change(
    changes: &mut Vec<(TableId, u64, u64)>,
    table: TableId,
    key: u64,
    value: u64,
) -> Result<(), Memory>
    requires { RisesByCell changes.old.items }
    ensures ok { OnOk result (entries_of changes.new.items ≡ map.put cell_cmp (table, key) value
        (entries_of changes.old.items)) }
    ensures err { OnErr result (changes.new.items ≡ changes.old.items) }
    ensures changed_already { IsSome (map.find cell_cmp (table, key)
        (entries_of changes.old.items)) → IsOk result }
{
    match place_of(changes, table, key) {
        Ok(place) => changes[place].2 = value,
        Err(place) => changes.insert(place, (table, key, value))?,
    }
    Ok(())
}
