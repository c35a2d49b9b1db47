ghost use Rattle.std.specs.Prelude.{◌≡◌, ◌↔◌, IsTrue, IsOk, OnOk, OnErr, IfOk};
ghost use Rattle.std.specs.FinMap as map;
ghost use Rattle.std.specs.FinSet as set;
ghost use Rattle.lynx_cells.specs.Database.{IsZeroFree, applied, empty_database, value_at, with_value};
ghost use Rattle.lynx_cells.specs.Contents.{IsStaged, KeepsStaged, changed};
ghost use Rattle.lynx_cells.specs.Triples.{triples_of};

use crate::changes::Changes;
use lynx_names::{Memory, TableId};
use std::alloc::Global;
use std::collections::BTreeMap;
use std::marker::Model;

/// The cells of one server. A cell that was never written holds 0.
///
/// A set of changes is applied in two steps: `stage` makes room for the changed cells, which may
/// fail, and `apply` writes them, which takes no memory.
#[derive(Debug, Drop)]
pub struct Cells {
    pub(crate) slots: BTreeMap<(TableId, u64), u64>,
}

impl Model for Cells {
    ghost use Rattle.lynx_cells.specs.Contents.{Contents, contents_of, contents_code};

    ghost Value = { Contents };

    ghost coded = { contents_code };

    ghost view = { λ cells. contents_of cells.slots.entries };
}

impl Cells {
    /// Every cell is 0. Takes no memory.
    pub fn new(alloc: Global) -> Cells
        ensures database { result.database ≡ empty_database }
        ensures staged { result.staged ≡ set.empty }
    {
        Cells {
            slots: BTreeMap::new(alloc),
        }
    }

    /// What a cell holds. Takes no memory.
    pub fn get(&self, table: TableId, key: u64) -> u64
        ensures value { result ≡ value_at self.now.database table key }
        ensures zero_free { IsZeroFree self.now.database }
    {
        match self.slots.get(&(table, key)) {
            Some(value) => *value,
            None => 0,
        }
    }

    /// What a cell would hold once the changes are applied: what a hop reads, its own earlier
    /// writes first.
    pub fn get_through(&self, changes: &Changes, table: TableId, key: u64) -> u64
        ensures { result ≡ value_at (applied changes.now self.now.database) table key }
    {
        match changes.get(table, key) {
            Some(value) => value,
            None => self.get(table, key),
        }
    }

    /// Makes room for the changes, and changes no cell. After an error the cells are as they were,
    /// though some of the room may have been made, and the call may be made again.
    pub fn stage(&mut self, changes: &Changes) -> Result<(), Memory>
        ensures staged { OnOk result (IsStaged self.new changes.now) }
        ensures room { OnOk result (self.new.staged ≡ set.union self.old.staged
            (changed changes.now)) }
        ensures staged_already { IsStaged self.old changes.now → IsOk result }

        // Also after an error.
        ensures database { self.new.database ≡ self.old.database }
        ensures keeps { KeepsStaged self.old self.new }
    {
        for &(table, key, _) in changes.list() {
            self.stage_cell(table, key)?;
        }
        Ok(())
    }

    /// Whether there is room for the changes, which `apply` asks for. Takes no memory.
    pub fn is_staged(&self, changes: &Changes) -> bool
        ensures { IsTrue result ↔ IsStaged self.now changes.now }
    {
        for &(table, key, _) in changes.list() {
            if !self.slots.contains_key(&(table, key)) {
                return false;
            }
        }
        true
    }

    /// Writes the changes. Takes no memory.
    pub fn apply(&mut self, changes: &Changes)
        requires { IsStaged self.old changes.now }
        ensures database { self.new.database ≡ applied changes.now self.old.database }
        ensures staged { self.new.staged ≡ self.old.staged }
    {
        for &(table, key, value) in changes.list() {
            self.overwrite(table, key, value);
        }
    }

    /// The cells that are not 0, by table, then key: each a table, a key and the value.
    pub fn list(&self, alloc: Global) -> Result<Vec<(TableId, u64, u64)>, Memory>
        ensures entries { IfOk result (λ list. list.items ≡ triples_of
            (map.entries self.now.database)) }
        ensures zero_free { IsZeroFree self.now.database }
    {
        let mut list = Vec::new(alloc);
        for (&(table, key), &value) in &self.slots {
            if value != 0 {
                list.push((table, key, value))?;
            }
        }
        Ok(list)
    }

    // A slot for the cell, which holds 0 if it is new.
    fn stage_cell(&mut self, table: TableId, key: u64) -> Result<(), Memory>
        ensures database { self.new.database ≡ self.old.database }
        ensures staged { OnOk result (self.new.staged ≡ set.insert self.old.staged (table, key)) }
        ensures err { OnErr result (self.new ≡ self.old) }
        ensures staged_already { IsTrue (set.contains self.old.staged (table, key)) → IsOk result }
    {
        if !self.slots.contains_key(&(table, key)) {
            self.slots.insert((table, key), 0)?;
        }
        Ok(())
    }

    // Writes a cell that has its slot.
    fn overwrite(&mut self, table: TableId, key: u64, value: u64)
        requires { IsTrue (set.contains self.old.staged (table, key)) }
        ensures database { self.new.database ≡ with_value self.old.database table key value }
        ensures staged { self.new.staged ≡ self.old.staged }
    {
        if let Some(slot) = self.slots.get_mut(&(table, key)) {
            *slot = value;
        }
    }
}
