ghost use Rattle.std.specs.Prelude.{◌≡◌, ◌++◌, ◌∷◌, [], All, IfOk, OnOk, OnErr};
ghost use Rattle.lynx_codec.specs.Entries.{IsEntryInRange};
ghost use Rattle.lynx_keep.specs.Kept.{nothing_kept, with_entries, with_entry};
ghost use Rattle.lynx_keep.specs.Stored.{AreStored, entries_in};

use crate::batch_keeper::BatchKeeper;
use crate::copying::copy_cells;
use crate::fault::KeepFault;
use crate::keeper::{Keeper, Loaded};
use crate::reading::read_entries;
use lynx_cells::{Cells, Changes};
use lynx_codec::append_entry;
use lynx_codec::limits::MAX_ENCODING_BYTES;
use lynx_entry::Entry;
use lynx_names::{Memory, TryCopy};
use std::alloc::Global;
use std::marker::Model;

/// Keeps everything in memory, its entries as their encodings. It never answers Failed, and has no
/// faults to count.
#[derive(Debug, Drop)]
pub struct MemoryKeeper {
    /// The encodings of the entries, one behind the other.
    encodings: Vec<u8>,
    cells: Cells,
}

impl Model for MemoryKeeper {
    ghost use Rattle.lynx_keep.specs.Kept.{KeptState, kept_code};
    ghost use Rattle.lynx_keep.specs.Stored.{AreStored, entries_in};

    ghost Value = { KeptState };

    ghost coded = { kept_code };

    ghost view = { λ keeper. record {
      entries = entries_in keeper.encodings.items;
      cells = keeper.cells.database;
    } };

    ghost invariant = { λ keeper. AreStored keeper.encodings.items };
}

impl MemoryKeeper {
    /// Keeps nothing yet. Takes no memory.
    pub fn new(alloc: Global) -> MemoryKeeper
        ensures { result ≡ nothing_kept }
    {
        MemoryKeeper {
            encodings: Vec::new(alloc),
            cells: Cells::new(alloc),
        }
    }

    /// Keeps these entries and a copy of these cells.
    pub fn keeping(alloc: Global, entries: &[Entry], cells: &Cells) -> Result<MemoryKeeper, Memory>
        requires { All IsEntryInRange entries.now }
        ensures { IfOk result (λ keeper. keeper
            ≡ record { entries = entries.now; cells = cells.now.database }) }
    {
        let encodings = encodings_of(alloc, entries)?;
        let cells = copy_cells(alloc, cells)?;
        Ok(MemoryKeeper { encodings, cells })
    }

    /// All growth comes first.
    fn keep(&mut self, entry: &Entry, changes: &Changes) -> Result<(), Memory>
        requires { IsEntryInRange entry.now }
        ensures ok { OnOk result (self.new ≡ with_entry self.old entry.now changes.now) }
        ensures err { OnErr result (self.new ≡ self.old) }
    {
        self.cells.stage(changes)?;
        add_encoding(&mut self.encodings, entry)?;
        self.cells.apply(changes);
        Ok(())
    }

    /// All growth comes first.
    fn keep_all(
        &mut self,
        alloc: Global,
        entries: &[Entry],
        changes: &Changes,
    ) -> Result<(), Memory>
        requires { All IsEntryInRange entries.now }
        ensures ok { OnOk result (self.new ≡ with_entries self.old entries.now changes.now) }
        ensures err { OnErr result (self.new ≡ self.old) }
    {
        let encodings = encodings_of(alloc, entries)?;
        self.cells.stage(changes)?;
        self.encodings.extend_from_slice(encodings.as_slice())?;
        self.cells.apply(changes);
        Ok(())
    }
}

/// Adds the encoding of an entry behind those of others.
fn add_encoding(encodings: &mut Vec<u8>, entry: &Entry) -> Result<(), Memory>
    requires stored { AreStored encodings.old.items }
    requires range { IsEntryInRange entry.now }
    ensures ok { OnOk result (entries_in encodings.new.items
        ≡ entries_in encodings.old.items ++ entry.now ∷ []) }
    ensures err { OnErr result (encodings.new.items ≡ encodings.old.items) }
    ensures stored { AreStored encodings.new.items }
{
    encodings.reserve(MAX_ENCODING_BYTES)?;
    append_entry(entry, encodings);
    Ok(())
}

/// The encodings of entries, one behind the other.
fn encodings_of(alloc: Global, entries: &[Entry]) -> Result<Vec<u8>, Memory>
    requires { All IsEntryInRange entries.now }
    ensures { IfOk result (λ encodings. AreStored encodings.items
        × (entries_in encodings.items ≡ entries.now)) }
{
    let mut encodings = Vec::new(alloc);
    for entry in entries {
        add_encoding(&mut encodings, entry)?;
    }
    Ok(encodings)
}

impl TryCopy for MemoryKeeper {
    fn copy(&self, alloc: Global) -> Result<MemoryKeeper, Memory> {
        Ok(MemoryKeeper {
            encodings: Vec::from_slice(alloc, self.encodings.as_slice())?,
            cells: copy_cells(alloc, &self.cells)?,
        })
    }
}

impl Keeper for MemoryKeeper {
    ghost use Rattle.std.proofs.Common.{inl, sym, rules};
    ghost use Rattle.lynx_keep.specs.Kept.{memory_terms};

    ghost terms = { memory_terms };

    fn commit(
        &mut self,
        _alloc: Global,
        entry: &Entry,
        changes: &Changes,
    ) -> Result<(), KeepFault> {
        self.keep(entry, changes)?;
        Ok(())
    }

    fn load(&mut self, alloc: Global) -> Result<Loaded, KeepFault> {
        let entries = read_entries(alloc, self.encodings.as_slice())?;
        let cells = copy_cells(alloc, &self.cells)?;
        Ok(Loaded { entries, cells })
    }

    fn faults(&self) -> u64 {
        0
    }

    ghost settled = { λ keeper kept sound keeps. inl (sym keeps) };

    ghost weaker = { λ keeper kept other left. Prim.search rules };
}

impl BatchKeeper for MemoryKeeper {
    fn commit_all(
        &mut self,
        alloc: Global,
        entries: &[Entry],
        changes: &Changes,
    ) -> Result<(), KeepFault> {
        self.keep_all(alloc, entries, changes)?;
        Ok(())
    }
}
