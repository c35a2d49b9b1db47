//! Whether a set extends another.
ghost use Rattle.std.specs.Prelude.{◌≡◌, ◌↔◌, ℕ, List, length, slice_get, option_copied, IfSome, IsNone, IsTrue};
ghost use Rattle.lynx_set.specs.declared.program.Program.{Program};
ghost use Rattle.lynx_extend.specs.Extends.{AreSamePrograms, AreSameTables, IsFirstOtherProgram, IsFirstOtherTable, IsSameProgram, IsSameTable, JudgesExtension};

use crate::fault::ExtendFault;
use indexmap::{IndexMap, IndexSet};
use lynx_names::Items;
use lynx_set::{ChainSet, Name, Program, Version};
use lynx_shards::{Shard, ShardMap};

/// Whether two names are spelled alike.
fn are_alike(left: &Name, right: &Name) -> bool
    ensures { IsTrue result ↔ (left.now ≡ right.now) }
{
    left == right
}

/// Whether the shards of two tables are the same.
fn are_same_shards(left: &Items<Shard>, right: &Items<Shard>) -> bool
    ensures { IsTrue result ↔ (left.now ≡ right.now) }
{
    left == right
}

/// Whether two programs, each under its name, are the same.
fn are_same_entries(left: (&Name, &Program), right: (&Name, &Program)) -> bool
    ensures { IsTrue result ↔ (◌≡◌ {A = List ℕ × Program} (left.entry.0.now, left.entry.1.now)
        (right.entry.0.now, right.entry.1.now)) }
{
    left.0 == right.0 && left.1 == right.1
}

/// The shards of a table, by its number.
fn shards_at(map: &ShardMap, table: usize) -> Option<&Items<Shard>>
    ensures { option_copied result ≡ slice_get map.now table }
{
    map.tables().get(table)
}

fn is_same_name(old: &IndexSet<Name>, new: &IndexSet<Name>, table: usize) -> bool
    ensures { IsTrue result ↔ (slice_get new.now.keys table ≡ slice_get old.now.keys table) }
{
    match (old.get_index(table), new.get_index(table)) {
        (Some(old), Some(new)) => are_alike(new, old),
        (None, None) => true,
        _ => false,
    }
}

fn has_same_shards(old: &ShardMap, new: &ShardMap, table: usize) -> bool
    ensures { IsTrue result ↔ (slice_get new.now table ≡ slice_get old.now table) }
{
    match (shards_at(old, table), shards_at(new, table)) {
        (Some(old), Some(new)) => are_same_shards(new, old),
        (None, None) => true,
        _ => false,
    }
}

fn is_same_table(old: &ChainSet, new: &ChainSet, table: usize) -> bool
    ensures { IsTrue result ↔ IsSameTable old.now new.now table }
{
    is_same_name(old.tables(), new.tables(), table)
        && has_same_shards(old.shards(), new.shards(), table)
}

fn is_same_program(
    old: &IndexMap<Name, Program>,
    new: &IndexMap<Name, Program>,
    program: usize,
) -> bool
    ensures { IsTrue result
        ↔ (slice_get new.now.entries program ≡ slice_get old.now.entries program) }
{
    match (old.get_index(program), new.get_index(program)) {
        (Some(old), Some(new)) => are_same_entries(new, old),
        (None, None) => true,
        _ => false,
    }
}

/// The first table of the old set that isn't the same in the new one.
fn first_other_table(old: &ChainSet, new: &ChainSet) -> Option<usize>
    ensures none { IsNone result → AreSameTables old.now new.now (length old.now.tables) }
    ensures some { IfSome result (IsFirstOtherTable old.now new.now) }
{
    for table in 0..old.tables().len() {
        if !is_same_table(old, new, table) {
            return Some(table);
        }
    }
    None
}

/// The first program of the old set that isn't the same in the new one.
fn first_other_program(old: &ChainSet, new: &ChainSet) -> Option<usize>
    ensures none { IsNone result → AreSamePrograms old.now new.now (length old.now.programs) }
    ensures some { IfSome result (IsFirstOtherProgram old.now new.now) }
{
    for program in 0..old.programs().len() {
        if !is_same_program(old.programs(), new.programs(), program) {
            return Some(program);
        }
    }
    None
}

/// Why the new set doesn't extend the old one: the first reason, None where it does. It extends it
/// where it is of the same version, or of version 2 where the old one is of version 1, has as many
/// servers or more, and begins with its tables, with the same names and shards, and with its
/// programs, the same to the last word. The work is a walk over the old set; it takes no memory.
pub fn extend_fault(old: &ChainSet, new: &ChainSet) -> Option<ExtendFault>
    ensures { JudgesExtension old.now new.now result }
{
    if old.version() == Version::Two && new.version() == Version::One {
        return Some(ExtendFault::Version);
    }
    if new.servers() < old.servers() {
        return Some(ExtendFault::Servers);
    }
    match first_other_table(old, new) {
        Some(table) if table < new.tables().len() => {
            return Some(ExtendFault::TableChanged { table });
        }
        Some(table) => return Some(ExtendFault::TableGone { table }),
        None => {}
    }
    match first_other_program(old, new) {
        Some(program) if program < new.programs().len() => {
            Some(ExtendFault::ProgramChanged { program })
        }
        Some(program) => Some(ExtendFault::ProgramGone { program }),
        None => None,
    }
}
