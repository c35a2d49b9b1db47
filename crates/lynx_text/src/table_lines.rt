//! The lines of tables and their shards.

ghost use Rattle.std.specs.Prelude.{◌≡◌, ◌<◌, ◌≤◌, ◌+◌, [], None, length, OnOk, IfOk};
ghost use Rattle.lynx_lex.specs.Gives.{Gives, shard_kind};
ghost use Rattle.lynx_lex.specs.Lines.{texts};
ghost use Rattle.lynx_set.specs.Plain.{plain_set};
ghost use Rattle.lynx_set.specs.Names.{place_of};
ghost use Rattle.lynx_text.specs.Parts.{parts, goes_shard, goes_table, next_shard, next_table, table_line, shard_line};
ghost use Rattle.lynx_names.specs.declared.limits.TheConstants.{MAX_SERVERS, MAX_SHARDS, MAX_TABLES};

use crate::lines::{Lines, four_words, one_after};
use crate::scope::{name_of, number_of};
use lynx_lex::{FaultKind, Name, WordFault, at};
use lynx_names::limits::{MAX_SHARDS, MAX_TABLES};
use lynx_set::ChainSet;
use lynx_shards::{Range, ShardFault, TableShards};
use std::alloc::Global;

/// The tables of a set that has none yet.
pub(crate) fn read_tables(
    alloc: Global,
    lines: &mut Lines,
    set: &mut ChainSet,
) -> Result<(), WordFault>
    requires { set.old.tables ≡ [] }
    ensures value { Gives (λ _. (plain_set set.new, lines.new)) result
        (parts goes_table next_table MAX_TABLES (plain_set set.old) lines.old) }
    ensures programs { OnOk result (set.new.programs ≡ set.old.programs) }
{
    'tables: while lines.begins_with(b"table".as_slice()) {
        read_table(alloc, lines, set)?;
    }
    Ok(())
}

/// A table's line and those of its shards.
#[tactic(auto, unfolding(crate::specs::Parts::next_table))]
fn read_table(alloc: Global, lines: &mut Lines, set: &mut ChainSet) -> Result<(), WordFault>
    ensures value { Gives (λ _. (plain_set set.new, lines.new)) result (next_table
        (plain_set set.old) lines.old) }
    ensures shrinks { OnOk result (length lines.new < length lines.old) }
    ensures count { OnOk result (length set.new.tables ≡ length set.old.tables + 1) }
    ensures few { OnOk result (length set.new.tables ≤ MAX_TABLES) }
    ensures programs { OnOk result (set.new.programs ≡ set.old.programs) }
{
    let words = lines.next_words(alloc)?;
    let name = read_table_line(&words, set)?;
    let shards = read_shards(alloc, lines, set.servers())?;
    if !shards.is_whole() {
        let word = if shards.is_empty() { 0 } else { 3 };
        return Err(WordFault::new(FaultKind::Shard(ShardFault::Gap), word));
    }
    set.add_table(name, shards)?;
    Ok(())
}

/// The lines of a table's shards.
fn read_shards(alloc: Global, lines: &mut Lines, servers: u8) -> Result<TableShards, WordFault>
    requires { servers ≤ MAX_SERVERS }
    ensures value { Gives (λ shards. (shards, lines.new)) result (parts goes_shard
        (next_shard servers) MAX_SHARDS [] lines.old) }
    ensures shrinks { OnOk result (length lines.new ≤ length lines.old) }
{
    let mut shards = TableShards::new(alloc);
    'shards: while lines.begins_with(b"shard".as_slice()) {
        read_shard(alloc, lines, servers, &mut shards)?;
    }
    Ok(shards)
}

/// The line of one more shard.
#[tactic(auto, unfolding(crate::specs::Parts::next_shard))]
fn read_shard(
    alloc: Global,
    lines: &mut Lines,
    servers: u8,
    shards: &mut TableShards,
) -> Result<(), WordFault>
    requires { servers ≤ MAX_SERVERS }
    ensures value { Gives (λ _. (shards.new, lines.new)) result
        (next_shard servers shards.old lines.old) }
    ensures shrinks { OnOk result (length lines.new < length lines.old) }
    ensures count { OnOk result (length shards.new ≡ length shards.old + 1) }
    ensures few { OnOk result (length shards.new ≤ MAX_SHARDS) }
{
    let words = lines.next_words(alloc)?;
    let range = read_shard_line(&words, shards)?;
    let is_next = shards.is_next(range.low);
    match shards.add(servers, range) {
        Ok(()) => Ok(()),
        Err(fault) => Err(shard_fault(fault, is_next)),
    }
}

/// The fault of a shard's line that has this one; whether the shard begins where it has to.
fn shard_fault(fault: ShardFault, is_next: bool) -> WordFault
    ensures { result ≡ shard_kind fault }
{
    match fault {
        ShardFault::Memory => WordFault::new(FaultKind::Memory, 0),
        ShardFault::BadServer => WordFault::new(FaultKind::Shard(fault), 4),
        _ if is_next => WordFault::new(FaultKind::Shard(fault), 3),
        _ => WordFault::new(FaultKind::Shard(fault), 2),
    }
}

/// `table NAME`
#[tactic(auto, unfolding(crate::specs::Parts::table_line))]
fn read_table_line(words: &[&[u8]], set: &ChainSet) -> Result<Name, WordFault>
    ensures value { Gives (λ name. name) result (table_line set.now.tables (texts words.now)) }
    ensures new { IfOk result (λ name. place_of set.now.tables name ≡ None) }
    ensures room { OnOk result (length set.now.tables < MAX_TABLES) }
{
    let word = one_after(b"table".as_slice(), words)?;
    if set.tables().len() >= usize::from(MAX_TABLES) {
        return Err(WordFault::new(FaultKind::LimitPassed, 0));
    }
    let name = at(2, name_of(word))?;
    match set.place_of_table(&name) {
        Some(_) => Err(WordFault::new(FaultKind::Repeated, 2)),
        None => Ok(name),
    }
}

/// `shard LOW HIGH SERVER`
#[tactic(auto, using(crate::proofs::Shapes::shard_line_other), unfolding(crate::specs::Parts::shard_line))]
fn read_shard_line(words: &[&[u8]], shards: &TableShards) -> Result<Range, WordFault>
    ensures value { Gives (λ range. range) result (shard_line (length shards.now)
        (texts words.now)) }
    ensures room { OnOk result (length shards.now < MAX_SHARDS) }
{
    let (word, low, high, server) = four_words(words)?;
    if word != b"shard".as_slice() {
        return Err(WordFault::new(FaultKind::BadLine, 1));
    }
    if shards.len() >= MAX_SHARDS {
        return Err(WordFault::new(FaultKind::LimitPassed, 0));
    }
    let low = at(2, number_of(low))?;
    let high = at(3, number_of(high))?;
    let server = at(4, number_of(server))?;
    Ok(Range { low, high, server })
}
