//! A run: a set text and a script in, lines out.
ghost use Rattle.std.specs.Prelude.{◌≡◌, ◌≢◌, ◌⊎◌, ℕ, List, [], ◌++◌, OnOk, OnErr, IfOk, IfErr, slice_get, unwrap_or};
ghost use Rattle.std.specs.List.Sorted.{IsPermutation, IsSorted};
ghost use Rattle.lynx_world.specs.Tables.{cells_of, triple_cmp};
ghost use Rattle.lynx_world.specs.Steps.{step};
ghost use Rattle.lynx_lines.specs.Printed.{outcome_text};
ghost use Rattle.lynx_lex.specs.Lines.{with_feed};
ghost use Rattle.lynx_set.specs.Rules.{IsSet};
ghost use Rattle.lynx_set.specs.Text.{text_of};
ghost use Rattle.lynx_names.specs.declared.limits.TheConstants.{MAX_HELD};
ghost use Rattle.lynx_world.specs.Worlds.{new_world};
ghost use Rattle.std.specs.String.{string_bytes};
ghost use Rattle.lynx_report.specs.Runs.{world_after, outcome_lines, cell_lines, ending_of, explained_line, EndPrints, Explains, IsNoSet, IsNoScript, IsLate, StopsFor};
ghost use Rattle.lynx_report.specs.Options.{BeginsRunWith, EndPrintsWith, PrintsWith, RunPrintsWith, WritesPartWith};
ghost use Rattle.lynx_report.specs.Written.{AppendsPart, WritesEnd};
ghost use Rattle.lynx_lines.specs.Scripts.{IsScript, script_of};
ghost use Rattle.std.specs.Io.KnownBytes.{Appends, Keeps};

use crate::options::{RunOptions, write_rest};
use crate::running::run_event;
use crate::writing::write_bytes;
use lynx_lex::{FaultKind, TextFault};
use lynx_lines::{cell_line, chains_line, outcome_line, parse_script};
use lynx_names::{Memory, TableId};
use lynx_order::{Explained, explain};
use lynx_set::ChainSet;
use lynx_text::parse;
use lynx_world::{Event, Outcome, World, empty_keepers};
use std::alloc::{AllocError, Global};
use std::io::Write;
use thiserror::Error;

/// Why a run stopped. What was written before stands.
#[derive(Clone, Copy, Debug, PartialEq, Eq, Error)]
pub enum RunFault {
    /// The set text is faulty. It is never for want of memory.
    #[error("set {0}")]
    Set(TextFault),
    /// The script is faulty. It is never for want of memory.
    #[error("script {0}")]
    Script(TextFault),
    #[error("cannot write")]
    Write,
    #[error("out of memory")]
    Memory,
}

/// How a run that came to its end is explained.
#[derive(Clone, Copy, Debug, PartialEq, Eq)]
pub enum Ending {
    /// By an order of the chains that began.
    Ordered,
    /// It is not: chains precede one another around a cycle.
    Cyclic,
}

impl From<Memory> for RunFault {
    ghost use Rattle.std.specs.Prelude.{◌≡◌};
    ghost use Rattle.lynx_report.specs.declared.run.RunFault.TheVariants.{Memory as NoMemory};

    ghost from_gives = { λ _ fault. fault ≡ NoMemory };

    fn from(_: Memory) -> RunFault {
        RunFault::Memory
    }
}

impl From<AllocError> for RunFault {
    ghost use Rattle.std.specs.Prelude.{◌≡◌};
    ghost use Rattle.lynx_report.specs.declared.run.RunFault.TheVariants.{Memory as NoMemory};

    ghost from_gives = { λ _ fault. fault ≡ NoMemory };

    fn from(_: AllocError) -> RunFault {
        RunFault::Memory
    }
}

/// The set that a text spells. [`RunFault::Script`] and [`RunFault::Write`] are never its fault.
pub fn read_set(alloc: Global, text: &[u8]) -> Result<ChainSet, RunFault>
    ensures found { IfOk result (λ set. IsSet set × (text.now ≡ text_of set)) }
    ensures only { IfErr result (λ fault. (fault ≡ RunFault.Memory) ⊎ ((found : TextFault)
        × (fault ≡ RunFault.Set found) × IsNoSet text.now × (found.kind ≢ FaultKind.Memory))) }
{
    match parse(alloc, text) {
        Ok(set) => Ok(set),
        Err(fault) => match fault.kind {
            FaultKind::Memory => Err(RunFault::Memory),
            _ => Err(RunFault::Set(fault)),
        },
    }
}

/// The events that a script over the set spells. [`RunFault::Set`] and [`RunFault::Write`] are
/// never its fault.
pub fn read_script(alloc: Global, set: &ChainSet, text: &[u8]) -> Result<Vec<Event>, RunFault>
    ensures found { IfOk result (λ events. IsScript set.now events.items
        × (text.now ≡ script_of set.now events.items)) }
    ensures only { IfErr result (λ fault. (fault ≡ RunFault.Memory) ⊎ ((found : TextFault)
        × (fault ≡ RunFault.Script found) × IsNoScript set.now text.now
        × (found.kind ≢ FaultKind.Memory))) }
{
    match parse_script(alloc, set, text) {
        Ok(events) => Ok(events),
        Err(fault) => match fault.kind {
            FaultKind::Memory => Err(RunFault::Memory),
            _ => Err(RunFault::Script(fault)),
        },
    }
}

/// Writes the line of what an event came to.
pub fn write_outcome<W: Write>(
    alloc: Global,
    outcome: &Outcome,
    writer: &mut W,
) -> Result<(), RunFault>
    ensures line { OnOk result (Appends (W.contents writer.old) (W.contents writer.new)
        (with_feed (outcome_text outcome.now))) }
    ensures part { OnErr result (AppendsPart (W.contents writer.old) (W.contents writer.new)
        (with_feed (outcome_text outcome.now))) }
    ensures late { IfErr result IsLate }
{
    let line = outcome_line(alloc, outcome)?;
    write_bytes(writer, line.as_bytes())
}

/// Runs one event, and writes its line, unless memory was wanting.
fn run_and_write<W: Write>(
    alloc: Global,
    world: &mut World,
    event: Event,
    writer: &mut W,
) -> Result<(), RunFault>
    ensures worlds { OnOk result (world.new ≡ (step MAX_HELD world.old event).world) }
    ensures lines { OnOk result (Appends (W.contents writer.old) (W.contents writer.new)
        (with_feed (outcome_text (step MAX_HELD world.old event).outcome))) }
    ensures part { OnErr result (AppendsPart (W.contents writer.old) (W.contents writer.new)
        (with_feed (outcome_text (step MAX_HELD world.old event).outcome))) }
    ensures late { IfErr result IsLate }
{
    let outcome = run_event(alloc, world, event)?;
    write_outcome(alloc, &outcome, writer)
}

/// Runs the events in order, and writes a line for each.
fn run_events<W: Write>(
    alloc: Global,
    world: &mut World,
    events: Vec<Event>,
    writer: &mut W,
) -> Result<(), RunFault>
    ensures worlds { OnOk result (world.new ≡ world_after world.old events.items) }
    ensures lines { OnOk result (Appends (W.contents writer.old) (W.contents writer.new)
        (outcome_lines world.old events.items)) }
    ensures part { OnErr result (AppendsPart (W.contents writer.old) (W.contents writer.new)
        (outcome_lines world.old events.items)) }
    ensures late { IfErr result IsLate }
{
    for event in events {
        run_and_write(alloc, world, event, writer)?;
    }
    Ok(())
}

/// Writes a line for each of the cells.
fn write_each_cell<W: Write>(
    alloc: Global,
    set: &ChainSet,
    cells: &[(TableId, u64, u64)],
    writer: &mut W,
) -> Result<(), RunFault>
    ensures lines { OnOk result (Appends (W.contents writer.old) (W.contents writer.new)
        (cell_lines set.now.tables cells.now)) }
    ensures part { OnErr result (AppendsPart (W.contents writer.old) (W.contents writer.new)
        (cell_lines set.now.tables cells.now)) }
    ensures late { IfErr result IsLate }
{
    for (table, key, value) in cells {
        let line = cell_line(alloc, set.table_name(*table), *key, *value)?;
        write_bytes(writer, line.as_slice())?;
    }
    Ok(())
}

/// How the run ends that is explained so.
pub(crate) fn ending_of(explained: &Explained) -> Ending
    ensures { result ≡ ending_of explained.now }
{
    match explained {
        Explained::Order(_) => Ending::Ordered,
        Explained::Cycle(_) => Ending::Cyclic,
    }
}

/// The line of an order or a cycle.
fn explained_line(alloc: Global, explained: &Explained) -> Result<String, AllocError>
    ensures { IfOk result (λ text. string_bytes text ≡ explained_line explained.now) }
{
    match explained {
        Explained::Order(chains) => chains_line(alloc, "order", chains.as_slice()),
        Explained::Cycle(chains) => chains_line(alloc, "cycle", chains.as_slice()),
    }
}

/// Writes the line of an order that explains what the servers did, or of a cycle.
fn write_explained<W: Write>(
    alloc: Global,
    explained: &Explained,
    writer: &mut W,
) -> Result<(), RunFault>
    ensures line { OnOk result (Appends (W.contents writer.old) (W.contents writer.new)
        (explained_line explained.now)) }
    ensures part { OnErr result (AppendsPart (W.contents writer.old) (W.contents writer.new)
        (explained_line explained.now)) }
    ensures late { IfErr result IsLate }
{
    let line = explained_line(alloc, explained)?;
    write_bytes(writer, line.as_bytes())
}

/// Writes the lines of the nonzero cells, tables in order of declaration and keys rising, and the
/// one that explains what the servers did.
fn write_end<W: Write>(alloc: Global, world: &World, writer: &mut W) -> Result<Ending, RunFault>
    ensures ok { IfOk result (λ ending. (printed : List ℕ)
        × EndPrints world.now.set world.now ending printed
        × Appends (W.contents writer.old) (W.contents writer.new) printed) }
    ensures part { OnErr result (WritesEnd world.now.set world.now
        (W.contents writer.old) (W.contents writer.new)) }
    ensures late { IfErr result IsLate }
{
    let cells = world.cells(alloc)?;
    write_each_cell(alloc, world.set(), cells.as_slice(), writer)?;
    let explained = explain(alloc, world)?;
    write_explained(alloc, &explained, writer)?;
    Ok(ending_of(&explained))
}

/// Runs the events in a new world, and writes the line of each, then those of the cells and the one
/// that explains the run, and behind it what is asked for.
fn run_script<W: Write>(
    alloc: Global,
    set: ChainSet,
    events: Vec<Event>,
    options: RunOptions,
    writer: &mut W,
) -> Result<Ending, RunFault>
    ensures ok { IfOk result (λ ending. (printed : List ℕ)
        × RunPrintsWith options.owed set events.items ending printed
        × Appends (W.contents writer.old) (W.contents writer.new) printed) }
    ensures part { OnErr result (Keeps (W.contents writer.old) (W.contents writer.new)
        ⊎ ((part : List ℕ) × BeginsRunWith options.owed set events.items part
        × Appends (W.contents writer.old) (W.contents writer.new) part)) }
    ensures late { IfErr result IsLate }
{
    let keepers = empty_keepers(alloc, &set)?;
    let mut world = World::new(alloc, set, keepers)?;
    run_events(alloc, &mut world, events, writer)?;
    let ending = write_end(alloc, &world, writer)?;
    write_rest(alloc, &world, options, writer)?;
    Ok(ending)
}

/// Writes the last lines of a run that came to this world: those of the nonzero cells, the one that
/// explains what the servers did, and behind it what the options ask for.
pub fn write_last_lines<W: Write>(
    alloc: Global,
    world: &World,
    options: RunOptions,
    writer: &mut W,
) -> Result<Ending, RunFault>
    ensures ok { IfOk result (λ ending. (printed : List ℕ)
        × EndPrintsWith options.owed world.now ending printed
        × Appends (W.contents writer.old) (W.contents writer.new) printed) }
    ensures late { IfErr result IsLate }
{
    let ending = write_end(alloc, world, writer)?;
    write_rest(alloc, world, options, writer)?;
    Ok(ending)
}

/// Judges the script of a set that is read already, runs it in a new world, and writes what
/// [`run_texts`] does.
pub fn run_over_set<W: Write>(
    alloc: Global,
    set: ChainSet,
    script: &[u8],
    options: RunOptions,
    writer: &mut W,
) -> Result<Ending, RunFault>
    requires { IsSet set }
    ensures ok { IfOk result (λ ending. (printed : List ℕ)
        × PrintsWith options (text_of set) script.now ending printed
        × Appends (W.contents writer.old) (W.contents writer.new) printed) }
    ensures err { IfErr result (λ fault. StopsFor (text_of set) script.now
        (Keeps (W.contents writer.old) (W.contents writer.new)) fault) }
    ensures part { OnErr result (WritesPartWith options (text_of set) script.now
        (W.contents writer.old) (W.contents writer.new)) }
{
    let events = read_script(alloc, &set, script)?;
    run_script(alloc, set, events, options, writer)
}

/// Judges the set text and then the script, runs the script in a new world, and writes a line for
/// each event, a line for each nonzero cell, and the line of an order that explains the run, or of
/// a cycle; behind it what the options ask for. Where the set is accepted it is an order. The last
/// lines take n log n steps for n touches of all entries.
pub fn run_texts<W: Write>(
    alloc: Global,
    set: &[u8],
    script: &[u8],
    options: RunOptions,
    writer: &mut W,
) -> Result<Ending, RunFault>
    ensures ok { IfOk result (λ ending. (printed : List ℕ)
        × PrintsWith options set.now script.now ending printed
        × Appends (W.contents writer.old) (W.contents writer.new) printed) }
    ensures err { IfErr result (λ fault.
        StopsFor set.now script.now (Keeps (W.contents writer.old) (W.contents writer.new)) fault) }
    ensures part { OnErr result (WritesPartWith options set.now script.now
        (W.contents writer.old) (W.contents writer.new)) }
{
    let set = read_set(alloc, set)?;
    run_over_set(alloc, set, script, options, writer)
}
