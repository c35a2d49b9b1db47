//! A run over stores, from its script to its last line.
ghost use Rattle.std.specs.Prelude.{◌≡◌, ◌++◌, ℕ, List, IfOk, IsOk, OnOk, length};
ghost use Rattle.std.specs.Io.KnownBytes.{Appends};
ghost use Rattle.lynx_entry.specs.declared.event.Outcome.{Outcome};
ghost use Rattle.lynx_server.specs.Serving.{Serving};
ghost use Rattle.lynx_store_files.specs.Closed.{AreClosed};
ghost use Rattle.lynx_rerun.specs.Events.{ComeTo};
ghost use Rattle.lynx_rerun.specs.Reruns.{EndsAs, Reruns, keepers_of, lines_of};

use crate::closing::{close_stores, keepers_of};
use crate::ending::write_end;
use crate::fault::RerunFault;
use crate::opening::open_all;
use crate::running::run_events;
use lynx_entry::Event;
use lynx_keep::Keeper;
use lynx_report::{Ending, RunOptions, read_script};
use lynx_server::Server;
use lynx_set::ChainSet;
use lynx_store_files::Stores;
use std::alloc::Global;
use std::io::Write;

/// Writes the last lines, unless the events were stopped.
fn end_after<K: Keeper, W: Write>(
    alloc: Global,
    set: &ChainSet,
    ran: Result<(), RerunFault>,
    keepers: &mut [K],
    options: RunOptions,
    writer: &mut W,
) -> Result<Ending, RerunFault>
    requires { OnOk ran (length keepers.old ≡ set.now.servers) }
    ensures many { length keepers.new ≡ length keepers.old }
    ensures ran { OnOk result (IsOk ran) }
    ensures ends { IfOk result (λ ending. (printed : List ℕ)
        × EndsAs K.terms set.now options.owed keepers.old keepers.new ending printed
        × Appends (W.contents writer.old) (W.contents writer.new) printed) }
{
    ran?;
    write_end(alloc, set, keepers, options, writer)
}

/// Runs the events at servers that are open, writes the lines of the run, and closes the stores, in
/// any case. The first fault is told.
fn run_and_close<K: Keeper + Drop, S: Stores<K>, W: Write>(
    alloc: Global,
    stores: &S,
    set: &ChainSet,
    mut servers: Vec<Server<K>>,
    events: Vec<Event>,
    options: RunOptions,
    writer: &mut W,
) -> Result<Ending, RerunFault>
    requires { length servers.items ≡ set.now.servers }
    ensures { IfOk result (λ ending. (outcomes : List Outcome) × (last : List (Serving K))
        × (read : List K) × (end_lines : List ℕ)
        × ComeTo K.terms set.now events.items outcomes servers.items last
        × EndsAs K.terms set.now options.owed (keepers_of last) read ending end_lines
        × AreClosed S.store_terms.closed read
        × Appends (W.contents writer.old) (W.contents writer.new)
        (lines_of outcomes ++ end_lines)) }
{
    let ran = run_events(alloc, set, &mut servers, events, writer);
    let mut keepers = keepers_of(alloc, servers)?;
    let ended = end_after(alloc, set, ran, keepers.as_mut_slice(), options, writer);
    let closed = close_stores(stores, keepers);
    let ending = ended?;
    closed?;
    Ok(ending)
}

/// Judges the script, opens the store of each server of the set in the folder, which is made where
/// there is none, runs the script, and writes what a run in memory writes: a line for each event,
/// those of the cells, that of an order or a cycle, and what the options ask for. The last lines
/// tell of all that the stores keep, from earlier runs too, which is read of them again. The stores
/// are closed in the end, also where a fault stops the run.
pub fn rerun<K: Keeper + Drop, S: Stores<K>, W: Write>(
    alloc: Global,
    stores: &S,
    folder: &str,
    set: &ChainSet,
    script: &[u8],
    options: RunOptions,
    writer: &mut W,
) -> Result<Ending, RerunFault>
    ensures { IfOk result (λ ending. (printed : List ℕ)
        × Reruns K.terms S.store_terms folder.now set.now script.now options.owed ending
        printed
        × Appends (W.contents writer.old) (W.contents writer.new) printed) }
{
    let events = read_script(alloc, set, script)?;
    let servers = open_all(alloc, stores, set, folder)?;
    run_and_close(alloc, stores, set, servers, events, options, writer)
}
