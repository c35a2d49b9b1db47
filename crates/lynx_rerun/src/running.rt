//! Running events, with a line for each.
ghost use Rattle.std.specs.Prelude.{List, OnOk};
ghost use Rattle.std.specs.Io.KnownBytes.{Appends};
ghost use Rattle.lynx_entry.specs.declared.event.Outcome.{Outcome};
ghost use Rattle.lynx_lex.specs.Lines.{with_feed};
ghost use Rattle.lynx_lines.specs.Printed.{outcome_text};
ghost use Rattle.lynx_rerun.specs.Events.{ComeTo, ComesTo};
ghost use Rattle.lynx_rerun.specs.Reruns.{lines_of};

use crate::events::apply;
use crate::fault::RerunFault;
use lynx_entry::Event;
use lynx_keep::Keeper;
use lynx_report::write_outcome;
use lynx_server::Server;
use lynx_set::ChainSet;
use std::alloc::Global;
use std::io::Write;

/// Runs one event, and writes its line.
fn run_and_write<K: Keeper + Drop, W: Write>(
    alloc: Global,
    set: &ChainSet,
    servers: &mut Vec<Server<K>>,
    event: Event,
    writer: &mut W,
) -> Result<(), RerunFault>
    ensures { OnOk result ((outcome : Outcome)
        × ComesTo K.terms set.now event outcome servers.old.items servers.new.items
        × Appends (W.contents writer.old) (W.contents writer.new)
        (with_feed (outcome_text outcome))) }
{
    let outcome = apply(alloc, set, servers, event)?;
    write_outcome(alloc, &outcome, writer)?;
    Ok(())
}

/// Runs the events in order, and writes a line for each.
pub(crate) fn run_events<K: Keeper + Drop, W: Write>(
    alloc: Global,
    set: &ChainSet,
    servers: &mut Vec<Server<K>>,
    events: Vec<Event>,
    writer: &mut W,
) -> Result<(), RerunFault>
    ensures { OnOk result ((outcomes : List Outcome)
        × ComeTo K.terms set.now events.items outcomes servers.old.items servers.new.items
        × Appends (W.contents writer.old) (W.contents writer.new) (lines_of outcomes)) }
{
    for event in events {
        run_and_write(alloc, set, servers, event, writer)?;
    }
    Ok(())
}
