//! The chart of a run, as it is written: docs/FORMATS.md has its lines.
ghost use Rattle.std.specs.Prelude.{ℕ, List, IfErr, IfOk, OnErr};
ghost use Rattle.std.specs.Io.KnownBytes.{Appends, Keeps};
ghost use Rattle.lynx_report.specs.Charts.{BeginsChart, Charts, IsChart, NoChartFor};

use crate::run::{Ending, RunFault, ending_of, read_script, read_set};
use crate::running::run_in_new_world;
use crate::writing::write_bytes;
use lynx_chart::chart;
use lynx_names::Memory;
use lynx_order::explain;
use lynx_set::ChainSet;
use lynx_world::Event;
use std::alloc::Global;
use std::io::Write;

/// Judges the set text and then the script, runs the script in a new world, and writes the chart of
/// what the servers did and of an order that explains it, or of a cycle. The whole chart is made
/// before any of it is written. Its cost grows with the square of the count of events.
pub fn chart_texts<W: Write>(
    alloc: Global,
    set: &[u8],
    script: &[u8],
    writer: &mut W,
) -> Result<Ending, RunFault>
    ensures ok { IfOk result (λ ending. (chart : List ℕ) × Charts set.now script.now ending chart
        × Appends (W.contents writer.old) (W.contents writer.new) chart) }
    ensures part { OnErr result (BeginsChart set.now script.now (W.contents writer.old)
        (W.contents writer.new)) }
    ensures err { IfErr result (λ fault. NoChartFor set.now script.now
        (Keeps (W.contents writer.old) (W.contents writer.new)) fault) }
{
    let set = read_set(alloc, set)?;
    let events = read_script(alloc, &set, script)?;
    let (ending, chart) = chart_of(alloc, set, events)?;
    write_bytes(writer, chart.as_slice())?;
    Ok(ending)
}

/// How a run of the events ends, and its chart.
fn chart_of(alloc: Global, set: ChainSet, events: Vec<Event>) -> Result<(Ending, Vec<u8>), Memory>
    ensures { IfOk result (λ drawn. IsChart set events.items drawn.0 drawn.1.items) }
{
    let ran = run_in_new_world(alloc, set, events)?;
    let explained = explain(alloc, &ran.world)?;
    let drawn = chart(alloc, &ran.world, ran.outcomes.as_slice(), &explained)?;
    Ok((ending_of(&explained), drawn))
}
