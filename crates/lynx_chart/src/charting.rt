//! The whole chart.
ghost use Rattle.std.specs.Prelude.{◌≡◌, ◌++◌, IfOk, OnOk};
ghost use Rattle.lynx_order.specs.Explained.{CycleIsRight};
ghost use Rattle.lynx_chart.specs.Charts.{all_shapes, chart_of, event_shapes, head_of};
ghost use Rattle.lynx_chart.specs.Drawings.{given};
ghost use Rattle.lynx_chart.specs.Meetings.{AreMet};
ghost use Rattle.lynx_chart.specs.Shapes.{drawn};

use crate::captions::put_style;
use crate::chains::{Drawing, put_chains, put_refusals};
use crate::fates::notices_of;
use crate::frames::{height_of, last_line, put_frame, put_notes, width_of};
use crate::links::put_links;
use crate::messages::{rows_with, sent_in};
use crate::restarts::put_restarts;
use crate::rows::{row_behind, stamps_of};
use crate::templates::{DESCRIBED, ENDS, OPENING};
use crate::values::{Value, put_filled};
use lynx_entry::Outcome;
use lynx_names::Memory;
use lynx_order::Explained;
use lynx_world::World;
use std::alloc::Global;

/// Writes what comes before the shapes.
fn put_top(
    alloc: Global,
    out: &mut Vec<u8>,
    servers: u8,
    rows: u32,
    explained: &Explained,
) -> Result<(), Memory>
    ensures { OnOk result (out.new.items ≡ out.old.items ++ head_of servers rows explained.now) }
{
    let last = last_line(alloc, explained)?;
    let width = Value::Number(width_of(servers));
    let height = Value::Number(height_of(rows));
    put_filled(alloc, out, OPENING, &[width, height, width, height])?;
    put_filled(alloc, out, DESCRIBED, &[Value::Plain(last.as_slice())])?;
    put_style(out)?;
    Ok(())
}

/// Writes the shapes of what was refused, of chains, of restarts and of links.
fn put_events(
    alloc: Global,
    out: &mut Vec<u8>,
    by: &Drawing<'_>,
    outcomes: &[Outcome],
) -> Result<(), Memory>
    ensures { OnOk result (out.new.items ≡ out.old.items ++ drawn (event_shapes (given by.now)
        by.now.world.now.list outcomes.now)) }
{
    put_refusals(alloc, out, by)?;
    put_chains(alloc, out, by)?;
    put_restarts(alloc, out, by.world, by.stamps, outcomes)?;
    put_links(alloc, out, by.world, by.stamps, by.explained)?;
    Ok(())
}

/// Writes all shapes, where there are so many rows.
fn put_shapes(
    alloc: Global,
    out: &mut Vec<u8>,
    by: &Drawing<'_>,
    rows: u32,
    outcomes: &[Outcome],
) -> Result<(), Memory>
    ensures { OnOk result (out.new.items ≡ out.old.items ++ drawn (all_shapes (given by.now) rows
        by.now.world.now.list outcomes.now)) }
{
    let servers = by.world.set().servers();
    put_notes(alloc, out, by.explained)?;
    put_frame(alloc, out, servers, rows)?;
    put_events(alloc, out, by, outcomes)?;
    Ok(())
}

/// The chart of what the servers of a world did, as a picture in SVG: with the outcomes by which
/// their messages fared and servers restarted, and an order or a cycle that explains them. Its cost
/// grows with the square of the count of entries, in short steps: four thousand take a tenth of a
/// second. The only errors are that a growth was refused, and that there are more rows than
/// 2^32, which fit no memory.
#[tactic(auto, using(crate::proofs::Linked::cycle_met))]
pub fn chart(
    alloc: Global,
    world: &World,
    outcomes: &[Outcome],
    explained: &Explained,
) -> Result<Vec<u8>, Memory>
    ensures text { IfOk result (λ text. text.items
        ≡ chart_of world.now.set world.now.list outcomes.now explained.now) }
    // Each link of a cycle is drawn.
    ensures links { CycleIsRight world.now.set world.now.list explained.now
        → AreMet world.now.set world.now.list explained.now }
{
    let all = stamps_of(alloc, world)?;
    let stamps = all.as_slice();
    let sent = sent_in(alloc, world, stamps)?;
    let messages = sent.as_slice();
    let told = notices_of(alloc, outcomes)?;
    let notices = told.as_slice();
    let first = row_behind(stamps)?;
    let rows = rows_with(first, messages)?;
    let servers = world.set().servers();
    let by = Drawing {
        world,
        explained,
        stamps,
        notices,
        messages,
    };
    let mut out = Vec::new(alloc);
    put_top(alloc, &mut out, servers, rows, explained)?;
    put_shapes(alloc, &mut out, &by, rows, outcomes)?;
    out.extend_from_slice(ENDS)?;
    Ok(out)
}
