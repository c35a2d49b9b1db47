//! The shapes of a cycle's links.
ghost use Rattle.std.specs.Prelude.{◌≡◌, ◌++◌, IfOk, OnOk};
ghost use Rattle.lynx_chart.specs.Links.{all_links, cell_text, link_of, link_shapes, link_told, met_shapes, node_spot, order_text};
ghost use Rattle.lynx_chart.specs.Meetings.{meeting_of};
ghost use Rattle.lynx_chart.specs.Shapes.{drawn, shape_text};

use crate::lines::put_link;
use crate::meeting::{Meeting, Node, linked, meeting_of};
use crate::rows::spot_at;
use crate::spot::Spot;
use lynx_names::{ChainId, Memory};
use lynx_order::Explained;
use lynx_set::ChainSet;
use lynx_text::printing::put_number;
use lynx_world::World;
use std::alloc::Global;

/// The box of an entry that stands there.
fn node_spot(stamps: &[u64], node: &Node) -> Result<Spot, Memory>
    ensures { IfOk result (λ spot. spot ≡ node_spot stamps.now node.now) }
{
    spot_at(stamps, node.server, node.stamp)
}

/// Writes the cell of a meeting.
fn put_cell(
    alloc: Global,
    out: &mut Vec<u8>,
    set: &ChainSet,
    meeting: &Meeting,
) -> Result<(), Memory>
    ensures { OnOk result (out.new.items ≡ out.old.items ++ cell_text set.now meeting.now) }
{
    out.extend_from_slice(set.table_name(meeting.table))?;
    out.extend_from_slice(b" ".as_slice())?;
    put_number(alloc, out, meeting.key)
}

/// Writes which chain comes before which.
fn put_order(alloc: Global, out: &mut Vec<u8>, link: &(ChainId, ChainId)) -> Result<(), Memory>
    ensures { OnOk result (out.new.items ≡ out.old.items ++ order_text link.now) }
{
    let (one, other) = (&link.0, &link.1);
    let text = format!(in alloc; "{one} before {other} by ")?;
    out.extend_from_slice(text.as_bytes())?;
    Ok(())
}

/// The cell of a meeting.
fn cell_text(alloc: Global, set: &ChainSet, meeting: &Meeting) -> Result<Vec<u8>, Memory>
    ensures { IfOk result (λ text. text.items ≡ cell_text set.now meeting.now) }
{
    let mut text = Vec::new(alloc);
    put_cell(alloc, &mut text, set, meeting)?;
    Ok(text)
}

/// What a link tells.
fn link_told(
    alloc: Global,
    set: &ChainSet,
    link: &(ChainId, ChainId),
    meeting: &Meeting,
) -> Result<Vec<u8>, Memory>
    ensures { IfOk result (λ text. text.items ≡ link_told set.now link.now meeting.now) }
{
    let mut text = Vec::new(alloc);
    put_order(alloc, &mut text, link)?;
    put_cell(alloc, &mut text, set, meeting)?;
    Ok(text)
}

/// Writes the shape of a link, the chains of which meet so.
fn put_met(
    alloc: Global,
    out: &mut Vec<u8>,
    set: &ChainSet,
    stamps: &[u64],
    number: usize,
    link: &(ChainId, ChainId),
    meeting: &Meeting,
) -> Result<(), Memory>
    ensures { OnOk result (out.new.items ≡ out.old.items
        ++ shape_text (link_of set.now stamps.now number link.now meeting.now)) }
{
    let cell = cell_text(alloc, set, meeting)?;
    let told = link_told(alloc, set, link, meeting)?;
    let from = node_spot(stamps, &meeting.before)?;
    let to = node_spot(stamps, &meeting.after)?;
    let (shown, whole) = (cell.as_slice(), told.as_slice());
    put_link(alloc, out, number, &from, &to, shown, whole)?;
    Ok(())
}

/// Writes the shape of a link, if its chains meet.
fn put_found(
    alloc: Global,
    out: &mut Vec<u8>,
    set: &ChainSet,
    stamps: &[u64],
    number: usize,
    link: &(ChainId, ChainId),
    met: &Option<Meeting>,
) -> Result<(), Memory>
    ensures { OnOk result (out.new.items ≡ out.old.items
        ++ drawn (met_shapes set.now stamps.now number link.now met.now)) }
{
    match met {
        Some(meeting) => put_met(alloc, out, set, stamps, number, link, meeting),
        None => Ok(()),
    }
}

/// Writes the shape of a link, if its chains meet.
fn put_link_of(
    alloc: Global,
    out: &mut Vec<u8>,
    world: &World,
    stamps: &[u64],
    number: usize,
    link: &(ChainId, ChainId),
) -> Result<(), Memory>
    ensures { OnOk result (out.new.items ≡ out.old.items
        ++ drawn (met_shapes world.now.set stamps.now number link.now
        (meeting_of world.now.set link.now.0 link.now.1 world.now.list))) }
{
    let met = meeting_of(alloc, world, &link.0, &link.1)?;
    put_found(alloc, out, world.set(), stamps, number, link, &met)?;
    Ok(())
}

/// Writes a shape for each of the links.
fn put_each_link(
    alloc: Global,
    out: &mut Vec<u8>,
    world: &World,
    stamps: &[u64],
    links: &[(ChainId, ChainId)],
) -> Result<(), Memory>
    ensures { OnOk result (out.new.items ≡ out.old.items
        ++ drawn (link_shapes world.now.set world.now.list stamps.now 0 links.now)) }
{
    for (number, link) in links.iter().enumerate() {
        put_link_of(alloc, out, world, stamps, number, link)?;
    }
    Ok(())
}

/// Writes a shape for each link of a cycle.
pub(crate) fn put_links(
    alloc: Global,
    out: &mut Vec<u8>,
    world: &World,
    stamps: &[u64],
    explained: &Explained,
) -> Result<(), Memory>
    ensures { OnOk result (out.new.items ≡ out.old.items
        ++ drawn (all_links world.now.set world.now.list stamps.now explained.now)) }
{
    match explained {
        Explained::Order(_) => Ok(()),
        Explained::Cycle(chains) => {
            let links = linked(alloc, chains.as_slice())?;
            put_each_link(alloc, out, world, stamps, links.as_slice())
        }
    }
}
