//! The lines of groups through which a closed walk may offend.

ghost use Rattle.std.specs.Prelude.{◌≡◌, ◌++◌, OnOk};
ghost use Rattle.std.specs.List.{flat_map};
ghost use Rattle.lynx_graph.specs.Groups.{group_of, leaders_of};
ghost use Rattle.lynx_reasons.specs.Mixed.{is_mixed, mixed_line, mixed_lines, mixed_text};

use crate::groups::{meet_at_one_hop, put_names};
use lynx_graph::{Edge, Member, begin_at_one_server, group_of, leaders_of};
use lynx_names::{Memory, ProgramId};
use lynx_set::ChainSet;
use std::alloc::Global;

/// Whether some programs of the group begin at different servers, and some program of it meets
/// others at two of its hops.
fn is_mixed(set: &ChainSet, edges: &[Edge], leader: ProgramId, group: &[ProgramId]) -> bool
    ensures { result ≡ is_mixed set.now edges.now leader group.now }
{
    !begin_at_one_server(set, leader, group) && !meet_at_one_hop(set, edges, group)
}

/// Writes the line of a mixed group.
fn put_mixed_line(out: &mut Vec<u8>, set: &ChainSet, group: &[ProgramId]) -> Result<(), Memory>
    ensures { OnOk result (out.new.items ≡ out.old.items ++ mixed_line set.now group.now) }
{
    out.extend_from_slice(b"mixed".as_slice())?;
    put_names(out, set, group)?;
    out.push(b'\n')?;
    Ok(())
}

/// Writes the line of the group that the program leads, if it is mixed.
fn put_mixed(
    alloc: Global,
    out: &mut Vec<u8>,
    set: &ChainSet,
    edges: &[Edge],
    members: &[Member],
    leader: ProgramId,
) -> Result<(), Memory>
    ensures { OnOk result (out.new.items ≡ out.old.items
        ++ mixed_text set.now edges.now members.now leader) }
{
    let group = group_of(alloc, members, leader)?;
    if is_mixed(set, edges, leader, group.as_slice()) {
        put_mixed_line(out, set, group.as_slice())?;
    }
    Ok(())
}

/// Writes a line for each group that is mixed.
pub(crate) fn put_mixed_lines(
    alloc: Global,
    out: &mut Vec<u8>,
    set: &ChainSet,
    edges: &[Edge],
    members: &[Member],
) -> Result<(), Memory>
    ensures { OnOk result (out.new.items ≡ out.old.items
        ++ mixed_lines set.now edges.now members.now) }
{
    let leaders = leaders_of(alloc, members)?;
    for leader in leaders.as_slice() {
        put_mixed(alloc, out, set, edges, members, *leader)?;
    }
    Ok(())
}
