//! The lines of groups of programs.

ghost use Rattle.std.specs.Prelude.{◌≡◌, ◌++◌, ◌==◌, ◌||◌, OnOk, IfOk, length, map, filter, nat_lt};
ghost use Rattle.std.specs.List.{flat_map, list_any, enumerate_from};
ghost use Rattle.lynx_graph.specs.Groups.{group_of, leaders_of};
ghost use Rattle.lynx_reasons.specs.Groups.{group_line, group_lines, group_reason, hops_met, is_met, meet_at_one_hop, names_text, reason_word};

use lynx_check::Reason;
use lynx_graph::{Edge, Member, Place, begin_at_one_server, group_of, leaders_of};
use lynx_names::{Memory, ProgramId};
use lynx_set::ChainSet;
use lynx_text::printing::put_word;
use std::alloc::Global;

/// Why no walk through a group of programs offends.
#[derive(Clone, Copy)]
pub(crate) enum GroupReason {
    /// All programs of the group begin at one server.
    OneOrigin,
    /// No program of the group meets others at two of its hops.
    OneHop,
    /// No closed walk of the set offends.
    NoWalk,
    /// No walk of blocks of the set offends.
    Blocks,
}

/// Whether the hop meets another, or another instance of itself.
fn is_met(edges: &[Edge], place: &Place) -> bool
    ensures { result ≡ is_met edges.now place.now.program place.now.hop }
{
    edges
        .iter()
        .any(|edge| edge.left == *place || edge.right == *place)
}

/// How many hops of the program meet others.
fn hops_met(set: &ChainSet, edges: &[Edge], program: ProgramId) -> usize
    ensures { result ≡ hops_met set.now edges.now program }
{
    set.hops(program)
        .iter()
        .enumerate()
        .filter(|(hop, _)| is_met(edges, &Place { program, hop: *hop }))
        .count()
}

/// Whether no program of the group meets others at two of its hops.
pub(crate) fn meet_at_one_hop(set: &ChainSet, edges: &[Edge], group: &[ProgramId]) -> bool
    ensures { result ≡ meet_at_one_hop set.now edges.now group.now }
{
    group
        .iter()
        .all(|program| hops_met(set, edges, *program) < 2)
}

/// The first reason that holds of a group of an accepted set.
pub(crate) fn group_reason(
    set: &ChainSet,
    edges: &[Edge],
    reason: Reason,
    leader: ProgramId,
    group: &[ProgramId],
) -> GroupReason
    ensures { result ≡ group_reason set.now edges.now reason leader group.now }
{
    if begin_at_one_server(set, leader, group) {
        GroupReason::OneOrigin
    } else if meet_at_one_hop(set, edges, group) {
        GroupReason::OneHop
    } else {
        match reason {
            Reason::Walks => GroupReason::NoWalk,
            Reason::Blocks => GroupReason::Blocks,
        }
    }
}

fn reason_word(reason: GroupReason) -> &'static [u8]
    ensures { result.now ≡ reason_word reason }
{
    match reason {
        GroupReason::OneOrigin => b"one-origin",
        GroupReason::OneHop => b"one-hop",
        GroupReason::NoWalk => b"no-walk",
        GroupReason::Blocks => b"blocks",
    }
}

/// Writes the name of each program after a space.
pub(crate) fn put_names(
    out: &mut Vec<u8>,
    set: &ChainSet,
    group: &[ProgramId],
) -> Result<(), Memory>
    ensures { OnOk result (out.new.items ≡ out.old.items ++ names_text set.now group.now) }
{
    for program in group {
        put_word(out, set.program_name(*program))?;
    }
    Ok(())
}

/// Writes the line of the group that the program leads.
fn put_group_line(
    alloc: Global,
    out: &mut Vec<u8>,
    set: &ChainSet,
    edges: &[Edge],
    reason: Reason,
    members: &[Member],
    leader: ProgramId,
) -> Result<(), Memory>
    ensures { OnOk result (out.new.items ≡ out.old.items
        ++ group_line set.now edges.now reason members.now leader) }
{
    let group = group_of(alloc, members, leader)?;
    let why = group_reason(set, edges, reason, leader, group.as_slice());
    out.extend_from_slice(b"group".as_slice())?;
    put_word(out, reason_word(why))?;
    put_names(out, set, group.as_slice())?;
    out.push(b'\n')?;
    Ok(())
}

/// Writes a line for each group of an accepted set.
pub(crate) fn put_group_lines(
    alloc: Global,
    out: &mut Vec<u8>,
    set: &ChainSet,
    edges: &[Edge],
    reason: Reason,
    members: &[Member],
) -> Result<(), Memory>
    ensures { OnOk result (out.new.items ≡ out.old.items
        ++ group_lines set.now edges.now reason members.now) }
{
    let leaders = leaders_of(alloc, members)?;
    for leader in leaders.as_slice() {
        put_group_line(alloc, out, set, edges, reason, members, *leader)?;
    }
    Ok(())
}
