//! Large groups of programs of one origin: they stand in a box, and the conflicts among them are
//! counted in its label.

ghost use Rattle.std.specs.Prelude.{◌≡◌, ◌++◌, IfOk, OnOk, filter, length};
ghost use Rattle.std.specs.List.{flat_map, list_any};
ghost use Rattle.lynx_graph.specs.Groups.{leader_of};
ghost use Rattle.lynx_draw.specs.Boxes.{below_line, box_head, box_label, box_text, boxed_programs, boxes_of, edges_in, is_boxed, is_large, last_spot, origin_text, rows_of};

use crate::captions::{begin_words, box_start, label_start, pair_words, unseen_end};
use crate::clusters::put_cluster;
use crate::nodes::spot_at;
use crate::spot::{Spot, put_spot};
use lynx_graph::{Edge, Member, begin_at_one_server, group_of, leader_of, leaders_of};
use lynx_names::{Items, Memory, ProgramId};
use lynx_set::ChainSet;
use lynx_text::printing::put_number;
use std::alloc::Global;

/// The programs of a group of one origin of which the conflicts among them are drawn, at most.
const MAX_LINED: usize = 10;

/// The programs that stand side by side in a box.
const ROW: usize = 7;

/// The programs of a set with their leaders, and the leaders of its large groups.
#[derive(Drop)]
pub(crate) struct Boxes {
    pub members: Items<Member>,
    pub leaders: Items<ProgramId>,
}

/// Whether the program leads a large group.
fn is_large(
    alloc: Global,
    set: &ChainSet,
    members: &[Member],
    leader: ProgramId,
) -> Result<bool, Memory>
    ensures { IfOk result (λ large. large ≡ is_large set.now members.now leader) }
{
    let group = group_of(alloc, members, leader)?;
    let programs = group.as_slice();
    Ok(programs.len() > MAX_LINED && begin_at_one_server(set, leader, programs))
}

/// The leaders of large groups.
fn large_leaders(
    alloc: Global,
    set: &ChainSet,
    members: &[Member],
    leaders: &[ProgramId],
) -> Result<Items<ProgramId>, Memory>
    ensures { IfOk result (λ large. large ≡ filter (is_large set.now members.now) leaders.now) }
{
    let mut large = Items::new(alloc);
    for leader in leaders {
        if is_large(alloc, set, members, *leader)? {
            large.push(*leader)?;
        }
    }
    Ok(large)
}

/// The boxes of the programs that have these leaders.
pub(crate) fn boxes_of(
    alloc: Global,
    set: &ChainSet,
    members: Items<Member>,
) -> Result<Boxes, Memory>
    ensures { IfOk result (λ boxes. boxes ≡ boxes_of set.now members) }
{
    let all = leaders_of(alloc, members.as_slice())?;
    let leaders = large_leaders(alloc, set, members.as_slice(), all.as_slice())?;
    Ok(Boxes { members, leaders })
}

/// Whether a program is of a large group.
pub(crate) fn is_boxed(boxes: &Boxes, program: ProgramId) -> bool
    ensures { result ≡ is_boxed boxes.now program }
{
    let own = leader_of(boxes.members.as_slice(), program);
    boxes.leaders.as_slice().iter().any(|leader| *leader == own)
}

/// How many conflicts there are in the group that the program leads.
fn count_edges(boxes: &Boxes, edges: &[Edge], leader: ProgramId) -> usize
    ensures { result ≡ length (edges_in boxes.now edges.now leader) }
{
    let members = boxes.members.as_slice();
    edges
        .iter()
        .filter(|edge| leader_of(members, edge.left.program) == leader)
        .count()
}

/// Writes where all programs of a group begin.
fn put_origin(
    alloc: Global,
    out: &mut Vec<u8>,
    set: &ChainSet,
    leader: ProgramId,
) -> Result<(), Memory>
    ensures { OnOk result (out.new.items ≡ out.old.items ++ origin_text set.now leader) }
{
    match set.origin(leader) {
        Some(server) => put_number(alloc, out, u64::from(server.number())),
        None => Ok(()),
    }
}

/// Writes the label of a box with that many programs.
fn put_label(
    alloc: Global,
    out: &mut Vec<u8>,
    set: &ChainSet,
    boxes: &Boxes,
    edges: &[Edge],
    leader: ProgramId,
    programs: usize,
) -> Result<(), Memory>
    ensures { OnOk result (out.new.items ≡ out.old.items
        ++ box_label set.now boxes.now edges.now leader programs) }
{
    put_number(alloc, out, programs as u64)?;
    out.extend_from_slice(begin_words())?;
    put_origin(alloc, out, set, leader)?;
    out.extend_from_slice(b": ".as_slice())?;
    put_number(alloc, out, count_edges(boxes, edges, leader) as u64)?;
    out.extend_from_slice(pair_words())?;
    Ok(())
}

/// Writes the beginning of a box with that many programs.
fn put_head(
    alloc: Global,
    out: &mut Vec<u8>,
    set: &ChainSet,
    boxes: &Boxes,
    edges: &[Edge],
    leader: ProgramId,
    programs: usize,
) -> Result<(), Memory>
    ensures { OnOk result (out.new.items ≡ out.old.items
        ++ box_head set.now boxes.now edges.now leader programs) }
{
    out.extend_from_slice(box_start())?;
    out.extend_from_slice(set.program_name(leader))?;
    out.extend_from_slice(label_start())?;
    put_label(alloc, out, set, boxes, edges, leader, programs)?;
    out.extend_from_slice(b"\";\n".as_slice())?;
    Ok(())
}

/// Writes the programs of a box, each once: programs of one origin meet none of others.
fn put_programs(
    alloc: Global,
    out: &mut Vec<u8>,
    set: &ChainSet,
    programs: &[ProgramId],
) -> Result<(), Memory>
    ensures { OnOk result (out.new.items ≡ out.old.items ++ boxed_programs set.now programs.now) }
{
    for program in programs {
        put_cluster(alloc, out, set, false, *program, false)?;
    }
    Ok(())
}

/// Each program with the one that stands a row below it.
fn rows_of(alloc: Global, programs: &[ProgramId]) -> Result<Vec<(ProgramId, ProgramId)>, Memory>
    ensures { IfOk result (λ rows. rows.items ≡ rows_of programs.now) }
{
    let below = programs.iter().skip(ROW);
    let rows = programs
        .iter()
        .zip(below)
        .map(|(program, below)| (*program, *below))
        .collect(alloc)?;
    Ok(rows)
}

/// Where the last hop of a program is drawn.
fn last_spot(set: &ChainSet, program: ProgramId) -> Spot
    ensures { result ≡ last_spot set.now program }
{
    spot_at(program, set.hops(program).len().saturating_sub(1), false)
}

/// Writes that the one program stands below the other.
fn put_below(
    alloc: Global,
    out: &mut Vec<u8>,
    set: &ChainSet,
    pair: &(ProgramId, ProgramId),
) -> Result<(), Memory>
    ensures { OnOk result (out.new.items ≡ out.old.items ++ below_line set.now pair.now) }
{
    out.extend_from_slice(b"    ".as_slice())?;
    put_spot(alloc, out, set, &last_spot(set, pair.0))?;
    out.extend_from_slice(b" -> ".as_slice())?;
    put_spot(alloc, out, set, &spot_at(pair.1, 0, false))?;
    out.extend_from_slice(unseen_end())?;
    Ok(())
}

/// Writes for each pair that the one program stands below the other.
fn put_rows(
    alloc: Global,
    out: &mut Vec<u8>,
    set: &ChainSet,
    rows: &[(ProgramId, ProgramId)],
) -> Result<(), Memory>
    ensures { OnOk result
        (out.new.items ≡ out.old.items ++ flat_map (below_line set.now) rows.now) }
{
    for pair in rows {
        put_below(alloc, out, set, pair)?;
    }
    Ok(())
}

/// Writes the box of the group that the program leads.
pub(crate) fn put_box(
    alloc: Global,
    out: &mut Vec<u8>,
    set: &ChainSet,
    boxes: &Boxes,
    edges: &[Edge],
    leader: ProgramId,
) -> Result<(), Memory>
    ensures { OnOk result (out.new.items ≡ out.old.items
        ++ box_text set.now boxes.now edges.now leader) }
{
    let group = group_of(alloc, boxes.members.as_slice(), leader)?;
    let programs = group.as_slice();
    put_head(alloc, out, set, boxes, edges, leader, programs.len())?;
    put_programs(alloc, out, set, programs)?;
    let rows = rows_of(alloc, programs)?;
    put_rows(alloc, out, set, rows.as_slice())?;
    out.extend_from_slice(b"  }\n".as_slice())?;
    Ok(())
}
