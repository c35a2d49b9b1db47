//! The summary of a verdict, for people.

ghost use Rattle.std.specs.Prelude.{◌≡◌, ◌++◌, IfOk, OnOk, take};
ghost use Rattle.lynx_set.specs.Rules.{IsSet};
ghost use Rattle.lynx_check.specs.Verdicts.{Judges};
ghost use Rattle.lynx_graph.specs.Edges.{edges_of};
ghost use Rattle.lynx_graph.specs.Groups.{leaders_of};
ghost use Rattle.lynx_graph.specs.Together.{AreLed};
ghost use Rattle.lynx_reasons.specs.Summaries.{accepted_head, accepted_lines, blame_line, blame_lines, cycle_head, cycle_lines, edges, entered_at, fine_line, fine_lines, hop_text, IsSummary, left_at, meeting_line, meeting_lines, met_text, more_line, offending_end, offending_lines, reason_text, two_text};

use crate::blame::put_culprit;
use crate::culprit::Culprit;
use crate::groups::{GroupReason, group_reason, put_names};
use crate::hop_lines::line_of;
use crate::meets::{put_server, put_tables};
use crate::search::culprits_of;
use lynx_check::{Reason, Verdict};
use lynx_graph::{Edge, Member, Place, Visit, conflict_edges, group_of, leaders_of, members_of};
use lynx_names::{Memory, ProgramId};
use lynx_set::ChainSet;
use lynx_text::printing::{put_number, put_word};
use std::alloc::{AllocError, Global};

/// Conflicts of a cycle that are told, at most.
const MAX_MEETINGS: usize = 4;

/// Groups of an accepted set that are told, at most.
const MAX_GROUPS: usize = 8;

/// The conflict edges of a walk: each visit with the next, and the last with the first.
pub fn walk_edges(alloc: Global, walk: &[Visit]) -> Result<Vec<(Visit, Visit)>, AllocError>
    ensures { IfOk result (λ found. found.items ≡ edges walk.now) }
{
    let next = walk.iter().skip(1).chain(walk.iter().take(1));
    walk.iter()
        .zip(next)
        .map(|(visit, next)| (*visit, *next))
        .collect(alloc)
}

fn put(out: &mut Vec<u8>, bytes: &[u8]) -> Result<(), Memory>
    ensures { OnOk result (out.new.items ≡ out.old.items ++ bytes.now) }
{
    out.extend_from_slice(bytes)?;
    Ok(())
}

/// Writes a hop, and the line of the set's text on which it stands.
#[tactic(auto, unfolding(crate::specs::Summaries::hop_text))]
fn put_hop(alloc: Global, out: &mut Vec<u8>, set: &ChainSet, place: &Place) -> Result<(), Memory>
    requires { IsSet set.now }
    ensures { OnOk result (out.new.items ≡ out.old.items ++ hop_text set.now place.now) }
{
    out.extend_from_slice(b"hop ".as_slice())?;
    put_number(alloc, out, place.hop as u64)?;
    out.extend_from_slice(b" of".as_slice())?;
    put_word(out, set.program_name(place.program))?;
    out.extend_from_slice(b" (line ".as_slice())?;
    put_number(alloc, out, line_of(set, place) as u64)?;
    out.extend_from_slice(b")".as_slice())?;
    Ok(())
}

/// Writes two hops that meet.
#[tactic(auto, unfolding(crate::specs::Summaries::two_text))]
fn put_two(
    alloc: Global,
    out: &mut Vec<u8>,
    set: &ChainSet,
    left: &Place,
    right: &Place,
) -> Result<(), Memory>
    requires { IsSet set.now }
    ensures { OnOk result (out.new.items ≡ out.old.items ++ two_text set.now left.now right.now) }
{
    put_hop(alloc, out, set, left)?;
    out.extend_from_slice(b" meets ".as_slice())?;
    put_hop(alloc, out, set, right)
}

/// Writes where two hops meet.
#[tactic(auto, unfolding(crate::specs::Summaries::met_text))]
fn put_met(
    alloc: Global,
    out: &mut Vec<u8>,
    set: &ChainSet,
    left: &Place,
    right: &Place,
) -> Result<(), Memory>
    ensures { OnOk result (out.new.items ≡ out.old.items ++ met_text set.now left.now right.now) }
{
    out.extend_from_slice(b" at".as_slice())?;
    put_server(alloc, out, set, left)?;
    out.extend_from_slice(b" in".as_slice())?;
    put_tables(alloc, out, set, left, right)
}

/// The hop by which a visit is left.
fn left_at(visit: &Visit) -> Place
    ensures { result ≡ left_at visit.now }
{
    Place {
        program: visit.program,
        hop: visit.left,
    }
}

/// The hop by which a visit is entered.
fn entered_at(visit: &Visit) -> Place
    ensures { result ≡ entered_at visit.now }
{
    Place {
        program: visit.program,
        hop: visit.entered,
    }
}

/// Writes the line of a conflict of a cycle.
#[tactic(auto, unfolding(crate::specs::Summaries::meeting_line))]
fn put_meeting(
    alloc: Global,
    out: &mut Vec<u8>,
    set: &ChainSet,
    edge: &(Visit, Visit),
) -> Result<(), Memory>
    requires { IsSet set.now }
    ensures { OnOk result (out.new.items ≡ out.old.items ++ meeting_line set.now edge.now) }
{
    let left = left_at(&edge.0);
    let right = entered_at(&edge.1);
    out.extend_from_slice(b"  ".as_slice())?;
    put_two(alloc, out, set, &left, &right)?;
    put_met(alloc, out, set, &left, &right)?;
    out.push(b'\n')?;
    Ok(())
}

/// Writes the lines of these conflicts.
fn put_meetings(
    alloc: Global,
    out: &mut Vec<u8>,
    set: &ChainSet,
    edges: &[(Visit, Visit)],
) -> Result<(), Memory>
    requires { IsSet set.now }
    ensures { OnOk result (out.new.items ≡ out.old.items ++ meeting_lines set.now edges.now) }
{
    for edge in edges {
        put_meeting(alloc, out, set, edge)?;
    }
    Ok(())
}

/// Writes how many of so many aren't told, where that many are at most.
#[tactic(auto, unfolding(crate::specs::Summaries::more_line))]
fn put_more(alloc: Global, out: &mut Vec<u8>, count: usize, most: usize) -> Result<(), Memory>
    ensures { OnOk result (out.new.items ≡ out.old.items ++ more_line count most) }
{
    if most < count {
        out.extend_from_slice(b"  and ".as_slice())?;
        put_number(alloc, out, (count - most) as u64)?;
        out.extend_from_slice(b" more\n".as_slice())?;
    }
    Ok(())
}

/// Writes the line of programs without which the set is accepted.
#[tactic(auto, unfolding(crate::specs::Summaries::blame_line))]
fn put_blame_line(out: &mut Vec<u8>, set: &ChainSet, culprit: &Culprit) -> Result<(), Memory>
    ensures { OnOk result (out.new.items ≡ out.old.items ++ blame_line set.now culprit.now) }
{
    put(out, b"Look first at".as_slice())?;
    put_culprit(out, set, culprit)?;
    put(out, b", without which the set is accepted.".as_slice())?;
    out.push(b'\n')?;
    Ok(())
}

fn put_blame_lines(out: &mut Vec<u8>, set: &ChainSet, found: &[Culprit]) -> Result<(), Memory>
    ensures { OnOk result (out.new.items ≡ out.old.items ++ blame_lines set.now found.now) }
{
    for culprit in found {
        put_blame_line(out, set, culprit)?;
    }
    Ok(())
}

#[tactic(auto, unfolding(crate::specs::Summaries::cycle_head))]
fn put_cycle_head(out: &mut Vec<u8>) -> Result<(), Memory>
    ensures { OnOk result (out.new.items ≡ out.old.items ++ cycle_head) }
{
    put(
        out,
        b"These hops can meet in a circle, which no order explains:".as_slice(),
    )?;
    out.push(b'\n')?;
    Ok(())
}

#[tactic(auto, unfolding(crate::specs::Summaries::offending_end))]
fn put_offending_end(out: &mut Vec<u8>) -> Result<(), Memory>
    ensures { OnOk result (out.new.items ≡ out.old.items ++ offending_end) }
{
    put(
        out,
        b"lynx mend tells what makes it accepted, and --all lists every meeting.".as_slice(),
    )?;
    out.push(b'\n')?;
    Ok(())
}

#[tactic(auto, unfolding(crate::specs::Summaries::accepted_head))]
fn put_accepted_head(out: &mut Vec<u8>) -> Result<(), Memory>
    ensures { OnOk result (out.new.items ≡ out.old.items ++ accepted_head) }
{
    put(
        out,
        b"Whatever these programs do, a serial order explains it:".as_slice(),
    )?;
    out.push(b'\n')?;
    Ok(())
}

/// Writes the conflicts of a cycle, the first of them.
fn put_cycle(
    alloc: Global,
    out: &mut Vec<u8>,
    set: &ChainSet,
    edges: &[(Visit, Visit)],
) -> Result<(), Memory>
    requires { IsSet set.now }
    ensures { OnOk result (out.new.items ≡ out.old.items ++ cycle_lines set.now edges.now) }
{
    put_cycle_head(out)?;
    put_meetings(alloc, out, set, &edges[..MAX_MEETINGS.min(edges.len())])?;
    put_more(alloc, out, edges.len(), MAX_MEETINGS)
}

/// Writes the summary of a set that offends by that walk.
fn put_offending(
    alloc: Global,
    out: &mut Vec<u8>,
    set: &ChainSet,
    walk: &[Visit],
    found: &[Culprit],
) -> Result<(), Memory>
    requires { IsSet set.now }
    ensures { OnOk result (out.new.items ≡ out.old.items
        ++ offending_lines set.now (edges walk.now) found.now) }
{
    let edges = walk_edges(alloc, walk)?;
    put_cycle(alloc, out, set, edges.as_slice())?;
    put_blame_lines(out, set, found)?;
    put_offending_end(out)
}

/// Writes that all programs of a group begin at the server at which this one does.
#[tactic(auto, unfolding(crate::specs::Summaries::reason_text))]
fn put_origin(
    alloc: Global,
    out: &mut Vec<u8>,
    set: &ChainSet,
    leader: ProgramId,
) -> Result<(), Memory>
    ensures { OnOk result (out.new.items ≡ out.old.items
        ++ reason_text set.now leader GroupReason.OneOrigin) }
{
    let first = Place {
        program: leader,
        hop: 0,
    };
    put(out, b": all begin at".as_slice())?;
    put_server(alloc, out, set, &first)?;
    put(out, b", and keep that order everywhere".as_slice())
}

/// Writes why no run of the programs of a group goes wrong.
#[tactic(auto, unfolding(crate::specs::Summaries::reason_text))]
fn put_reason(
    alloc: Global,
    out: &mut Vec<u8>,
    set: &ChainSet,
    leader: ProgramId,
    reason: GroupReason,
) -> Result<(), Memory>
    ensures { OnOk result (out.new.items ≡ out.old.items ++ reason_text set.now leader reason) }
{
    match reason {
        GroupReason::OneOrigin => put_origin(alloc, out, set, leader),
        GroupReason::OneHop => put(
            out,
            b": none of them meets others at two of its hops".as_slice(),
        ),
        GroupReason::NoWalk => put(
            out,
            b": no cycle goes through a chain by two hops and over two first servers".as_slice(),
        ),
        GroupReason::Blocks => put(
            out,
            b": the order of chains of one first server rules each cycle out".as_slice(),
        ),
    }
}

/// Writes the group that the program leads, and why it is fine.
#[tactic(auto, unfolding(crate::specs::Summaries::fine_line))]
fn put_fine(
    alloc: Global,
    out: &mut Vec<u8>,
    set: &ChainSet,
    edges: &[Edge],
    reason: Reason,
    members: &[Member],
    leader: ProgramId,
) -> Result<(), Memory>
    ensures { OnOk result (out.new.items ≡ out.old.items
        ++ fine_line set.now edges.now reason members.now leader) }
{
    let group = group_of(alloc, members, leader)?;
    let why = group_reason(set, edges, reason, leader, group.as_slice());
    out.push(b' ')?;
    put_names(out, set, group.as_slice())?;
    put_reason(alloc, out, set, leader, why)?;
    out.push(b'\n')?;
    Ok(())
}

fn put_fine_lines(
    alloc: Global,
    out: &mut Vec<u8>,
    set: &ChainSet,
    edges: &[Edge],
    reason: Reason,
    members: &[Member],
    leaders: &[ProgramId],
) -> Result<(), Memory>
    ensures { OnOk result (out.new.items ≡ out.old.items
        ++ fine_lines set.now edges.now reason members.now leaders.now) }
{
    for leader in leaders {
        put_fine(alloc, out, set, edges, reason, members, *leader)?;
    }
    Ok(())
}

/// Writes the summary of a set that is accepted for that reason.
fn put_accepted(
    alloc: Global,
    out: &mut Vec<u8>,
    set: &ChainSet,
    edges: &[Edge],
    reason: Reason,
    members: &[Member],
) -> Result<(), Memory>
    requires { edges.now ≡ edges_of set.now }
    ensures { OnOk result (out.new.items ≡ out.old.items
        ++ accepted_lines set.now reason members.now) }
{
    let leaders = leaders_of(alloc, members)?;
    let leaders = leaders.as_slice();
    let told = &leaders[..MAX_GROUPS.min(leaders.len())];
    put_accepted_head(out)?;
    put_fine_lines(alloc, out, set, edges, reason, members, told)?;
    put_more(alloc, out, leaders.len(), MAX_GROUPS)
}

/// What the verdict on this very set means, in ten lines at most. Of a set that offends: the
/// conflicts of a cycle, each with the hops, their lines in the text, and where they meet; the
/// programs to look at first, up to three lines of them; and where to go from there. Of an accepted
/// set: why no run of a group of programs goes wrong, a line for each group. It takes the time of
/// [`why`](crate::why).
pub fn summary(alloc: Global, set: &ChainSet, verdict: &Verdict) -> Result<Vec<u8>, Memory>
    requires { IsSet set.now }
    ensures { IfOk result (λ bytes. IsSummary set.now verdict.now bytes.items) }
{
    let edges = conflict_edges(alloc, set)?;
    let edges = edges.as_slice();
    let mut out = Vec::new(alloc);
    match verdict {
        Verdict::Accepted(accepted) => {
            let members = members_of(alloc, set, edges)?;
            let reason = accepted.reason();
            put_accepted(alloc, &mut out, set, edges, reason, members.as_slice())?;
        }
        Verdict::Offending(walk, _) => {
            let search = culprits_of(alloc, set, edges)?;
            let found = search.found.as_slice();
            put_offending(alloc, &mut out, set, walk.as_slice(), found)?;
        }
    }
    Ok(out)
}
