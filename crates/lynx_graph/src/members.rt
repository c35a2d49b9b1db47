//! The programs that meet, directly or by way of others: each with the least program of its group.

ghost use Rattle.std.specs.Prelude.{◌≡◌, IfOk, map};
ghost use Rattle.lynx_graph.specs.Edges.{edges_of};
ghost use Rattle.lynx_graph.specs.Groups.{leader_of};
ghost use Rattle.lynx_graph.specs.Together.{AreLed};
ghost use Rattle.lynx_graph.specs.inner.Joining.{alone, joined, led};

use crate::edges::Edge;
use crate::nodes::program_of;
use lynx_names::{Memory, ProgramId};
use lynx_set::ChainSet;
use std::alloc::Global;

/// A program, and the least program of its group. Programs are of one group where hops of theirs
/// may conflict, or hops of theirs and of others lead from the one to the other so.
#[derive(Clone, Copy, Debug, PartialEq, Eq)]
pub struct Member {
    pub program: ProgramId,
    pub leader: ProgramId,
}

/// Each program by itself.
fn alone(alloc: Global, set: &ChainSet) -> Result<Vec<Member>, Memory>
    ensures { IfOk result (λ members. members.items ≡ alone set.now) }
{
    let mut members = Vec::new(alloc);
    for number in 0..set.programs().len() {
        let program = program_of(number);
        members.push(Member {
            program,
            leader: program,
        })?;
    }
    Ok(members)
}

/// The leader of a program, itself where it has no other. Takes no memory.
pub fn leader_of(members: &[Member], program: ProgramId) -> ProgramId
    ensures { result ≡ leader_of members.now program }
{
    match members.get(program.index()) {
        Some(member) => member.leader,
        None => program,
    }
}

/// The member, with the new leader where it has the old one.
fn led(old: ProgramId, new: ProgramId, member: Member) -> Member
    ensures { result ≡ led old new member }
{
    let leader = if member.leader == old {
        new
    } else {
        member.leader
    };
    Member { leader, ..member }
}

/// The members, with the groups of the two programs joined: the lesser leader leads both.
fn joined(
    alloc: Global,
    members: &[Member],
    left: ProgramId,
    right: ProgramId,
) -> Result<Vec<Member>, Memory>
    ensures { IfOk result (λ all. all.items ≡ joined left right members.now) }
{
    let left = leader_of(members, left);
    let right = leader_of(members, right);
    let (least, other) = if left.index() < right.index() {
        (left, right)
    } else {
        (right, left)
    };
    let all = members
        .iter()
        .map(|member| led(other, least, *member))
        .collect(alloc)?;
    Ok(all)
}

/// Each program of the set with the least program of its group, where these are the set's edges.
/// Its cost grows with the count of edges times that of programs.
pub fn members_of(alloc: Global, set: &ChainSet, edges: &[Edge]) -> Result<Vec<Member>, Memory>
    requires { edges.now ≡ edges_of set.now }
    ensures { IfOk result (λ members. AreLed set.now members.items) }
{
    let mut members = alone(alloc, set)?;
    for edge in edges {
        members = joined(
            alloc,
            members.as_slice(),
            edge.left.program,
            edge.right.program,
        )?;
    }
    Ok(members)
}
