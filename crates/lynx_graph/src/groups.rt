//! Groups of programs: those that are together have one leader.

ghost use Rattle.std.specs.Prelude.{◌≡◌, ◌==◌, IfOk, map, filter};
ghost use Rattle.std.specs.List.{list_all};
ghost use Rattle.lynx_graph.specs.Groups.{begin_at_one_server, group_of, leaders_of};

use crate::meeting::same_server;
use crate::members::Member;
use lynx_names::{Memory, ProgramId};
use lynx_set::ChainSet;
use std::alloc::Global;

/// The programs that lead a group, each the least of its group.
pub fn leaders_of(alloc: Global, members: &[Member]) -> Result<Vec<ProgramId>, Memory>
    ensures { IfOk result (λ leaders. leaders.items ≡ leaders_of members.now) }
{
    let leaders = members
        .iter()
        .filter(|member| member.program == member.leader)
        .map(|member| member.program)
        .collect(alloc)?;
    Ok(leaders)
}

/// The programs of the group that the program leads.
pub fn group_of(
    alloc: Global,
    members: &[Member],
    leader: ProgramId,
) -> Result<Vec<ProgramId>, Memory>
    ensures { IfOk result (λ group. group.items ≡ group_of members.now leader) }
{
    let group = members
        .iter()
        .filter(|member| member.leader == leader)
        .map(|member| member.program)
        .collect(alloc)?;
    Ok(group)
}

/// Whether each program begins at the server where the leader does.
pub fn begin_at_one_server(set: &ChainSet, leader: ProgramId, group: &[ProgramId]) -> bool
    ensures { result ≡ begin_at_one_server set.now leader group.now }
{
    group.iter().all(|program| same_server(set.origin(*program), set.origin(leader)))
}
