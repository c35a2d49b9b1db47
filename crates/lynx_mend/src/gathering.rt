//! Which programs have to begin at one server where it decides: those that meet, and all that touch
//! what one of them gets.
ghost use Rattle.std.specs.Prelude.{◌≡◌};

use crate::marks::{ProgramMarks, TableMarks};
use lynx_graph::{Member, conflict_edges, leader_of, members_of};
use lynx_names::limits::MAX_PROGRAMS;
use lynx_names::{Memory, ProgramId, ServerId};
use lynx_set::{Action, ChainSet, Program};
use std::alloc::Global;

/// Adds the tables that the program gets.
fn add_read(program: &Program, read: &mut TableMarks) {
    for hop in program.hops.as_slice() {
        for action in hop.actions.as_slice() {
            if let Action::Get { table, .. } = *action {
                read.add(table);
            }
        }
    }
}

/// The tables that the programs get.
pub(crate) fn tables_read(set: &ChainSet, programs: &ProgramMarks) -> TableMarks {
    let mut read = TableMarks::new();
    for number in 0..MAX_PROGRAMS {
        if let Some(id) = ProgramId::new(number) {
            if programs.has(id) {
                if let Some(program) = set.program(id) {
                    add_read(program, &mut read);
                }
            }
        }
    }
    read
}

fn touches(action: &Action, tables: &TableMarks) -> bool {
    match action.cell() {
        Some((table, _)) => tables.has(table),
        None => false,
    }
}

/// Whether the program touches one of the tables.
fn touches_some(program: &Program, tables: &TableMarks) -> bool {
    program.hops.as_slice().iter().any(|hop| hop
        .actions
        .as_slice()
        .iter()
        .any(|action| touches(action, tables)))
}

/// Whether the program is of the group of one of these.
fn meets_some(members: &[Member], programs: &ProgramMarks, id: ProgramId) -> bool {
    let leader = leader_of(members, id);
    members.iter().any(|member| member.leader == leader && programs.has(member.program))
}

/// The programs, and those that meet one of them or touch what one of them gets.
fn widened(set: &ChainSet, members: &[Member], programs: &ProgramMarks) -> ProgramMarks {
    let read = tables_read(set, programs);
    let mut wider = *programs;
    for number in 0..MAX_PROGRAMS {
        if let Some(id) = ProgramId::new(number) {
            if let Some(program) = set.program(id) {
                if meets_some(members, programs, id) || touches_some(program, &read) {
                    wider.add(id);
                }
            }
        }
    }
    wider
}

/// Each program of the set with the least program of its group.
pub(crate) fn groups(alloc: Global, set: &ChainSet) -> Result<Vec<Member>, Memory> {
    let edges = conflict_edges(alloc, set)?;
    members_of(alloc, set, edges.as_slice())
}

/// The programs, and all that have to begin with them.
pub(crate) fn gathered(set: &ChainSet, members: &[Member], programs: ProgramMarks) -> ProgramMarks {
    let mut all = programs;
    for _ in 0..MAX_PROGRAMS {
        let wider = widened(set, members, &all);
        if wider == all {
            return all;
        }
        all = wider;
    }
    all
}

fn hops_at(program: &Program, server: ServerId) -> usize {
    program
        .hops
        .as_slice()
        .iter()
        .filter(|hop| hop.server == server)
        .count()
}

/// How many hops of the programs are at the server.
pub(crate) fn local_hops(set: &ChainSet, programs: &ProgramMarks, server: ServerId) -> usize {
    let mut count = 0usize;
    for number in 0..MAX_PROGRAMS {
        if let Some(id) = ProgramId::new(number) {
            if programs.has(id) {
                if let Some(program) = set.program(id) {
                    count = count.saturating_add(hops_at(program, server));
                }
            }
        }
    }
    count
}

/// How many of the programs begin elsewhere.
pub(crate) fn moved_origins(set: &ChainSet, programs: &ProgramMarks, server: ServerId) -> usize {
    let mut count = 0usize;
    for number in 0..MAX_PROGRAMS {
        if let Some(id) = ProgramId::new(number) {
            if programs.has(id) && set.origin(id) != Some(server) {
                count = count.saturating_add(1);
            }
        }
    }
    count
}
