//! One server decides for some programs: they begin there, and ask there alone.
use crate::actions::{Kept, actions_of, put_actions};
use crate::beside::{names_beside, tables_beside};
use crate::cells::quiet_cell;
use crate::change::Change;
use crate::gathering::{local_hops, moved_origins, tables_read};
use crate::marks::ProgramMarks;
use crate::moves::put_turn;
use crate::programs::{begun_text, put_actions_of, put_hop_of, server_of};
use crate::roles::{Role, Roles};
use crate::trial::{Patch, Trial};
use crate::writing::{put_end, put_hop_line};
use lynx_lex::Name;
use lynx_names::limits::MAX_PROGRAMS;
use lynx_names::{Memory, ProgramId, ServerId, TableId};
use lynx_set::{ChainSet, Program};
use std::alloc::Global;

/// Whether the first hop has something of this one to do.
fn has_first_of(roles: &Roles, program: &Program, hop: usize, server: ServerId) -> bool {
    let actions = actions_of(program, hop);
    Kept::Decided(*roles).has_some(actions)
        || server == roles.server && Kept::Staying(*roles).has_some(actions)
}

/// Whether the first hop has something to do.
fn has_first(roles: &Roles, program: &Program) -> bool {
    for (number, hop) in program.hops.as_slice().iter().enumerate() {
        if has_first_of(roles, program, number, hop.server) {
            return true;
        }
    }
    false
}

/// The place of the first table beside which there is another.
fn first_mirrored(roles: &Roles, tables: usize) -> Option<usize> {
    for number in 0..tables {
        if let Some(table) = TableId::new(number.min(255) as u8) {
            if roles.role_of(table) == Role::Mirrored {
                return Some(number);
            }
        }
    }
    None
}

/// Writes an action that only takes its turn at the server that decides.
fn put_idle(
    alloc: Global,
    out: &mut Vec<u8>,
    set: &ChainSet,
    roles: &Roles,
    asked: &[Name],
) -> Result<(), Memory> {
    if let Some(place) = first_mirrored(roles, asked.len()) {
        if let Some(name) = asked.get(place) {
            return put_turn(alloc, out, name.as_bytes(), 0);
        }
    }
    match quiet_cell(set, roles.server) {
        Some(cell) => put_turn(alloc, out, set.table_name(cell.table), cell.key),
        None => Ok(()),
    }
}

/// Writes what is decided of all hops, over the tables that are asked.
fn put_decided(
    alloc: Global,
    out: &mut Vec<u8>,
    roles: &Roles,
    asked: &[Name],
    program: &Program,
) -> Result<(), Memory> {
    for hop in 0..program.hops.len() {
        put_actions(alloc, out, asked, program, hop, &Kept::Decided(*roles))?;
    }
    Ok(())
}

/// Writes what stays of the program's hops: of those at the server that decides the actions alone,
/// or the other hops.
fn put_staying(
    alloc: Global,
    out: &mut Vec<u8>,
    set: &ChainSet,
    roles: &Roles,
    id: ProgramId,
    is_first: bool,
) -> Result<(), Memory> {
    let kept = Kept::Staying(*roles);
    for hop in 0..set.hops(id).len() {
        let is_there = server_of(set, id, hop) == Some(roles.server);
        if is_there && is_first {
            put_actions_of(alloc, out, set, id, hop, &kept)?;
        }
        if !is_there && !is_first {
            put_hop_of(alloc, out, set, id, hop, &kept)?;
        }
    }
    Ok(())
}

/// The text of a program for which the server decides, by the tables that are asked.
fn decided_text(
    alloc: Global,
    set: &ChainSet,
    roles: &Roles,
    asked: &[Name],
    id: ProgramId,
) -> Result<Vec<u8>, Memory> {
    let mut text = begun_text(alloc, set, id, None)?;
    let Some(program) = set.program(id) else {
        return Ok(text);
    };
    put_hop_line(alloc, &mut text, roles.server)?;
    if has_first(roles, program) {
        put_decided(alloc, &mut text, roles, asked, program)?;
        put_staying(alloc, &mut text, set, roles, id, true)?;
    } else {
        put_idle(alloc, &mut text, set, roles, asked)?;
    }
    put_staying(alloc, &mut text, set, roles, id, false)?;
    put_end(&mut text)?;
    Ok(text)
}

fn decided_patches(
    alloc: Global,
    set: &ChainSet,
    roles: &Roles,
    programs: &ProgramMarks,
) -> Result<Vec<Patch>, Memory> {
    let asked = names_beside(alloc, set, roles)?;
    let mut patches = Vec::new(alloc);
    for number in 0..MAX_PROGRAMS {
        if let Some(program) = ProgramId::new(number) {
            if programs.has(program) {
                let text = decided_text(alloc, set, roles, asked.as_slice(), program)?;
                patches.push(Patch { program, text })?;
            }
        }
    }
    Ok(patches)
}

/// That the server decides for the programs.
pub(crate) fn decide(
    alloc: Global,
    set: &ChainSet,
    programs: &ProgramMarks,
    server: ServerId,
) -> Result<Trial, Memory> {
    let roles = Roles::new(set, server, tables_read(set, programs));
    Ok(Trial {
        change: Change::Decide {
            server,
            programs: *programs,
            tables: roles.mirrored(),
            moved: moved_origins(set, programs, server),
        },
        patches: decided_patches(alloc, set, &roles, programs)?,
        tables: tables_beside(alloc, set, &roles)?,
        is_second: false,
    })
}

/// A server, and how many hops of some programs are there.
#[derive(Clone, Copy, Debug)]
struct Local {
    server: ServerId,
    hops: usize,
}

/// The servers, that one first at which the most hops of the programs are.
pub(crate) fn servers_by_hops(
    alloc: Global,
    set: &ChainSet,
    programs: &ProgramMarks,
) -> Result<Vec<ServerId>, Memory> {
    let mut locals = Vec::new(alloc);
    for number in 0..set.servers() {
        if let Some(server) = ServerId::new(number) {
            let hops = local_hops(set, programs, server);
            locals.push(Local { server, hops })?;
        }
    }
    locals.sort_by_key(|local| usize::MAX - local.hops)?;
    let mut servers = Vec::new(alloc);
    for local in locals.as_slice() {
        servers.push(local.server)?;
    }
    Ok(servers)
}
