//! A mending in words: what is changed, and what is lost by it.
use crate::actions::put_action;
use crate::beside::name_beside;
use crate::change::Change;
use crate::cuts::second_name;
use crate::marks::{ProgramMarks, TableMarks};
use crate::mending::Mending;
use crate::moves::hop_at;
use crate::places::put_place;
use crate::roles::Roles;
use lynx_names::limits::{MAX_PROGRAMS, MAX_TABLES};
use lynx_names::{Memory, ProgramId, ServerId, TableId};
use lynx_set::{ChainSet, Interval};
use lynx_text::printing::{put_interval, put_number, put_word};
use std::alloc::Global;

pub(crate) fn put(out: &mut Vec<u8>, words: &str) -> Result<(), Memory> {
    out.extend_from_slice(words.as_bytes())?;
    Ok(())
}

fn put_program(out: &mut Vec<u8>, set: &ChainSet, program: ProgramId) -> Result<(), Memory> {
    out.extend_from_slice(set.program_name(program))?;
    Ok(())
}

fn put_server(alloc: Global, out: &mut Vec<u8>, server: ServerId) -> Result<(), Memory> {
    put(out, " server ")?;
    put_number(alloc, out, u64::from(server.number()))
}

/// Writes what stands between the item of that place and the one before it, of so many items.
pub(crate) fn put_between(out: &mut Vec<u8>, place: usize, items: usize) -> Result<(), Memory> {
    if place == 0 {
        Ok(())
    } else if place.saturating_add(1) == items {
        put(out, " and ")
    } else {
        put(out, ", ")
    }
}

/// Writes the hops of a program one of which stands in another place, in their order.
fn put_hops(
    alloc: Global,
    out: &mut Vec<u8>,
    hops: usize,
    hop: usize,
    place: usize,
) -> Result<(), Memory> {
    for number in 0..hops {
        put(out, if number == 0 { " " } else { ", " })?;
        put_number(alloc, out, hop_at(hop, place, number) as u64)?;
    }
    Ok(())
}

fn put_order(
    alloc: Global,
    out: &mut Vec<u8>,
    set: &ChainSet,
    program: ProgramId,
    (hop, place): (usize, usize),
    (before, server): (ServerId, ServerId),
) -> Result<(), Memory> {
    put_program(out, set, program)?;
    if before == server {
        put(out, " runs its hops in the order")?;
    } else {
        put(out, " begins at")?;
        put_server(alloc, out, server)?;
        put(out, ": its hops in the order")?;
    }
    put_hops(alloc, out, set.hops(program).len(), hop, place)
}

fn put_order_loss(
    alloc: Global,
    out: &mut Vec<u8>,
    before: ServerId,
    server: ServerId,
) -> Result<(), Memory> {
    if before == server {
        return put(out, "some of its hops run later");
    }
    put(out, "what it does at")?;
    put_server(alloc, out, before)?;
    put(out, " is done later, and clients begin it at")?;
    put_server(alloc, out, server)
}

fn put_turn(
    alloc: Global,
    out: &mut Vec<u8>,
    set: &ChainSet,
    program: ProgramId,
    server: ServerId,
    (table, key): (TableId, u64),
) -> Result<(), Memory> {
    put_program(out, set, program)?;
    put(out, " begins at")?;
    put_server(alloc, out, server)?;
    put(out, ", where it only waits its turn: add")?;
    put_word(out, set.table_name(table))?;
    put(out, " ")?;
    put_number(alloc, out, key)?;
    put(out, " 0")
}

fn put_turn_loss(alloc: Global, out: &mut Vec<u8>, server: ServerId) -> Result<(), Memory> {
    put(
        out,
        "all that it does comes one hop later, and clients begin it at",
    )?;
    put_server(alloc, out, server)
}

fn put_drop(
    alloc: Global,
    out: &mut Vec<u8>,
    set: &ChainSet,
    program: ProgramId,
    hop: usize,
    action: usize,
) -> Result<(), Memory> {
    put_program(out, set, program)?;
    put(out, " leaves out: ")?;
    if let Some(own) = set.program(program) {
        put_action(alloc, out, set.tables().as_slice(), own, hop, action)?;
    }
    put(out, ", in its hop ")?;
    put_number(alloc, out, hop as u64)
}

/// Writes the names of the programs.
fn put_programs(out: &mut Vec<u8>, set: &ChainSet, programs: &ProgramMarks) -> Result<(), Memory> {
    let items = programs.len();
    let mut place = 0usize;
    for number in 0..MAX_PROGRAMS {
        if let Some(program) = ProgramId::new(number) {
            if programs.has(program) {
                put_between(out, place, items)?;
                put_program(out, set, program)?;
                place = place.saturating_add(1);
            }
        }
    }
    Ok(())
}

/// Writes the names of the tables beside others, and of these.
fn put_tables(
    alloc: Global,
    out: &mut Vec<u8>,
    set: &ChainSet,
    server: ServerId,
    tables: &TableMarks,
) -> Result<(), Memory> {
    let roles = Roles::new(set, server, *tables);
    let mut place = 0usize;
    for number in 0..MAX_TABLES {
        if let Some(table) = TableId::new(number) {
            if tables.has(table) {
                put_between(out, place, tables.len())?;
                place = place.saturating_add(1);
                if let Some(name) = name_beside(alloc, set, &roles, table)? {
                    out.extend_from_slice(name.as_bytes())?;
                }
                put(out, " beside")?;
                put_word(out, set.table_name(table))?;
            }
        }
    }
    Ok(())
}

fn put_decide(
    alloc: Global,
    out: &mut Vec<u8>,
    set: &ChainSet,
    server: ServerId,
    programs: &ProgramMarks,
    tables: &TableMarks,
) -> Result<(), Memory> {
    put(out, "server ")?;
    put_number(alloc, out, u64::from(server.number()))?;
    put(out, " decides for ")?;
    put_programs(out, set, programs)?;
    put(out, ": they begin there")?;
    if tables.is_empty() {
        return Ok(());
    }
    put(out, ", and read ")?;
    put_tables(alloc, out, set, server, tables)
}

fn put_decide_loss(
    alloc: Global,
    out: &mut Vec<u8>,
    server: ServerId,
    tables: &TableMarks,
    moved: usize,
) -> Result<(), Memory> {
    put(out, "none of them begins while")?;
    put_server(alloc, out, server)?;
    put(out, " is down, and ")?;
    put_number(alloc, out, moved as u64)?;
    put(out, " of them began elsewhere")?;
    if tables.is_empty() {
        return Ok(());
    }
    put(out, "; a table beside has to be filled as its own is")?;
    put(out, ", and no key that is only read is refused there")
}

fn put_cut(
    alloc: Global,
    out: &mut Vec<u8>,
    set: &ChainSet,
    program: ProgramId,
    hop: usize,
) -> Result<(), Memory> {
    put_program(out, set, program)?;
    put(out, " becomes two programs: ")?;
    put_program(out, set, program)?;
    put(out, " before its hop ")?;
    put_number(alloc, out, hop as u64)?;
    put(out, ", and ")?;
    let second = second_name(alloc, set.program_name(program))?;
    out.extend_from_slice(second.as_slice())?;
    put(out, " from there on")
}

/// Writes that a program takes arguments in an interval alone.
fn put_taken(
    alloc: Global,
    out: &mut Vec<u8>,
    set: &ChainSet,
    program: ProgramId,
    parameter: u8,
    interval: Interval,
) -> Result<(), Memory> {
    put_program(out, set, program)?;
    put(out, " takes")?;
    if let Some(own) = set.program(program) {
        if let Some(name) = own.names.as_slice().get(usize::from(parameter)) {
            put_word(out, name.as_bytes())?;
        }
    }
    put(out, " in ")?;
    put_interval(alloc, out, interval)
}

/// Writes that two programs take arguments in two intervals alone.
fn put_ranges(
    alloc: Global,
    out: &mut Vec<u8>,
    set: &ChainSet,
    (program, parameter, interval): (ProgramId, u8, Interval),
    (other, other_parameter, other_interval): (ProgramId, u8, Interval),
) -> Result<(), Memory> {
    put_taken(alloc, out, set, program, parameter, interval)?;
    put(out, ", and ")?;
    put_taken(alloc, out, set, other, other_parameter, other_interval)
}

fn put_leave(out: &mut Vec<u8>, set: &ChainSet, program: ProgramId) -> Result<(), Memory> {
    put_program(out, set, program)?;
    put(out, " is left out")
}

/// Writes a change of one program.
fn put_small(
    alloc: Global,
    out: &mut Vec<u8>,
    set: &ChainSet,
    change: &Change,
) -> Result<(), Memory> {
    match *change {
        Change::Order {
            program,
            hop,
            place,
            before,
            server,
        } => put_order(alloc, out, set, program, (hop, place), (before, server)),
        Change::Turn {
            program,
            server,
            table,
            key,
        } => put_turn(alloc, out, set, program, server, (table, key)),
        Change::Drop {
            program,
            hop,
            action,
        } => put_drop(alloc, out, set, program, hop, action),
        _ => Ok(()),
    }
}

/// Writes what is changed.
fn put_change(
    alloc: Global,
    out: &mut Vec<u8>,
    set: &ChainSet,
    change: &Change,
) -> Result<(), Memory> {
    match *change {
        Change::Order { .. } | Change::Turn { .. } | Change::Drop { .. } => {
            put_small(alloc, out, set, change)
        }
        Change::Decide {
            server,
            programs,
            tables,
            ..
        } => put_decide(alloc, out, set, server, &programs, &tables),
        Change::Cut { program, hop } => put_cut(alloc, out, set, program, hop),
        Change::Range {
            program,
            parameter,
            interval,
            other,
            other_parameter,
            other_interval,
        } => {
            let left = (program, parameter, interval);
            put_ranges(
                alloc,
                out,
                set,
                left,
                (other, other_parameter, other_interval),
            )
        }
        Change::Leave { program } => put_leave(out, set, program),
    }
}

/// Writes what is lost by a change.
fn put_loss(alloc: Global, out: &mut Vec<u8>, change: &Change) -> Result<(), Memory> {
    match *change {
        Change::Order { before, server, .. } => put_order_loss(alloc, out, before, server),
        Change::Turn { server, .. } => put_turn_loss(alloc, out, server),
        Change::Drop { .. } => put(out, "its clients aren't told that value"),
        Change::Decide {
            server,
            tables,
            moved,
            ..
        } => put_decide_loss(alloc, out, server, &tables, moved),
        Change::Cut { .. } => put(
            out,
            "each is a transaction of its own: others may see the one without the other",
        ),
        Change::Range { .. } => put(out, "a begin with another key is refused"),
        Change::Leave { .. } => put(out, "nobody can run it"),
    }
}

fn put_lines(
    alloc: Global,
    out: &mut Vec<u8>,
    set: &ChainSet,
    change: &Change,
) -> Result<(), Memory> {
    put_change(alloc, out, set, change)?;
    put_place(alloc, out, set, change)?;
    put(out, "\n  lost: ")?;
    put_loss(alloc, out, change)?;
    put(out, "\n")
}

/// Writes a mending of the set in words: a line for each change, and one of what is lost by it. The
/// line of a second change begins with "  and". Where memory is wanting a part may be written.
pub fn put_mending(
    alloc: Global,
    out: &mut Vec<u8>,
    set: &ChainSet,
    mending: &Mending,
) -> Result<(), Memory> {
    put_lines(alloc, out, set, &mending.first())?;
    match mending.second() {
        Some(second) => {
            put(out, "  and ")?;
            put_lines(alloc, out, set, &second)
        }
        None => Ok(()),
    }
}
