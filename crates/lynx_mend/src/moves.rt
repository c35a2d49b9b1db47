//! Changes by which a program begins elsewhere: of the order of its hops, and a turn.
use crate::actions::{Kept, actions_of};
use crate::cells::{Cell, quiet_cell};
use crate::change::Change;
use crate::programs::{begun_text, put_hop_of, put_hops_of, server_of};
use crate::trial::{Trial, trial_of};
use crate::writing::{end_line, put_end, put_hop_line};
use lynx_names::limits::MAX_HOPS;
use lynx_names::{Memory, ProgramId, ServerId};
use lynx_set::{Action, ChainSet, Program};
use lynx_text::printing::{put_number, put_word};
use std::alloc::Global;

/// The hop that comes as that one, where one hop stands in another place.
pub(crate) fn hop_at(hop: usize, place: usize, number: usize) -> usize {
    if number == place {
        hop
    } else if hop <= number && number < place {
        number.saturating_add(1)
    } else if place < number && number <= hop {
        number.saturating_sub(1)
    } else {
        number
    }
}

/// The text of the program with one hop in another place.
fn ordered_text(
    alloc: Global,
    set: &ChainSet,
    program: ProgramId,
    hop: usize,
    place: usize,
) -> Result<Vec<u8>, Memory> {
    let mut text = begun_text(alloc, set, program, None)?;
    for number in 0..set.hops(program).len() {
        let moved = hop_at(hop, place, number);
        put_hop_of(alloc, &mut text, set, program, moved, &Kept::All)?;
    }
    put_end(&mut text)?;
    Ok(text)
}

/// The change by which the program has one hop in another place.
fn order_of(set: &ChainSet, program: ProgramId, hop: usize, place: usize) -> Option<Change> {
    let before = server_of(set, program, 0)?;
    let server = server_of(set, program, hop_at(hop, place, 0))?;
    Some(Change::Order {
        program,
        hop,
        place,
        before,
        server,
    })
}

/// Adds the program with each of its hops in each other place. Of two neighbours that change their
/// places one is moved.
pub(crate) fn add_orders(
    alloc: Global,
    set: &ChainSet,
    program: ProgramId,
    trials: &mut Vec<Trial>,
) -> Result<(), Memory> {
    let hops = set.hops(program).len();
    for hop in 0..hops {
        for place in 0..hops {
            if place != hop && place != hop.saturating_add(1) {
                if let Some(change) = order_of(set, program, hop, place) {
                    let text = ordered_text(alloc, set, program, hop, place)?;
                    trials.push(trial_of(alloc, change, program, text)?)?;
                }
            }
        }
    }
    Ok(())
}

/// Writes an action that only takes its turn at the server of that cell.
pub(crate) fn put_turn(
    alloc: Global,
    out: &mut Vec<u8>,
    table: &[u8],
    key: u64,
) -> Result<(), Memory> {
    out.extend_from_slice(b"add".as_slice())?;
    put_word(out, table)?;
    out.push(b' ')?;
    put_number(alloc, out, key)?;
    out.extend_from_slice(b" 0".as_slice())?;
    end_line(out)
}

fn turned_text(
    alloc: Global,
    set: &ChainSet,
    program: ProgramId,
    server: ServerId,
    cell: Cell,
) -> Result<Vec<u8>, Memory> {
    let mut text = begun_text(alloc, set, program, None)?;
    put_hop_line(alloc, &mut text, server)?;
    put_turn(alloc, &mut text, set.table_name(cell.table), cell.key)?;
    put_hops_of(alloc, &mut text, set, program, 0, set.hops(program).len())?;
    put_end(&mut text)?;
    Ok(text)
}

/// Whether the program's first hop needs something. No other hop does.
fn has_need(program: &Program) -> bool {
    actions_of(program, 0)
        .iter()
        .any(|action| matches!(action, Action::Need { .. }))
}

/// Whether the program may have one more hop before its first: it has no need, and room.
fn may_turn(set: &ChainSet, program: ProgramId) -> bool {
    match set.program(program) {
        Some(program) => program.hops.len() < MAX_HOPS && !has_need(program),
        None => false,
    }
}

/// Adds the program with a first hop at that server.
fn add_turn(
    alloc: Global,
    set: &ChainSet,
    program: ProgramId,
    server: ServerId,
    trials: &mut Vec<Trial>,
) -> Result<(), Memory> {
    if let Some(cell) = quiet_cell(set, server) {
        let change = Change::Turn {
            program,
            server,
            table: cell.table,
            key: cell.key,
        };
        let text = turned_text(alloc, set, program, server, cell)?;
        trials.push(trial_of(alloc, change, program, text)?)?;
    }
    Ok(())
}

/// Adds the program with a first hop at each other server, where it has no need.
pub(crate) fn add_turns(
    alloc: Global,
    set: &ChainSet,
    program: ProgramId,
    trials: &mut Vec<Trial>,
) -> Result<(), Memory> {
    if !may_turn(set, program) {
        return Ok(());
    }
    for number in 0..set.servers() {
        if let Some(server) = ServerId::new(number) {
            if set.origin(program) != Some(server) {
                add_turn(alloc, set, program, server, trials)?;
            }
        }
    }
    Ok(())
}
