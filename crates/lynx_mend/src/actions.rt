//! Lines of a program's actions.
use crate::roles::Roles;
use crate::writing::{end_line, put_hop_line};
use lynx_lex::Name;
use lynx_names::Memory;
use lynx_set::{Action, Program};
use lynx_text::printing::{bound_names, put_action_words};
use std::alloc::Global;

/// Which actions of a hop are written.
#[derive(Clone, Copy, Debug)]
pub(crate) enum Kept {
    All,
    /// All but the one in that place.
    Without(usize),
    /// Those of the first hop where one server decides.
    Decided(Roles),
    /// Those that stay in their hops there.
    Staying(Roles),
}

impl Kept {
    /// Whether the action in that place is written.
    fn has(&self, place: usize, action: &Action) -> bool {
        match self {
            Kept::All => true,
            Kept::Without(other) => place != *other,
            Kept::Decided(roles) => roles.decides(action),
            Kept::Staying(roles) => roles.stays(action),
        }
    }

    /// Whether some of the actions is written.
    pub(crate) fn has_some(&self, actions: &[Action]) -> bool {
        for (place, action) in actions.iter().enumerate() {
            if self.has(place, action) {
                return true;
            }
        }
        false
    }
}

/// How many names the actions bind.
fn bound_in(actions: &[Action]) -> usize {
    actions.iter().filter(|action| action.binds()).count()
}

/// The place of the first name that the hop binds.
fn first_place(program: &Program, hop: usize) -> usize {
    let mut place = program.parameters;
    for earlier in program.hops.as_slice().iter().take(hop) {
        place = place.saturating_add(bound_in(earlier.actions.as_slice()));
    }
    place
}

/// The actions of a hop, none where the program hasn't it.
pub(crate) fn actions_of(program: &Program, hop: usize) -> &[Action] {
    match program.hops.as_slice().get(hop) {
        Some(hop) => hop.actions.as_slice(),
        None => &[],
    }
}

/// Writes the words of one action of the hop, nothing where the program hasn't it.
pub(crate) fn put_action(
    alloc: Global,
    out: &mut Vec<u8>,
    tables: &[Name],
    program: &Program,
    hop: usize,
    place: usize,
) -> Result<(), Memory> {
    let actions = actions_of(program, hop);
    let Some(action) = actions.get(place) else {
        return Ok(());
    };
    let before = bound_in(&actions[..place]);
    let bound = first_place(program, hop).saturating_add(before);
    put_action_words(alloc, out, tables, program.names.as_slice(), bound, action)
}

/// Writes a line for each action of the hop that is kept.
pub(crate) fn put_actions(
    alloc: Global,
    out: &mut Vec<u8>,
    tables: &[Name],
    program: &Program,
    hop: usize,
    kept: &Kept,
) -> Result<(), Memory> {
    let names = program.names.as_slice();
    let mut bound = first_place(program, hop);
    for (place, action) in actions_of(program, hop).iter().enumerate() {
        if kept.has(place, action) {
            put_action_words(alloc, out, tables, names, bound, action)?;
            end_line(out)?;
        }
        bound = bound.saturating_add(bound_names(action));
    }
    Ok(())
}

/// Writes a hop with its actions that are kept, and nothing where none is.
pub(crate) fn put_hop(
    alloc: Global,
    out: &mut Vec<u8>,
    tables: &[Name],
    program: &Program,
    hop: usize,
    kept: &Kept,
) -> Result<(), Memory> {
    let Some(own) = program.hops.as_slice().get(hop) else {
        return Ok(());
    };
    if !kept.has_some(own.actions.as_slice()) {
        return Ok(());
    }
    put_hop_line(alloc, out, own.server)?;
    put_actions(alloc, out, tables, program, hop, kept)
}
