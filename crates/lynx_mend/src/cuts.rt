//! Changes by which a program loses something: a `get`, its being one, or itself.
use crate::actions::{Kept, actions_of};
use crate::change::Change;
use crate::programs::{begun_text, put_hop_of, put_hops_of};
use crate::trial::{Trial, trial_of};
use crate::writing::{put_end, put_head};
use lynx_names::limits::MAX_NAME_BYTES;
use lynx_names::{Memory, ProgramId};
use lynx_set::{Action, ChainSet, Operand, Program};
use lynx_text::printing::bound_names;
use std::alloc::Global;

fn is_name(operand: Operand, name: usize) -> bool {
    match operand {
        Operand::Name(place) => usize::from(place) == name,
        Operand::Number(_) => false,
    }
}

/// Whether the action uses the name of that place.
fn uses(action: &Action, name: usize) -> bool {
    match *action {
        Action::Get { .. } => false,
        Action::Update { value, .. } => is_name(value, name),
        Action::Let { left, right, .. } => is_name(left, name) || is_name(right, name),
        Action::Need { left, right, .. } => is_name(left, name) || is_name(right, name),
    }
}

fn uses_in(actions: &[Action], name: usize) -> bool {
    actions.iter().any(|action| uses(action, name))
}

/// Whether some action of the program uses the name of that place.
fn is_used(program: &Program, name: usize) -> bool {
    let hops = program.hops.as_slice();
    hops.iter().any(|hop| uses_in(hop.actions.as_slice(), name))
}

fn dropped_text(
    alloc: Global,
    set: &ChainSet,
    program: ProgramId,
    hop: usize,
    action: usize,
) -> Result<Vec<u8>, Memory> {
    let mut text = begun_text(alloc, set, program, None)?;
    put_hops_of(alloc, &mut text, set, program, 0, hop)?;
    put_hop_of(alloc, &mut text, set, program, hop, &Kept::Without(action))?;
    let hops = set.hops(program).len();
    put_hops_of(alloc, &mut text, set, program, hop.saturating_add(1), hops)?;
    put_end(&mut text)?;
    Ok(text)
}

/// Adds the program without each `get` whose name it doesn't use.
pub(crate) fn add_drops(
    alloc: Global,
    set: &ChainSet,
    id: ProgramId,
    trials: &mut Vec<Trial>,
) -> Result<(), Memory> {
    let Some(program) = set.program(id) else {
        return Ok(());
    };
    let mut name = program.parameters;
    for hop in 0..program.hops.len() {
        for (place, action) in actions_of(program, hop).iter().enumerate() {
            if matches!(action, Action::Get { .. }) && !is_used(program, name) {
                let change = Change::Drop {
                    program: id,
                    hop,
                    action: place,
                };
                let text = dropped_text(alloc, set, id, hop, place)?;
                trials.push(trial_of(alloc, change, id, text)?)?;
            }
            name = name.saturating_add(bound_names(action));
        }
    }
    Ok(())
}

/// The name of the second program where one is cut: the first one's, cut short where it has to be,
/// with `_2` behind it.
pub(crate) fn second_name(alloc: Global, name: &[u8]) -> Result<Vec<u8>, Memory> {
    let mut second = Vec::new(alloc);
    second.extend_from_slice(&name[..name.len().min(MAX_NAME_BYTES - 2)])?;
    second.extend_from_slice(b"_2".as_slice())?;
    Ok(second)
}

/// The texts of two programs, of the hops before that one and of the others.
fn cut_text(alloc: Global, set: &ChainSet, id: ProgramId, hop: usize) -> Result<Vec<u8>, Memory> {
    let mut text = begun_text(alloc, set, id, None)?;
    put_hops_of(alloc, &mut text, set, id, 0, hop)?;
    put_end(&mut text)?;
    let second = second_name(alloc, set.program_name(id))?;
    if let Some(program) = set.program(id) {
        put_head(alloc, &mut text, second.as_slice(), program, None)?;
    }
    put_hops_of(alloc, &mut text, set, id, hop, set.hops(id).len())?;
    put_end(&mut text)?;
    Ok(text)
}

/// Adds the program cut in two before each of its hops but the first.
pub(crate) fn add_cuts(
    alloc: Global,
    set: &ChainSet,
    program: ProgramId,
    trials: &mut Vec<Trial>,
) -> Result<(), Memory> {
    for hop in 1..set.hops(program).len() {
        let text = cut_text(alloc, set, program, hop)?;
        trials.push(trial_of(alloc, Change::Cut { program, hop }, program, text)?)?;
    }
    Ok(())
}

/// Adds that the program is left out.
pub(crate) fn add_leave(
    alloc: Global,
    program: ProgramId,
    trials: &mut Vec<Trial>,
) -> Result<(), Memory> {
    let change = Change::Leave { program };
    trials.push(trial_of(alloc, change, program, Vec::new(alloc))?)?;
    Ok(())
}
