//! The first action by which a program can't begin.
ghost use Rattle.std.specs.Prelude.{◌≡◌, ◌<◌, find, IfSome, length};
ghost use Rattle.lynx_names.specs.declared.limits.TheConstants.{MAX_ACTIONS};
ghost use Rattle.lynx_set.specs.Lookups.{actions_at};
ghost use Rattle.lynx_reasons.specs.Begins.{first_never, is_never, is_stuck, places_in, stops};

use crate::never::left::is_some_left;
use crate::never::needs::is_false;
use lynx_names::ProgramId;
use lynx_set::{Action, ChainSet, Key};

/// One action of a program, by its hop and its number within it, both counted from 0.
#[derive(Clone, Copy, Debug, PartialEq, Eq)]
pub struct NeverAt {
    pub hop: usize,
    pub action: usize,
}

/// Whether the key is a parameter for which no number is left by the actions up to that one.
fn is_stuck(set: &ChainSet, program: ProgramId, at: NeverAt, key: Key) -> bool
    requires { at.action < MAX_ACTIONS }
    ensures { result ≡ is_stuck set.now program at key }
{
    match key {
        Key::Literal(_) => false,
        Key::Param(parameter) => !is_some_left(set, program, at, parameter),
    }
}

/// Whether by that action no chain of the program begins.
fn stops(set: &ChainSet, program: ProgramId, at: NeverAt, action: &Action) -> bool
    requires { at.action < MAX_ACTIONS }
    ensures { result ≡ stops set.now program at action.now }
{
    match *action {
        Action::Get { key, .. } | Action::Update { key, .. } => is_stuck(set, program, at, key),
        Action::Let { .. } => false,
        Action::Need {
            left,
            relation,
            right,
        } => is_false(left, relation, right),
    }
}

/// Whether the program can't begin by its action there.
fn is_never(set: &ChainSet, program: ProgramId, at: NeverAt) -> bool
    ensures { result ≡ is_never set.now program at }
{
    let Some(hop) = set.hop(program, at.hop) else {
        return false;
    };
    match hop.actions.as_slice().get(at.action) {
        Some(action) => stops(set, program, at, action),
        None => false,
    }
}

/// How many actions the hop has.
fn actions_in(set: &ChainSet, program: ProgramId, hop: usize) -> usize
    ensures { result ≡ length (actions_at set.now program hop) }
{
    match set.hop(program, hop) {
        Some(hop) => hop.actions.len(),
        None => 0,
    }
}

/// The first action of the hop by which the program can't begin.
fn first_in_hop(set: &ChainSet, program: ProgramId, hop: usize) -> Option<NeverAt>
    ensures { result ≡ find (is_never set.now program) (places_in set.now program hop) }
{
    (0..actions_in(set, program, hop))
        .map(|action| NeverAt { hop, action })
        .find(|at| is_never(set, program, *at))
}

/// The first action by which the program can't begin, None where its actions alone show none, or
/// the set hasn't the program. For each action that has a parameter as its key it looks at the
/// shards of the set, and for each shard at the actions so far. It takes no memory.
pub fn first_never(set: &ChainSet, program: ProgramId) -> Option<NeverAt>
    ensures exact { result ≡ first_never set.now program }
    ensures there { IfSome result (λ at. at.action < length (actions_at set.now program at.hop)) }
{
    for hop in 0..set.hops(program).len() {
        if let Some(at) = first_in_hop(set, program, hop) {
            return Some(at);
        }
    }
    None
}
