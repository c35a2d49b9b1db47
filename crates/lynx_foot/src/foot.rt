ghost use Rattle.std.specs.Prelude.{◌≡◌, IfOk, option_copied};
ghost use Rattle.lynx_set.specs.Lookups.{actions_at, hop_at};

use crate::kind::Kind;
use lynx_names::{Memory, ProgramId, TableId};
use lynx_set::{Action, ChainSet, Hop, Key};
use std::alloc::Global;

/// What one action of a program does: the table, the key as the program's text has it, and the
/// kind.
#[derive(Clone, Copy, Debug, PartialEq, Eq)]
pub struct Foot {
    pub table: TableId,
    pub key: Key,
    pub kind: Kind,
}

ghost use Rattle.lynx_foot.specs.Feet.{foot_of, footprint_of};

/// The foot of an action. `let` and `need` have none.
pub(crate) fn foot_of(action: Action) -> Option<Foot>
    ensures { result ≡ foot_of action }
{
    let (table, key, kind) = match action {
        Action::Get { table, key } => (table, key, Kind::Getting),
        Action::Update {
            update,
            table,
            key,
            ..
        } => (table, key, Kind::of(update)),
        Action::Let { .. } | Action::Need { .. } => return None,
    };
    Some(Foot { table, key, kind })
}

/// The actions of a hop, none where the set hasn't it.
pub(crate) fn actions_of(set: &ChainSet, program: ProgramId, hop: usize) -> &[Action]
    ensures { result.now ≡ actions_at set.now program hop }
{
    match set.hop(program, hop) {
        Some(hop) => hop.actions.as_slice(),
        None => &[],
    }
}

/// The feet of a hop, one for each `get` and each update, in order. A hop that the set hasn't has
/// none.
pub fn footprint(
    alloc: Global,
    set: &ChainSet,
    program: ProgramId,
    hop: usize,
) -> Result<Vec<Foot>, Memory>
    ensures { IfOk result (λ feet. feet.items ≡ footprint_of set.now program hop) }
{
    let feet = actions_of(set, program, hop)
        .iter()
        .filter_map(|action| foot_of(*action))
        .collect(alloc)?;
    Ok(feet)
}
