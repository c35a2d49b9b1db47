ghost use Rattle.std.specs.Prelude.{◌≡◌, IfOk};
ghost use Rattle.lynx_foot.specs.Feet.{touch_of, touches_of};

use crate::foot::{Foot, actions_of, foot_of};
use crate::kind::Kind;
use lynx_hops::value::key_of;
use lynx_names::{Memory, ProgramId, TableId};
use lynx_set::ChainSet;
use std::alloc::Global;

/// What one action of a chain does to which cell.
#[derive(Clone, Copy, Debug, PartialEq, Eq)]
pub struct Touch {
    pub table: TableId,
    pub key: u64,
    pub kind: Kind,
}

/// The touch of a foot, where the parameters have these arguments.
pub(crate) fn touch_of(args: &[u64], foot: Foot) -> Touch
    ensures { result ≡ touch_of args.now foot }
{
    Touch {
        table: foot.table,
        key: key_of(args, foot.key),
        kind: foot.kind,
    }
}

/// The touches of a hop with the arguments of its chain, one for each foot, in order.
pub fn touches(
    alloc: Global,
    set: &ChainSet,
    program: ProgramId,
    hop: usize,
    args: &[u64],
) -> Result<Vec<Touch>, Memory>
    ensures { IfOk result (λ touches. touches.items ≡ touches_of set.now program hop args.now) }
{
    let touches = actions_of(set, program, hop)
        .iter()
        .filter_map(|action| foot_of(*action))
        .map(|foot| touch_of(args, foot))
        .collect(alloc)?;
    Ok(touches)
}
