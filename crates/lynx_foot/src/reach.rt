ghost use Rattle.std.specs.Prelude.{◌≡◌, IfOk};
ghost use Rattle.lynx_foot.specs.Reaches.{keys_of, reach_of, reaches_of};

use crate::foot::{Foot, actions_of, foot_of};
use crate::kind::Kind;
use lynx_names::{Memory, ProgramId, TableId};
use lynx_set::{ChainSet, Interval, Key, ParameterRange, range_of};
use std::alloc::Global;

/// What one action of a program may do: the table, the keys that its key may be, None where it may
/// be any, and the kind.
#[derive(Clone, Copy, Debug)]
pub struct Reach {
    pub table: TableId,
    pub keys: Option<Interval>,
    pub kind: Kind,
}

/// The keys that a key may be, where parameters have these ranges.
fn keys_of(ranges: &[ParameterRange], key: Key) -> Option<Interval>
    ensures { result ≡ keys_of ranges.now key }
{
    match key {
        Key::Literal(key) => Some(Interval::one(key)),
        Key::Param(parameter) => range_of(ranges, parameter),
    }
}

/// The reach of a foot, where parameters have these ranges.
pub fn reach_of(ranges: &[ParameterRange], foot: Foot) -> Reach
    ensures { result ≡ reach_of ranges.now foot }
{
    Reach {
        table: foot.table,
        keys: keys_of(ranges, foot.key),
        kind: foot.kind,
    }
}

/// The reaches of a hop, one for each foot, in order.
pub fn reaches(
    alloc: Global,
    set: &ChainSet,
    program: ProgramId,
    hop: usize,
) -> Result<Vec<Reach>, Memory>
    ensures { IfOk result (λ reaches. reaches.items ≡ reaches_of set.now program hop) }
{
    let ranges = set.ranges(program);
    let reaches = actions_of(set, program, hop)
        .iter()
        .filter_map(|action| foot_of(*action))
        .map(|foot| reach_of(ranges, foot))
        .collect(alloc)?;
    Ok(reaches)
}
