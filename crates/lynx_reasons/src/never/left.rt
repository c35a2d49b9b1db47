//! The numbers that are left for a parameter.
ghost use Rattle.std.specs.Prelude.{◌≡◌, ◌<◌, ◌^◌};
ghost use Rattle.std.specs.List.{list_any};
ghost use Rattle.lynx_names.specs.declared.limits.TheConstants.{MAX_ACTIONS};
ghost use Rattle.lynx_reasons.specs.Begins.{is_argument, is_home, is_key_home, is_left, some_below};
ghost use Rattle.lynx_reasons.specs.inner.Lefts.{are_home, are_home_before, are_home_in, least_argument};

use crate::never::first::NeverAt;
use lynx_names::{Items, ProgramId, ServerId, TableId};
use lynx_set::{Action, ChainSet, Key, ParameterRange, range_of};
use lynx_shards::{Shard, ShardMap};

/// Whether the number is one that the parameter's argument may be.
fn is_argument(ranges: &[ParameterRange], parameter: u8, number: u64) -> bool
    ensures { result ≡ is_argument ranges.now parameter number }
{
    match range_of(ranges, parameter) {
        Some(interval) => interval.holds(number),
        None => true,
    }
}

/// Whether a cell of that key is at the server, where the number is the parameter's argument. Other
/// keys are none of its.
fn is_key_home(
    shards: &ShardMap,
    parameter: u8,
    number: u64,
    server: ServerId,
    table: TableId,
    key: Key,
) -> bool
    ensures { result ≡ is_key_home shards.now parameter number server table key }
{
    match key {
        Key::Literal(_) => true,
        Key::Param(place) => place != parameter || shards.server_of(table, number) == server,
    }
}

/// Whether that is so of the cell that the action touches.
fn is_home(shards: &ShardMap, parameter: u8, number: u64, server: ServerId, action: &Action) -> bool
    ensures { result ≡ is_home shards.now parameter number (server, action.now) }
{
    match action.cell() {
        Some((table, key)) => is_key_home(shards, parameter, number, server, table, key),
        None => true,
    }
}

/// Whether that is so of each of a hop's actions.
fn are_home(
    shards: &ShardMap,
    parameter: u8,
    number: u64,
    server: ServerId,
    actions: &[Action],
) -> bool
    ensures { result ≡ are_home shards.now parameter number server actions.now }
{
    actions.iter().all(|action| is_home(shards, parameter, number, server, action))
}

/// Whether that is so of the actions of the hops before that one.
fn are_home_before(
    set: &ChainSet,
    program: ProgramId,
    hop: usize,
    parameter: u8,
    number: u64,
) -> bool
    ensures { result ≡ are_home_before set.now program hop parameter number }
{
    set.hops(program).iter().take(hop).all(|earlier| {
        let actions = earlier.actions.as_slice();
        are_home(set.shards(), parameter, number, earlier.server, actions)
    })
}

/// Whether that is so of the actions of the hop up to one of them.
fn are_home_in(set: &ChainSet, program: ProgramId, at: NeverAt, parameter: u8, number: u64) -> bool
    requires { at.action < MAX_ACTIONS }
    ensures { result ≡ are_home_in set.now program at parameter number }
{
    match set.hop(program, at.hop) {
        Some(hop) => {
            let actions = hop.actions.as_slice();
            let count = actions.len().min(at.action + 1);
            are_home(
                set.shards(),
                parameter,
                number,
                hop.server,
                &actions[..count],
            )
        }
        None => true,
    }
}

/// Whether the number is left for the parameter by the actions up to that one.
fn is_left(set: &ChainSet, program: ProgramId, at: NeverAt, parameter: u8, number: u64) -> bool
    requires { at.action < MAX_ACTIONS }
    ensures { result ≡ is_left set.now program at parameter number }
{
    is_argument(set.ranges(program), parameter, number)
        && are_home_before(set, program, at.hop, parameter, number)
        && are_home_in(set, program, at, parameter, number)
}

/// Whether the least key of one of the shards is left.
fn is_low_left(
    set: &ChainSet,
    program: ProgramId,
    at: NeverAt,
    parameter: u8,
    shards: &Items<Shard>,
) -> bool
    requires { at.action < MAX_ACTIONS }
    ensures { result ≡ list_any (λ shard. is_left set.now program at parameter shard.low)
        shards.now }
{
    shards
        .as_slice()
        .iter()
        .any(|shard| is_left(set, program, at, parameter, shard.low))
}

/// The least number that the parameter's argument may be.
fn least_argument(ranges: &[ParameterRange], parameter: u8) -> u64
    ensures { result ≡ least_argument ranges.now parameter }
{
    match range_of(ranges, parameter) {
        Some(interval) => interval.low,
        None => 0,
    }
}

/// Whether that of a shard of one of the tables is.
fn is_some_low_left(
    set: &ChainSet,
    program: ProgramId,
    at: NeverAt,
    parameter: u8,
    tables: &[Items<Shard>],
) -> bool
    requires { at.action < MAX_ACTIONS }
    ensures { result ≡ list_any (λ shards. list_any
        (λ shard. is_left set.now program at parameter shard.low) shards) tables.now }
{
    tables
        .iter()
        .any(|shards| is_low_left(set, program, at, parameter, shards))
}

/// Whether some number is left. The least number that is left is the least of the range, or the
/// least key of a shard; so no others are tried.
pub(crate) fn is_some_left(set: &ChainSet, program: ProgramId, at: NeverAt, parameter: u8) -> bool
    requires { at.action < MAX_ACTIONS }
    ensures { result ≡ some_below (2 ^ 64) (is_left set.now program at parameter) }
{
    let least = least_argument(set.ranges(program), parameter);
    let tables = set.shards().tables();
    is_left(set, program, at, parameter, least)
        || is_some_low_left(set, program, at, parameter, tables)
}
