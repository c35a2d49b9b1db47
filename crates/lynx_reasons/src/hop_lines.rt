//! On which line of a set's text a hop stands.

ghost use Rattle.std.specs.Prelude.{◌≡◌, ◌<◌, ◌^◌, ◌+◌, length, sum_by};
ghost use Rattle.std.specs.List.{range_with_len};
ghost use Rattle.lynx_set.specs.Rules.{IsSet};
ghost use Rattle.lynx_set.specs.Text.{tables_lines};
ghost use Rattle.lynx_reasons.specs.HopLines.{line_of};
ghost use Rattle.lynx_reasons.specs.inner.Counts.{lines_of_hop, lines_of_program, lines_of_program_at, lines_to_hop, lines_to_hop_of};

use lynx_graph::{Place, program_of};
use lynx_names::{Items, ProgramId};
use lynx_set::{ChainSet, Hop, Name, Program};
use lynx_shards::Shard;

/// How many lines a hop has: its own, and one for each action.
fn lines_of_hop(hop: &Hop) -> usize
    ensures { result ≡ lines_of_hop hop.now }
{
    1 + hop.actions.len()
}

fn lines_of_hops(hops: &[Hop]) -> usize
    requires { sum_by lines_of_hop hops.now < 2 ^ 64 }
    ensures { result ≡ sum_by lines_of_hop hops.now }
{
    let mut lines = 0;
    for hop in hops {
        lines += lines_of_hop(hop);
    }
    lines
}

/// How many lines a program has: its first, its ranges, its hops, and its end.
fn lines_of_program(program: &Program) -> usize
    requires { lines_of_program program.now < 2 ^ 64 }
    ensures { result ≡ lines_of_program program.now }
{
    2 + program.ranges.len() + lines_of_hops(program.hops.as_slice())
}

/// How many lines of a program stand before the hop of that number.
fn lines_to_hop(program: &Program, hop: usize) -> usize
    requires { lines_of_program program.now < 2 ^ 64 }
    ensures { result ≡ lines_to_hop program.now hop }
{
    let hops = program.hops.as_slice();
    1 + program.ranges.len() + lines_of_hops(&hops[..hop.min(hops.len())])
}

/// How many lines the program of that number has, none where there is no such program.
fn lines_of_program_at(set: &ChainSet, program: ProgramId) -> usize
    requires { lines_of_program_at set.now program < 2 ^ 64 }
    ensures { result ≡ lines_of_program_at set.now program }
{
    match set.program(program) {
        Some(program) => lines_of_program(program),
        None => 0,
    }
}

/// How many lines the programs before that one have.
fn lines_of_programs(set: &ChainSet, program: ProgramId) -> usize
    requires { sum_by (lines_of_program_at set.now) (range_with_len 0 program) < 2 ^ 64 }
    ensures { result ≡ sum_by (lines_of_program_at set.now) (range_with_len 0 program) }
{
    let mut lines = 0;
    for number in 0..program.index() {
        lines += lines_of_program_at(set, program_of(number));
    }
    lines
}

/// How many lines of its program stand before a hop.
fn lines_in_program(set: &ChainSet, place: &Place) -> usize
    requires { lines_of_program_at set.now place.now.program < 2 ^ 64 }
    ensures { result ≡ lines_to_hop_of set.now place.now }
{
    match set.program(place.program) {
        Some(program) => lines_to_hop(program, place.hop),
        None => 0,
    }
}

/// How many lines the tables have, each with its shards.
fn lines_of_tables(names: &[Name], tables: &[Items<Shard>]) -> usize
    requires { length (tables_lines names.now tables.now) < 2 ^ 64 }
    ensures { result ≡ length (tables_lines names.now tables.now) }
{
    let mut lines = 0;
    for place in 0..names.len() {
        if let Some(shards) = tables.get(place) {
            lines += 1 + shards.len();
        }
    }
    lines
}

/// The line of the set's text on which the hop stands, counted from 1: one more than the lines
/// before it.
pub fn line_of(set: &ChainSet, place: &Place) -> usize
    requires { IsSet set.now }
    ensures { result ≡ line_of set.now place.now }
{
    let tables = lines_of_tables(set.tables().as_slice(), set.shards().tables());
    let programs = lines_of_programs(set, place.program);
    3 + tables + programs + lines_in_program(set, place)
}
