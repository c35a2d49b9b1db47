//! What a request and a message are asked before they are served.
ghost use Rattle.std.specs.Prelude.{◌≡◌, Some, None, map, length, nat_eq, ◌≤◌};
ghost use Rattle.std.specs.List.{list_all};
ghost use Rattle.std.specs.Cmp.Lexicographic.{pointwise};
ghost use Rattle.lynx_rules.specs.Checks.{is_key_at, is_action_at, are_keys_placed, do_args_fit, request_fault, result_count, begins, fits, fits_program};
ghost use Rattle.lynx_set.specs.Lookups.{program_at};

use crate::visits::{is_origin, visited};
use lynx_entry::{Answer, Entry, Message, NumberAt, Request};
use lynx_hops::value::key_of;
use lynx_names::{ServerId, TableId, Values};
use lynx_set::{Action, ChainSet, Hop, Key, Program, are_in_range};

/// A key that is a parameter names a cell of the server; a literal was judged with the set's text.
fn is_key_at(set: &ChainSet, server: ServerId, args: &[u64], table: TableId, key: Key) -> bool
    ensures { result ≡ is_key_at set.now server args.now table key }
{
    match key {
        Key::Literal(_) => true,
        Key::Param(_) => set.shards().server_of(table, key_of(args, key)) == server,
    }
}

fn is_action_at(set: &ChainSet, server: ServerId, args: &[u64], action: Action) -> bool
    ensures { result ≡ is_action_at set.now server args.now action }
{
    match action.cell() {
        Some((table, key)) => is_key_at(set, server, args, table, key),
        None => true,
    }
}

fn is_hop_placed(set: &ChainSet, args: &[u64], hop: &Hop) -> bool
    ensures { result ≡ list_all (is_action_at set.now hop.now.server args.now) hop.now.actions }
{
    hop.actions
        .as_slice()
        .iter()
        .all(|action| is_action_at(set, hop.server, args, *action))
}

/// Each hop's cells are at the hop's server.
fn are_keys_placed(set: &ChainSet, args: &[u64], hops: &[Hop]) -> bool
    ensures { result ≡ are_keys_placed set.now args.now hops.now }
{
    hops.iter().all(|hop| is_hop_placed(set, args, hop))
}

/// The arguments are in their ranges, and each hop's cells at the hop's server.
fn do_args_fit(set: &ChainSet, args: &[u64], program: &Program) -> bool
    ensures { result ≡ do_args_fit set.now args.now program.now }
{
    are_in_range(program.ranges.as_slice(), args)
        && are_keys_placed(set, args, program.hops.as_slice())
}

/// What is wrong with a request at this server: the first of unknown program, wrong origin, count
/// of arguments, outside range and wrong shard.
pub fn request_fault(set: &ChainSet, server: ServerId, request: &Request) -> Option<Answer>
    ensures { result ≡ request_fault set.now server request.now }
{
    let Some(program) = set.program(request.program) else {
        return Some(Answer::UnknownProgram);
    };
    if !is_origin(set, request.program, server) {
        Some(Answer::WrongOrigin)
    } else if request.args.len() != program.parameters {
        Some(Answer::ArgCount)
    } else if !are_in_range(program.ranges.as_slice(), request.args.as_slice()) {
        Some(Answer::OutsideRange)
    } else if !are_keys_placed(set, request.args.as_slice(), program.hops.as_slice()) {
        Some(Answer::WrongShard)
    } else {
        None
    }
}

/// How many values a hop gives.
fn result_count(hop: &Hop) -> usize
    ensures { result ≡ result_count hop.now }
{
    hop.actions
        .as_slice()
        .iter()
        .filter(|action| action.binds())
        .count()
}

/// Each of the hops gave as many results as it declares.
fn have_counts(results: &[Values], hops: &[Hop]) -> bool
    ensures { result ≡ pointwise nat_eq (map length results.now) (map result_count hops.now) }
{
    match (results, hops) {
        ([], []) => true,
        ([first, results @ ..], [hop, hops @ ..]) => {
            first.len() == result_count(hop) && have_counts(results, hops)
        }
        _ => false,
    }
}

/// One number for each of these servers, in their order.
fn are_for(numbers: &[NumberAt], servers: &[ServerId]) -> bool
    ensures { result ≡ pointwise nat_eq (map (λ number. number.server) numbers.now) servers.now }
{
    match (numbers, servers) {
        ([], []) => true,
        ([number, numbers @ ..], [server, servers @ ..]) => {
            number.server == *server && are_for(numbers, servers)
        }
        _ => false,
    }
}

/// An entry in which this very chain began.
pub fn begins(message: &Message, entry: &Entry) -> bool
    ensures { result ≡ begins message.now entry.now }
{
    match entry {
        Entry::Begun(begun) => {
            begun.chain == message.chain
                && begun.request.program == message.program
                && begun.request.args == message.args
                && begun.numbers == message.numbers
        }
        Entry::Refused(_) | Entry::Hop(_) => false,
    }
}

/// What a message of a program and one of its hops is asked, where the program visits these
/// servers.
fn fits(
    set: &ChainSet,
    server: ServerId,
    message: &Message,
    program: &Program,
    hop: &Hop,
    servers: &[ServerId],
) -> bool
    requires { message.now.hop ≤ length program.now.hops }
    ensures { result ≡ fits set.now server message.now program.now hop.now servers.now }
{
    let hops = program.hops.as_slice();
    message.hop > 0
        && hop.server == server
        && is_origin(set, message.program, message.chain.origin)
        && program.parameters == message.args.len()
        && do_args_fit(set, message.args.as_slice(), program)
        && are_for(message.numbers.as_slice(), servers)
        && have_counts(
            message.results.as_slice(),
            &hops[..usize::from(message.hop)],
        )
}

/// The message is of a later hop of a program of the set, and is what that hop may be sent. Takes
/// no memory.
pub fn fits_program(set: &ChainSet, server: ServerId, message: &Message) -> bool
    ensures { result ≡ fits_program set.now server message.now
        (program_at set.now message.now.program) }
{
    let Some(program) = set.program(message.program) else {
        return false;
    };
    let Some(hop) = program.hops.as_slice().get(usize::from(message.hop)) else {
        return false;
    };
    let servers = visited(set, message.program);
    fits(set, server, message, program, hop, servers.as_slice())
}
