//! `lynx_growths CALL`: makes a call of Lynx's crates on values in memory, and again where memory
//! was wanting to it; with no word it lists the calls. It prints what came of it: `done`;
//! `refused, then done` where memory was wanting, all was as before, and the call was done when it
//! was made again; or what is wrong. The status is 3 where memory was wanting before the call or
//! behind it. For tests/test_refused.py, which refuses growths from outside.
#![tactic(auto)]

use lynx_names::Memory;
use std::alloc::Global;
use std::env;
use std::process::ExitCode;
use std::rt::Env;
use std::sync::Wait;
use std::thread::Threads;
use std::time::Clock;

mod hops;
mod openings;
mod parts;
mod payments;
mod servers;
mod services;
mod stills;
mod texts;
mod tried;
mod values;
mod worlds;

use hops::HopCall;
use openings::OpeningCall;
use parts::{PartCall, try_part};
use servers::{ServerCall, try_server};
use services::{ServiceCall, try_service};
use stills::{StillCall, try_still};
use texts::TextCall;
use tried::Tried;
use values::{ValueCall, try_value};
use worlds::{WorldCall, try_world};

/// A call that is made by its name.
#[derive(Clone, Copy)]
enum Call {
    Still(StillCall),
    Value(ValueCall),
    Part(PartCall),
    Server(ServerCall),
    Service(ServiceCall),
    World(WorldCall),
}

/// The calls by their names.
const CALLS: &[(&str, Call)] = &[
    ("parse", Call::Still(StillCall::Text(TextCall::Parse))),
    ("print", Call::Still(StillCall::Text(TextCall::Print))),
    (
        "parse_script",
        Call::Still(StillCall::Text(TextCall::ParseScript)),
    ),
    (
        "ChainSet::copy",
        Call::Still(StillCall::Text(TextCall::Copy)),
    ),
    (
        "upgrade_set",
        Call::Still(StillCall::Text(TextCall::Upgrade)),
    ),
    (
        "footprint",
        Call::Still(StillCall::Text(TextCall::Footprint)),
    ),
    (
        "conflict_edges",
        Call::Still(StillCall::Text(TextCall::Edges)),
    ),
    ("check", Call::Still(StillCall::Text(TextCall::Check))),
    ("draw", Call::Still(StillCall::Text(TextCall::Draw))),
    ("Changes::put", Call::Value(ValueCall::Put)),
    ("Cells::stage", Call::Value(ValueCall::Stage)),
    ("Cells::list", Call::Value(ValueCall::List)),
    ("ShardMap::from_ranges", Call::Value(ValueCall::Shards)),
    ("Entry::copy", Call::Value(ValueCall::CopyEntry)),
    ("Request::copy", Call::Value(ValueCall::CopyRequest)),
    ("Answer::copy", Call::Value(ValueCall::CopyAnswer)),
    ("Message::copy", Call::Value(ValueCall::CopyMessage)),
    ("HeldBuffer::new", Call::Value(ValueCall::Held)),
    ("Feed::push", Call::Value(ValueCall::Push)),
    ("Feed::next", Call::Value(ValueCall::Next)),
    ("encode", Call::Value(ValueCall::Encode)),
    ("links", Call::Value(ValueCall::Links)),
    ("run_hop", Call::Still(StillCall::Hop(HopCall::Run))),
    ("touches", Call::Still(StillCall::Hop(HopCall::Touches))),
    ("next_of", Call::Still(StillCall::Hop(HopCall::Next))),
    (
        "first_unlawful",
        Call::Still(StillCall::Hop(HopCall::Unlawful)),
    ),
    ("Sequencer::draw", Call::Part(PartCall::Draw)),
    ("MemoryKeeper::commit", Call::Part(PartCall::Commit)),
    ("MemoryKeeper::copy", Call::Part(PartCall::Copy)),
    ("Server::begin", Call::Server(ServerCall::Begin)),
    ("Server::deliver", Call::Server(ServerCall::Deliver)),
    (
        "Server::deliver of a later one",
        Call::Server(ServerCall::Hold),
    ),
    ("Server::wake", Call::Server(ServerCall::Wake)),
    ("Server::messages_due", Call::Server(ServerCall::Due)),
    (
        "Server::open",
        Call::Still(StillCall::Opening(OpeningCall::Open)),
    ),
    (
        "Server::restart",
        Call::Still(StillCall::Opening(OpeningCall::Restart)),
    ),
    (
        "rebuild",
        Call::Still(StillCall::Opening(OpeningCall::Rebuild)),
    ),
    (
        "World::new",
        Call::Still(StillCall::Opening(OpeningCall::World)),
    ),
    ("weave", Call::Still(StillCall::Opening(OpeningCall::Weave))),
    (
        "gather",
        Call::Still(StillCall::Opening(OpeningCall::Gather)),
    ),
    (
        "MemoryKeeper::load",
        Call::Still(StillCall::Opening(OpeningCall::Load)),
    ),
    ("World::apply of a begin", Call::World(WorldCall::Begin)),
    (
        "World::apply of a delivery",
        Call::World(WorldCall::Deliver),
    ),
    ("World::apply of a waking", Call::World(WorldCall::Wake)),
    ("World::apply of a loss", Call::World(WorldCall::Lose)),
    ("World::cells", Call::World(WorldCall::Cells)),
    ("explain", Call::World(WorldCall::Explain)),
    ("owed_hops", Call::World(WorldCall::Owed)),
    ("chart", Call::World(WorldCall::Chart)),
    ("serve", Call::Service(ServiceCall::Serve)),
    ("Cluster::begin", Call::Service(ServiceCall::Begin)),
    (
        "Frontend::begin_all",
        Call::Service(ServiceCall::BeginTogether),
    ),
];

/// Makes it.
fn make<R: Threads + Wait + Clock + Copy + Send + 'static>(
    rt: R,
    alloc: Global,
    call: Call,
) -> Result<Tried, Memory> {
    match call {
        Call::Still(call) => try_still(alloc, call),
        Call::Value(call) => try_value(alloc, call),
        Call::Part(call) => try_part(alloc, call),
        Call::Server(call) => try_server(alloc, call),
        Call::Service(call) => try_service(rt, alloc, call),
        Call::World(call) => try_world(alloc, call),
    }
}

/// Prints the names of all calls.
fn list(rt: &HostRuntime) -> u8 {
    for (name, _) in CALLS {
        let _ = println!(rt; "{name}");
    }
    0
}

/// Makes the call of that name, prints what came of it and gives the status.
fn make_named<R: Threads + Wait + Clock + Copy + Send + 'static>(
    host: &HostRuntime,
    rt: R,
    word: &str,
) -> u8 {
    let Some((_, call)) = CALLS.iter().find(|(name, _)| *name == word) else {
        let _ = eprintln!(host; "lynx_growths: there is no such call");
        return 2;
    };
    match make(rt, host.alloc(), *call) {
        Ok(tried) => {
            let _ = println!(host; "{}", tried.word());
            0
        }
        Err(Memory) => 3,
    }
}

/// Does what the words ask for, and gives the status.
fn obey<R: Threads + Wait + Clock + Copy + Send + 'static>(host: &HostRuntime, rt: R) -> u8 {
    let Ok(args) = env::args(host) else {
        return 3;
    };
    let Ok(words) = args.collect::<Vec<String>>(host.alloc()) else {
        return 3;
    };
    match words.as_slice() {
        [_] => list(host),
        [_, word] => make_named(host, rt, word.as_str()),
        _ => 2,
    }
}

fn main(rt: HostRuntime) -> ExitCode {
    ExitCode::from(obey(&rt, rt))
}
