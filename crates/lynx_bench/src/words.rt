//! What the words of the command line ask for. The parser lets no words through that lack one which
//! is asked for here, or are of another kind.
ghost use Rattle.std.specs.Prelude.{◌<◌};

use crate::clusters::ClusterWork;
use crate::commands::{
    ACROSS, CONNECTIONS, COUNT, FOLDER, IN_FLIGHT, PIECE, PORT, SECONDS, SERVERS, SHAPE, THREADS,
};
use crate::load::Load;
use crate::measure::{MemoryWork, Work};
use crate::port::PortLoad;
use crate::shape::Shape;
use crate::stores::StoreWork;
use clap::ArgMatches;

/// What the words of the command line ask for.
#[derive(Clone, Copy)]
pub(crate) enum Job<'a> {
    /// Some work so many times.
    Work { work: Work<'a>, count: u64 },
    /// Work of a cluster.
    Cluster(ClusterWork),
    /// The text of the set for so many servers.
    Set { servers: u8 },
    /// A load at a service.
    Port(PortLoad),
}

/// How many servers, one if that isn't told.
fn servers_of(words: &ArgMatches<'_>) -> u8
    ensures { 0 < result }
{
    let servers: u8 = words.get_one(SERVERS).unwrap_or(1);
    servers.max(1)
}

/// A load of payments, of which all go across if that isn't told.
fn load_of(words: &ArgMatches<'_>) -> Load {
    Load {
        servers: servers_of(words),
        threads: words.get_one(THREADS).unwrap_or(1),
        payments: words.get_one(COUNT).unwrap_or(0),
        across: words.get_one(ACROSS).unwrap_or(100),
    }
}

/// A load at a service.
fn port_load_of(words: &ArgMatches<'_>) -> PortLoad {
    PortLoad {
        port: words.get_one(PORT).unwrap_or(0),
        connections: words.get_one(CONNECTIONS).unwrap_or(1),
        in_flight: words.get_one(IN_FLIGHT).unwrap_or(1),
        seconds: words.get_one(SECONDS).unwrap_or(0),
        servers: servers_of(words),
    }
}

/// Work over stores.
fn store_work_of<'a>(work: StoreWork, words: &ArgMatches<'a>) -> Option<Work<'a>> {
    let folder = words.get_str(FOLDER)?;
    Some(Work::Stores { work, folder })
}

/// The world of a work.
fn shape_of(words: &ArgMatches<'_>) -> Option<Shape> {
    Shape::named(words.get_str(SHAPE)?)
}

/// The work of that name.
fn work_of<'a>(name: &str, words: &ArgMatches<'a>) -> Option<Work<'a>> {
    let work = match name {
        "encode" => MemoryWork::Encode,
        "feed" => MemoryWork::Feed {
            piece: words.get_one(PIECE)?,
        },
        "begin" => MemoryWork::Begin,
        "deliver" => MemoryWork::Deliver,
        "open" => MemoryWork::Open,
        "weave" => MemoryWork::Weave {
            shape: shape_of(words)?,
        },
        "cut" => MemoryWork::Cut {
            shape: shape_of(words)?,
        },
        "explain" => MemoryWork::Explain {
            shape: shape_of(words)?,
        },
        "store" => return store_work_of(StoreWork::Pay, words),
        "open-store" => return store_work_of(StoreWork::Open, words),
        _ => return None,
    };
    Some(Work::InMemory(work))
}

/// What a command and the words behind it ask for.
fn job_of_command<'a>(name: &str, words: &ArgMatches<'a>) -> Option<Job<'a>> {
    match name {
        "set" => Some(Job::Set {
            servers: servers_of(words),
        }),
        "port" => Some(Job::Port(port_load_of(words))),
        "cluster" => Some(Job::Cluster(ClusterWork::Carry(load_of(words)))),
        "idle" => Some(Job::Cluster(ClusterWork::Idle {
            servers: servers_of(words),
            seconds: words.get_one(SECONDS)?,
        })),
        _ => Some(Job::Work {
            work: work_of(name, words)?,
            count: words.get_one(COUNT)?,
        }),
    }
}

/// What the words ask for.
pub(crate) fn job_of<'a>(matches: &ArgMatches<'a>) -> Option<Job<'a>> {
    let (name, words) = matches.subcommand()?;
    job_of_command(name, words)
}
