//! The commands and their words, as tables from which the parser is made.
use clap::{Arg, Command, value_parser};
use std::alloc::{AllocError, Global};

/// What a word may be.
#[derive(Clone, Copy)]
enum Reads {
    Text,
    /// A [`Shape`](crate::shape::Shape).
    Shape,
    Number,
    /// 1 to 65535.
    Wide,
    /// 1 to 255.
    Small,
    /// 1 to 16.
    Servers,
    /// 0 to 100.
    Hundred,
}

/// A word behind a command, at its place: its name, what it may be, and its help. One that may be
/// left out stands last.
#[derive(Clone, Copy)]
enum Word {
    Needed(&'static str, Reads, &'static str),
    Free(&'static str, Reads, &'static str),
}

/// A command, and the words behind it.
struct CommandText {
    name: &'static str,
    about: &'static str,
    words: &'static [Word],
}

pub(crate) const ACROSS: &str = "ACROSS";

pub(crate) const CONNECTIONS: &str = "CONNECTIONS";

pub(crate) const COUNT: &str = "COUNT";

pub(crate) const FOLDER: &str = "FOLDER";

pub(crate) const IN_FLIGHT: &str = "IN_FLIGHT";

pub(crate) const PIECE: &str = "PIECE";

pub(crate) const PORT: &str = "PORT";

pub(crate) const SECONDS: &str = "SECONDS";

pub(crate) const SERVERS: &str = "SERVERS";

pub(crate) const SHAPE: &str = "SHAPE";

pub(crate) const THREADS: &str = "THREADS";

/// The names of shapes.
const SHAPES: &[&str] = &["2", "16", "adds", "alternating", "cells", "cycle"];

/// How many times the work is done.
const TIMES: Word = Word::Needed(COUNT, Reads::Number, "How many times");

/// The world that is made.
const WORLD: Word = Word::Needed(SHAPE, Reads::Shape, "What the world's chains do");

/// How many entries the world has.
const ENTRIES: Word = Word::Needed(COUNT, Reads::Number, "How many entries");

/// The stores.
const STORES: Word = Word::Needed(FOLDER, Reads::Text, "The folder of the stores, or :memory:");

/// The servers of a cluster.
const OF_SERVERS: Word = Word::Needed(SERVERS, Reads::Servers, "Servers, 1 to 16");

/// For how long.
const FOR_SECONDS: Word = Word::Needed(SECONDS, Reads::Number, "For how many seconds");

/// What can be measured.
const COMMANDS: &[CommandText] = &[
    CommandText {
        name: "encode",
        about: "Write encodings",
        words: &[Word::Needed(COUNT, Reads::Number, "How many bytes")],
    },
    CommandText {
        name: "feed",
        about: "Read encodings",
        words: &[
            Word::Needed(PIECE, Reads::Number, "How many bytes are read at once"),
            Word::Needed(COUNT, Reads::Number, "How many bytes in all"),
        ],
    },
    CommandText {
        name: "begin",
        about: "Begin chains at a server in memory",
        words: &[TIMES],
    },
    CommandText {
        name: "deliver",
        about: "Begin chains, and deliver their messages",
        words: &[TIMES],
    },
    CommandText {
        name: "open",
        about: "Begin chains, and open the server again",
        words: &[TIMES],
    },
    CommandText {
        name: "weave",
        about: "Weave the entries of a world",
        words: &[WORLD, ENTRIES],
    },
    CommandText {
        name: "cut",
        about: "Find what of a world fits together, once the first server has lost the latter half",
        words: &[WORLD, ENTRIES],
    },
    CommandText {
        name: "explain",
        about: "Weave a world, and find an order of its chains",
        words: &[WORLD, ENTRIES],
    },
    CommandText {
        name: "store",
        about: "Pay from one store to another",
        words: &[STORES, TIMES],
    },
    CommandText {
        name: "open-store",
        about: "Open the first of two stores",
        words: &[STORES, TIMES],
    },
    CommandText {
        name: "cluster",
        about: "Pay in a cluster in memory, with a thread for each server; print how long that took, and how many\nmessages came again whose hop was done",
        words: &[
            OF_SERVERS,
            Word::Needed(THREADS, Reads::Small, "Threads that pay, 1 to 255"),
            Word::Needed(COUNT, Reads::Number, "How many payments"),
            Word::Free(
                ACROSS,
                Reads::Hundred,
                "Of 100 payments so many go to another server, 100 if left out",
            ),
        ],
    },
    CommandText {
        name: "idle",
        about: "Have such a cluster do nothing",
        words: &[OF_SERVERS, FOR_SECONDS],
    },
    CommandText {
        name: "set",
        about: "Print the set of such a cluster",
        words: &[OF_SERVERS],
    },
    CommandText {
        name: "port",
        about: "Begin chains of one hop at a service over such a set; print how many a second, and within what time\nhalf of them, 99 of 100 and 999 of 1,000 were answered",
        words: &[
            Word::Needed(PORT, Reads::Wide, "The service's port at this machine"),
            Word::Needed(CONNECTIONS, Reads::Small, "Connections, 1 to 255"),
            Word::Needed(
                IN_FLIGHT,
                Reads::Wide,
                "Begins of each that are sent and not answered, 1 to 65535",
            ),
            FOR_SECONDS,
            Word::Free(
                SERVERS,
                Reads::Servers,
                "Servers of the set, 1 to 16, 1 if left out",
            ),
        ],
    },
];

/// An argument that takes this.
fn parsed<'a>(arg: Arg<'a>, reads: Reads) -> Arg<'a> {
    match reads {
        Reads::Text => arg,
        Reads::Shape => arg.value_parser(SHAPES),
        Reads::Number => arg.value_parser(value_parser!(u64)),
        Reads::Wide => arg.value_parser(value_parser!(u16).range(1..=65535)),
        Reads::Small => arg.value_parser(value_parser!(u8).range(1..=255)),
        Reads::Servers => arg.value_parser(value_parser!(u8).range(1..=16)),
        Reads::Hundred => arg.value_parser(value_parser!(u8).range(0..=100)),
    }
}

/// A word of the parser.
fn arg_of<'a>(alloc: Global, word: Word) -> Arg<'a> {
    match word {
        Word::Needed(name, reads, help) => {
            parsed(Arg::new(alloc, name).help(help), reads).required(true)
        }
        Word::Free(name, reads, help) => parsed(Arg::new(alloc, name).help(help), reads),
    }
}

/// A command of the parser.
fn command_of<'a>(alloc: Global, text: &CommandText) -> Result<Command<'a>, AllocError> {
    let mut command = Command::new(alloc, text.name).about(text.about);
    for word in text.words {
        command = command.arg(arg_of(alloc, *word))?;
    }
    Ok(command)
}

/// The command line of the program.
pub(crate) fn command<'a>(alloc: Global) -> Result<Command<'a>, AllocError> {
    let mut command = Command::new(alloc, "lynx_bench")
        .about("Does some work, to be timed from outside")
        .subcommand_required(true);
    for text in COMMANDS {
        command = command.subcommand(command_of(alloc, text)?)?;
    }
    Ok(command)
}
