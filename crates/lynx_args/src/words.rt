//! Commands and their words, as tables from which the parser is made.
use clap::{Arg, ArgAction, Command, value_parser};
use std::alloc::{AllocError, Global};

/// The script of a run or of the picture of one.
pub(crate) const SCRIPT: &str = "SCRIPT";

/// The option of each command that reads a text.
pub(crate) const HINTS: &str = "hints";

/// What a word may be.
#[derive(Clone, Copy)]
pub(crate) enum Reads {
    Text,
    Number,
    /// 1 to 65535.
    Port,
    /// 1 to 100.
    Hundred,
    /// 1 to 10.
    Ten,
}

/// Where a word stands, whether it may be left out, and what it may be.
#[derive(Clone, Copy)]
pub(crate) enum Place {
    /// At its place behind the command, always.
    Needed(Reads),
    /// The same, by another name in the help.
    NeededAs(&'static str, Reads),
    /// At its place behind the command, if at all.
    Free(Reads),
    /// An option alone.
    Flag,
    /// An option with a value, by this name in the help.
    Value(&'static str, Reads),
}

/// A word behind a command.
pub(crate) struct Word {
    pub name: &'static str,
    pub place: Place,
    pub help: &'static str,
}

/// A command, what its help says before and behind its words, and these.
pub(crate) struct CommandText {
    pub name: &'static str,
    pub about: &'static str,
    pub after: &'static str,
    pub words: &'static [Word],
}

/// The set of a command that reads files alone.
pub(crate) const SET_FILE: Word = Word {
    name: "SET",
    place: Place::Needed(Reads::Text),
    help: "The file of the set's text; - is a file of that name",
};

/// The script of a command that may have one.
pub(crate) const SCRIPT_FILE: Word = Word {
    name: SCRIPT,
    place: Place::Free(Reads::Text),
    help: "The file of the script; - is a file of that name",
};

/// The option by which faults tell the place in a text, or the cause.
pub(crate) const HINTS_FLAG: Word = Word {
    name: HINTS,
    place: Place::Flag,
    help: "Show behind the line of a fault where it is in the text and what was expected, or why the system refused, as on a\nterminal always",
};

/// An argument that takes this.
fn parsed<'a>(arg: Arg<'a>, reads: Reads) -> Arg<'a> {
    match reads {
        Reads::Text => arg,
        Reads::Number => arg.value_parser(value_parser!(u64)),
        Reads::Port => arg.value_parser(value_parser!(u16).range(1..=65535)),
        Reads::Hundred => arg.value_parser(value_parser!(u8).range(1..=100)),
        Reads::Ten => arg.value_parser(value_parser!(u8).range(1..=10)),
    }
}

/// A word of the parser.
fn arg_of<'a>(alloc: Global, word: &Word) -> Arg<'a> {
    let arg = Arg::new(alloc, word.name).help(word.help);
    match word.place {
        Place::Needed(reads) => parsed(arg, reads).required(true),
        Place::NeededAs(shown, reads) => parsed(arg, reads).required(true).value_name(shown),
        Place::Free(reads) => parsed(arg, reads),
        Place::Flag => arg.long(word.name).action(ArgAction::SetTrue),
        Place::Value(shown, reads) => parsed(arg, reads)
            .long(word.name)
            .value_name(shown)
            .action(ArgAction::Set),
    }
}

/// A command of the parser.
pub(crate) fn command_of<'a>(alloc: Global, text: &CommandText) -> Result<Command<'a>, AllocError> {
    let mut command = Command::new(alloc, text.name)
        .about(text.about)
        .after_help(text.after);
    for word in text.words {
        command = command.arg(arg_of(alloc, word))?;
    }
    Ok(command)
}
