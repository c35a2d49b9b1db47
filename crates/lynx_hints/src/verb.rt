//! The first words of lines, and what has to stand behind them.

use crate::word::Written;
use std::fmt::Write;

/// What a line is of.
#[derive(Clone, Copy, PartialEq, Eq)]
pub(crate) enum LineKind {
    Set,
    Script,
    /// What a service is asked.
    Asked,
}

/// The first word of a line of a set, but for the version's, of a script, or of what a service is
/// asked.
#[derive(Clone, Copy, PartialEq, Eq)]
pub(crate) enum Verb {
    Servers,
    Table,
    Shard,
    Program,
    Range,
    Hop,
    Get,
    Set,
    Add,
    Sub,
    Max,
    Let,
    Need,
    End,
    Begin,
    Deliver,
    Lose,
    Wake,
    Restart,
    /// A begin without its server.
    Request,
    Look,
    Read,
    Find,
    Quit,
    Shut,
}

/// The words of the line of each verb, and how many there are; at least, where the line is open.
/// Those of a set stand in the order in which they are told.
pub(crate) const LINES: [(Verb, &str, usize); 25] = [
    (Verb::Servers, "servers N", 2),
    (Verb::Table, "table NAME", 2),
    (Verb::Shard, "shard LO HI SERVER", 4),
    (Verb::Program, "program NAME PARAM..", 2),
    (Verb::Range, "range PARAM LO..HI", 3),
    (Verb::Get, "get NAME TABLE KEY", 4),
    (Verb::Set, "set TABLE KEY VALUE", 4),
    (Verb::Add, "add TABLE KEY AMOUNT", 4),
    (Verb::Sub, "sub TABLE KEY AMOUNT", 4),
    (Verb::Max, "max TABLE KEY VALUE", 4),
    (Verb::Let, "let NAME VALUE + VALUE, or - for +", 5),
    (
        Verb::Need,
        "need VALUE REL VALUE, REL one of < <= = != >= >",
        4,
    ),
    (Verb::Hop, "hop SERVER", 2),
    (Verb::End, "end", 1),
    (Verb::Begin, "begin SERVER CLIENT NUMBER PROGRAM ARG..", 5),
    (Verb::Deliver, "deliver ORIGIN:INDEX HOP", 3),
    (Verb::Lose, "lose ORIGIN:INDEX HOP", 3),
    (Verb::Wake, "wake SERVER", 2),
    (Verb::Restart, "restart SERVER", 2),
    (Verb::Request, "begin CLIENT NUMBER PROGRAM ARG..", 4),
    (
        Verb::Look,
        "look ORIGIN:INDEX HOP, with wait behind it or without",
        3,
    ),
    (Verb::Read, "read TABLE KEY, or FROM..TO for KEY", 3),
    (Verb::Find, "find CLIENT NUMBER", 3),
    (Verb::Quit, "quit", 1),
    (Verb::Shut, "shut", 1),
];

/// What a word of a line is to be that has to be known.
#[derive(Clone, Copy, PartialEq, Eq)]
pub(crate) enum Role {
    Server,
    Table,
    Key,
    Value,
    Other,
}

impl Verb {
    /// The verb that the word is, of whatever lines.
    pub fn of(word: &[u8]) -> Option<Verb> {
        for (verb, _, _) in LINES {
            if verb.spelled().as_bytes() == word {
                return Some(verb);
            }
        }
        None
    }

    /// The verb that the word is among lines of that kind.
    pub fn among(kind: LineKind, word: &[u8]) -> Option<Verb> {
        for (verb, _, _) in LINES {
            if verb.kind() == kind && verb.spelled().as_bytes() == word {
                return Some(verb);
            }
        }
        None
    }

    /// The words of its line, and how many there are.
    pub fn line(self) -> (&'static str, usize) {
        let line = LINES.iter().find(|line| line.0 == self);
        line.map_or(("", 0), |line| (line.1, line.2))
    }

    pub fn spelled(self) -> &'static str {
        let words = self.line().0;
        words.split_once(' ').map_or(words, |parts| parts.0)
    }

    /// What its line is of.
    pub fn kind(self) -> LineKind {
        match self {
            Verb::Begin | Verb::Deliver | Verb::Lose | Verb::Wake | Verb::Restart =>
                LineKind::Script,
            Verb::Request | Verb::Look | Verb::Read | Verb::Find | Verb::Quit | Verb::Shut => {
                LineKind::Asked
            }
            _ => LineKind::Set,
        }
    }

    /// Whether its second word is a chain.
    pub fn has_chain(self) -> bool {
        match self {
            Verb::Deliver | Verb::Lose | Verb::Look => true,
            _ => false,
        }
    }

    /// Whether its line is an action's.
    pub fn is_action(self) -> bool {
        match self {
            Verb::Get | Verb::Let | Verb::Need => true,
            _ => self.is_update(),
        }
    }

    pub fn is_update(self) -> bool {
        match self {
            Verb::Set | Verb::Add | Verb::Sub | Verb::Max => true,
            _ => false,
        }
    }

    /// The role of the word of that place, counted from 1.
    pub fn role(self, word: usize) -> Role {
        match (self, word) {
            (Verb::Hop, _) => Role::Server,
            (_, 2) if self.has_chain() || self.kind() == LineKind::Script => Role::Server,
            (Verb::Read, 2) | (Verb::Get, 3) => Role::Table,
            (Verb::Get, 4) => Role::Key,
            (Verb::Let, 3 | 5) | (Verb::Need, 2 | 4) => Role::Value,
            (_, 2) if self.is_update() => Role::Table,
            (_, 3) if self.is_update() => Role::Key,
            (_, 4) if self.is_update() => Role::Value,
            _ => Role::Other,
        }
    }

    /// Writes how its line looks.
    pub fn put_form(self, out: &mut String) -> Written {
        writeln!(out, "  the line is: {}", self.line().0)
    }
}

/// Whether a comment begins so.
pub(crate) fn begins_comment(text: &[u8]) -> bool {
    match text {
        [b'#', ..] | [b'/', b'/', ..] => true,
        _ => false,
    }
}
