//! The commands that have no file of their own, and their words.
use crate::words::{CommandText, HINTS_FLAG, Place, Reads, SCRIPT_FILE, SET_FILE, Word};

/// The options of a check.
pub(crate) const WHY: &str = "why";

pub(crate) const ALL: &str = "all";

/// The options of a run.
pub(crate) const CHECKED: &str = "checked";

pub(crate) const OWED: &str = "owed";

pub(crate) const STORES: &str = "stores";

/// The option by which damaged copies are restored as far as they go.
pub(crate) const LONGEST: &str = "longest";

pub(crate) const CHECK: CommandText = CommandText {
    name: "check",
    about: "Judge a set of chain programs",
    after: "Status 0 where the set is accepted, 1 where it offends.\nExample: lynx check payment.set",
    words: &[
        SET_FILE,
        Word {
            name: WHY,
            place: Place::Flag,
            help: "Tell behind the verdict what it means, in ten lines at most: of a set that offends a cycle by programs and lines,\nand which programs to look at first; of an accepted one why each group of programs is fine",
        },
        Word {
            name: ALL,
            place: Place::Flag,
            help: "Tell behind that, too, which hops may conflict, which programs make the server where they begin busy or can\nnever begin, and of a set that offends which blocks are in the way",
        },
        HINTS_FLAG,
    ],
};

pub(crate) const RUN: CommandText = CommandText {
    name: "run",
    about: "Run a script over a set of chain programs",
    after: "The set isn't checked unless --checked is given: an offending one can end with a cycle, status 1.\nWith --stores a run goes on over what runs before it kept, and its last lines tell of all of it.\nExample: lynx run payment.set payment.script",
    words: &[
        Word {
            name: "SET",
            place: Place::Needed(Reads::Text),
            help: "The file of the set's text, or - alone for standard input: a set text, a line --, a script",
        },
        SCRIPT_FILE,
        Word {
            name: CHECKED,
            place: Place::Flag,
            help: "Refuse a set that offends, as check does, and run nothing",
        },
        Word {
            name: OWED,
            place: Place::Flag,
            help: "Tell behind the last line each hop that a chain still owes",
        },
        Word {
            name: STORES,
            place: Place::Value("DIR", Reads::Text),
            help: "Run over the stores of the folder, server-0.lynx and so on; those that aren't there are made",
        },
        HINTS_FLAG,
    ],
};

/// The store of a command that opens one.
const STORE_FILE: Word = Word {
    name: "STORE",
    place: Place::Needed(Reads::Text),
    help: "The file of the store; its log NAME-wal is read with it",
};

/// The option by which entries tell who asked for them, and for what.
pub(crate) const FULL: &str = "full";

pub(crate) const SHOW: CommandText = CommandText {
    name: "show",
    about: "List what a store holds: its server, its entries and its cells",
    after: "The store is only read. A fault of it is told as other-version, damaged or store.\nExample: lynx show server-0.lynx",
    words: &[
        STORE_FILE,
        Word {
            name: FULL,
            place: Place::Flag,
            help: "Tell behind each entry the client, the number, the program and the arguments of its request; behind a later hop\nthe program and the arguments",
        },
        HINTS_FLAG,
    ],
};

pub(crate) const UPGRADE: CommandText = CommandText {
    name: "upgrade",
    about: "Make a store of version 1 one of version 2, for the same set at version 2",
    after: "No service may have the store open, and a copy of it should be kept until the new one is in use.\nEntries and cells stay what they are. A fault of it is told as other-version, damaged or store: it is\nthen as it was, or after store as it was or upgraded.\nExample: lynx upgrade server-0.lynx",
    words: &[STORE_FILE, HINTS_FLAG],
};

/// The folder of stores that nobody has open.
pub(crate) const STORE_FOLDER: Word = Word {
    name: "DIR",
    place: Place::Needed(Reads::Text),
    help: "The folder of the stores, server-0.lynx and so on",
};

pub(crate) const EXTEND: CommandText = CommandText {
    name: "extend",
    about: "Give the stores of a folder to a set that extends theirs: with more programs, tables or servers",
    after: "The set has each table and each program of theirs under its number, the same to the last word, and as many\nservers or more; version 1 may rise to 2. An offending set is refused as by check, and nothing is opened.\nNo service may have the stores open. All are read first, then the stores of new servers are made, then each\nold one is changed: after a stop the same words go on. It prints made N, extended N ENTRIES or same N for\neach server.\nExample: lynx extend stores grown.set",
    words: &[
        STORE_FOLDER,
        Word {
            name: "SET",
            place: Place::Needed(Reads::Text),
            help: "The file of the text of a set that extends theirs",
        },
        HINTS_FLAG,
    ],
};

pub(crate) const RESTORE: CommandText = CommandText {
    name: "restore",
    about: "Make new stores of what copies of stores hold together, of whatever moments they are",
    after: "Of each copy as many first entries are taken as can be: those whose messages others sent that are taken too. So\nthe new stores are of one run, and of no server can more be had. The copies are only read. The stores are made in\nDIR/restore.new and moved when all are whole. It prints restored N ENTRIES of ENTRIES for each server; with --hints\nthe requests that were cut off, of which clients have to be told that their answers are void.\nExample: lynx restore copies stores",
    words: &[
        Word {
            name: "FROM",
            place: Place::Needed(Reads::Text),
            help: "The folder of the copies, server-0.lynx and so on, all of stores of one set",
        },
        Word {
            name: "DIR",
            place: Place::Needed(Reads::Text),
            help: "The folder in which the stores are made; it has none",
        },
        Word {
            name: LONGEST,
            place: Place::Flag,
            help: "Of a copy that is damaged take its first entries, as many as are whole and lawful, and of one that is\nmissing none, where both are refused else",
        },
        HINTS_FLAG,
    ],
};

pub(crate) const AUDIT: CommandText = CommandText {
    name: "audit",
    about: "Check the stores of a folder as the end of a service does, and print the order of all chains",
    after: "No service may have the stores open; they are only read, so a copy of the folder does as well. Each server is\nopened over a copy of its store in memory, all histories are woven to one world, and what explains it is\nprinted: closed, and the order, or a cycle. Behind it: entries SERVER COUNT, and cells TABLE COUNT of the\ncells that aren't 0. Faults are those of serve. Status 0, or 1 where it is a cycle.\nExample: lynx audit stores",
    words: &[STORE_FOLDER, HINTS_FLAG],
};

pub(crate) const OWES: CommandText = CommandText {
    name: "owed",
    about: "List the hops that chains owe, of the stores of a folder",
    after: "A line owed CHAIN HOP server S since STAMP for each: the server that is to do it, and the stamp of the last\nhop that its chain did. They are done once the set is served over these stores. No service may have them\nopen; they are only read. Faults are those of audit.\nExample: lynx owed stores",
    words: &[STORE_FOLDER, HINTS_FLAG],
};
