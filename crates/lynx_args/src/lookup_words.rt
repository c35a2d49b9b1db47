//! The words that ask what stores hold that nobody serves.
ghost use Rattle.std.specs.Prelude.{codes};
ghost use Rattle.clap.specs.Words.{found_of, rows_of};
ghost use Rattle.lynx_args.specs.Jobs.{IsNumber, IsStoreCommand, TakesStores};

use crate::commands::STORE_FOLDER;
use crate::job::StoreJob;
use crate::parser::{found_at, text_at};
use crate::words::{CommandText, HINTS_FLAG, Place, Reads, Word};
use clap::ArgMatches;

const TABLE: &str = "TABLE";

const KEYS: &str = "KEYS";

const CLIENT: &str = "CLIENT";

const NUMBER: &str = "NUMBER";

pub(crate) const READ: CommandText = CommandText {
    name: "read",
    about: "Tell what cells hold, of the stores of a folder",
    after: "A line cell TABLE KEY VALUE for each cell that isn't 0, by key; for a single key always one. No service may have\nthe stores open, they are only read; of a service ask with lynx ask, by lines read TABLE KEY.\nExamples: lynx read stores accounts\n          lynx read stores accounts 17\n          lynx read stores accounts 100..199",
    words: &[
        STORE_FOLDER,
        Word {
            name: TABLE,
            place: Place::Needed(Reads::Text),
            help: "The name of the table",
        },
        Word {
            name: KEYS,
            place: Place::Free(Reads::Text),
            help: "A key, or FROM..TO with both keys included; all keys where it is left out",
        },
        HINTS_FLAG,
    ],
};

pub(crate) const FIND: CommandText = CommandText {
    name: "find",
    about: "Tell what became of a client's request, by the stores of a folder",
    after: "A line for the request, as of show --full, and one for each hop of its chain: done, with its results, or owed; each\nwith its server. Where no server has a record of it: absent, and status 1. No service may have the stores\nopen, they are only read; of a service ask with lynx ask, by lines find CLIENT NUMBER.\nExample: lynx find stores 5 17",
    words: &[
        STORE_FOLDER,
        Word {
            name: CLIENT,
            place: Place::Needed(Reads::Number),
            help: "The client",
        },
        Word {
            name: NUMBER,
            place: Place::Needed(Reads::Number),
            help: "The number of its request",
        },
        HINTS_FLAG,
    ],
};

/// What the words behind `read` ask for.
pub(crate) fn job_of_read<'a>(words: &ArgMatches<'a>) -> StoreJob<'a>
    ensures asked { IsStoreCommand (codes "read") result }
    ensures words { TakesStores (rows_of (found_of words.now)) result }
{
    StoreJob::Read {
        folder: text_at(words, "DIR"),
        table: text_at(words, TABLE),
        keys: found_at(words, KEYS),
    }
}

/// The client that is asked for. The parser lets no other words through.
fn client_of(words: &ArgMatches<'_>) -> u64
    ensures { IsNumber 64 0 (codes "CLIENT") (rows_of (found_of words.now)) result }
{
    words.get_one(CLIENT).unwrap_or(0)
}

/// The number of its request. The parser lets no other words through.
fn number_of(words: &ArgMatches<'_>) -> u64
    ensures { IsNumber 64 0 (codes "NUMBER") (rows_of (found_of words.now)) result }
{
    words.get_one(NUMBER).unwrap_or(0)
}

/// What the words behind `find` ask for.
pub(crate) fn job_of_find<'a>(words: &ArgMatches<'a>) -> StoreJob<'a>
    ensures asked { IsStoreCommand (codes "find") result }
    ensures words { TakesStores (rows_of (found_of words.now)) result }
{
    StoreJob::Find {
        folder: text_at(words, "DIR"),
        client: client_of(words),
        number: number_of(words),
    }
}
