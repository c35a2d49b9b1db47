//! The words by which books are closed and new ones opened.
ghost use Rattle.std.specs.Prelude.{codes};
ghost use Rattle.clap.specs.Words.{found_of, rows_of};
ghost use Rattle.lynx_args.specs.Jobs.{IsStoreCommand, TakesStores};

use crate::job::{CarryPlace, StoreJob};
use crate::parser::{found_at, text_at};
use crate::words::{CommandText, HINTS_FLAG, Place, Reads, Word};
use clap::ArgMatches;

/// The option by which tables are left behind.
const DROP: &str = "drop";

pub(crate) const CARRY: CommandText = CommandText {
    name: "carry",
    about: "Close the books of a folder: make stores of a set in another, with the same cells and no history",
    after: "The stores of FROM are audited and must owe nothing; they are only read. The set may be any accepted one that has\ntheir tables by name. Its programs that only set or add parameters write the cells, as chains of client\n18446744073709551615; a line carry SERVER ENTRIES left MORE tells of each server how many entries that takes. The\nstores are made in DIR.carrying. Once all are whole, FROM gets a file carried, by which it is served no more, and\nDIR.carrying is renamed to DIR. To go back, remove that file while DIR was never served.\nExample: lynx carry stores-1 stores-2 bank.set",
    words: &[
        Word {
            name: "FROM",
            place: Place::Needed(Reads::Text),
            help: "The folder of the stores that are full, or whose set changes; no service has them open",
        },
        Word {
            name: "DIR",
            place: Place::Needed(Reads::Text),
            help: "The folder in which the new stores are made; it has none",
        },
        Word {
            name: "SET",
            place: Place::Needed(Reads::Text),
            help: "The file of the text of the new stores' set",
        },
        Word {
            name: DROP,
            place: Place::Value("TABLE,..", Reads::Text),
            help: "Leave the cells of these tables behind",
        },
        HINTS_FLAG,
    ],
};

/// What the words behind `carry` ask for.
pub(crate) fn job_of_carrying<'a>(words: &ArgMatches<'a>) -> StoreJob<'a>
    ensures asked { IsStoreCommand (codes "carry") result }
    ensures words { TakesStores (rows_of (found_of words.now)) result }
{
    StoreJob::Carry {
        place: CarryPlace {
            from: text_at(words, "FROM"),
            folder: text_at(words, "DIR"),
            set: text_at(words, "SET"),
            dropped: found_at(words, DROP),
        },
    }
}
