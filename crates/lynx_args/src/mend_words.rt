//! The words that ask for what makes a set accepted.
ghost use Rattle.std.specs.Prelude.{Ok, Some, codes};
ghost use Rattle.clap.specs.Words.{found_of, rows_of};
ghost use Rattle.lynx_args.specs.Jobs.{AskedBy, TakesFound};

use crate::job::Job;
use crate::parser::{choice_at, text_at};
use crate::words::{CommandText, HINTS_FLAG, Place, Reads, SET_FILE, Word};
use clap::ArgMatches;

/// The option by which a changed set is printed.
const WRITE: &str = "write";

pub(crate) const MEND: CommandText = CommandText {
    name: "mend",
    about: "Tell what makes an offending set accepted, the smallest change first",
    after: "Ten changes at most, each with what is lost by it, and each judged before it is told: the set with it is accepted.\nThey are other orders of hops, begins at another server, gets that nobody uses, one server that decides for all\nprograms that meet, programs cut in two, ranges that don't meet, and programs left out. Read what is lost: a changed\nset does other things. A large set takes some seconds.\nOf an accepted set it is nothing to mend.\nStatus 0, or 1 where no change was found.\nExample: lynx mend bank.set; lynx mend bank.set --write 1 > mended.set",
    words: &[
        SET_FILE,
        Word {
            name: WRITE,
            place: Place::Value("N", Reads::Ten),
            help: "Print the text of the set with the Nth change in place of the list, 1 to 10; of an accepted set its own text",
        },
        HINTS_FLAG,
    ],
};

/// What the words behind `mend` ask for.
pub(crate) fn job_of_mending<'a>(words: &ArgMatches<'a>) -> Job<'a>
    ensures asked { AskedBy (Some (codes "mend")) (Ok result) }
    ensures words { TakesFound (rows_of (found_of words.now)) (Ok result) }
{
    Job::Mend {
        set: text_at(words, "SET"),
        write: choice_at(words, WRITE),
    }
}
