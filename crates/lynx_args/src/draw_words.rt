//! The words of the command line behind `draw`.
ghost use Rattle.std.specs.Prelude.{Some, codes};
ghost use Rattle.clap.specs.Words.{found_of, rows_of};
ghost use Rattle.lynx_args.specs.Jobs.{AskedBy, TakesFound};

use crate::job::{CommandFault, Job, job_of_draw};
use crate::parser::{choice_at, flag_at, found_at, text_at};
use crate::words::{CommandText, HINTS_FLAG, Place, Reads, SCRIPT, SCRIPT_FILE, SET_FILE, Word};
use clap::ArgMatches;

/// The options of a picture.
const WALK: &str = "walk";

const LATE: &str = "late";

const MENDED: &str = "mended";

pub(crate) const DRAW: CommandText = CommandText {
    name: "draw",
    about: "Draw a set of chain programs as a text for Graphviz, or a run of a script as an SVG",
    after: "Of a set: dashed lines join hops that may conflict, red steps are those by which the set offends.\nStatus 0 where the set is accepted, 1 where it offends: it is drawn all the same.\nWith --mended: the set with a change, which is accepted; status 1 where there is no such change.\nOf a run: each server's entries stand in a column, arrows are messages, red lines lead around a cycle.\nStatus 0 where an order explains the run, 1 where it ends with a cycle. The set isn't checked.\nExamples: lynx draw payment.set | dot -Tsvg > payment.svg\n          lynx draw payment.set payment.script > run.svg",
    words: &[
        SET_FILE,
        SCRIPT_FILE,
        Word {
            name: WALK,
            place: Place::Flag,
            help: "Draw the programs of the walk alone by which the set offends, or would if it weren't excused",
        },
        Word {
            name: LATE,
            place: Place::Flag,
            help: "Draw the programs alone that stand in the way of a set that offends, in thick frames, and those that they meet",
        },
        Word {
            name: MENDED,
            place: Place::Value("N", Reads::Ten),
            help: "Draw the set with the Nth change that lynx mend tells, 1 to 10, with thick frames around changed hops",
        },
        HINTS_FLAG,
    ],
};

/// What the words behind `draw` ask for.
pub(crate) fn job_of_drawing<'a>(words: &ArgMatches<'a>) -> Result<Job<'a>, CommandFault>
    ensures asked { AskedBy (Some (codes "draw")) result }
    ensures words { TakesFound (rows_of (found_of words.now)) result }
{
    let (walk, late) = (flag_at(words, WALK), flag_at(words, LATE));
    let mended = choice_at(words, MENDED);
    let script = found_at(words, SCRIPT);
    job_of_draw(text_at(words, "SET"), script, walk, late, mended)
}
