//! The words of the command line.
ghost use Rattle.std.specs.Prelude.{◌≡◌, IfNone, IfSome, Ok, None, Some, codes, option_map};
ghost use Rattle.clap.specs.Words.{first_of, found_of, rows_of, subcommand_name_of, subcommand_rows_of};
ghost use Rattle.lynx_args.specs.Jobs.{AreFlags, AreSampleFlags, AskedBy, IsChoice, IsFlag, IsNoneOfStores, IsRestorePlace, IsStoreCommand, TakesFound, TakesStores, TakesWords, no_flags, text_at};

use crate::carry_words::{CARRY, job_of_carrying};
use crate::commands::{
    ALL, AUDIT, CHECK, CHECKED, EXTEND, FULL, LONGEST, OWED, OWES, RESTORE, RUN, SHOW, STORES,
    UPGRADE, WHY,
};
use crate::draw_words::{DRAW, job_of_drawing};
use crate::job::{
    CommandFault, INPUT, Job, NO_FLAGS, RestorePlace, RunFlags, SampleFlags, StoreJob, job_of_run,
};
use crate::lookup_words::{FIND, READ, job_of_find, job_of_read};
use crate::mend_words::{MEND, job_of_mending};
use crate::sample_words::{BEGINS, CYCLE, EFFORT, SAMPLE, SEED};
use crate::serve_words::{ASK, SERVE, job_of_ask, port_of, serve_flags_of};
use crate::words::{CommandText, HINTS, SCRIPT, command_of};
use clap::{ArgMatches, Command};
use std::alloc::{AllocError, Global};

/// The statuses that the program ends with, and the words of faults, as the help tells them at its
/// end.
const STATUSES_AND_FAULTS: &str =
    "Statuses:\n  0  done: the set is accepted, an order explains the run\n  1  the set offends, or the run ends with a cycle, or nothing was found, or hops are owed\n  2  faulty words or a faulty text\n  3  out of memory\n  4  a file, a store, a socket or a thread fails, or the audit at the end of a service\n\nA faulty text is told with its line and one of these words: too-long, bad-version, bad-line,\nbad-name, bad-number, repeated, unknown, need-not-first, limit-passed, literal-elsewhere,\nshard-gap, shard-overlap, shard-server. With --hints, and on a terminal, the place is shown.";

/// The version of the program.
pub const VERSION: &str = "0.1.0";

/// Chains that begin in a random script, where the words don't say how many.
const USUAL_BEGINS: u8 = 8;

/// Steps by which a cycle is searched, where the words don't say how many.
const USUAL_EFFORT: u64 = 200_000;

/// The program without its commands.
fn bare_command<'a>(alloc: Global) -> Command<'a> {
    Command::new(alloc, "lynx")
        .version(VERSION)
        .about(
            "A transaction-chain store: judges, mends, draws and runs sets of chain programs, makes scripts for them, serves them to\nclients, and lists, reads, audits, upgrades, extends and carries stores",
        )
        .after_help(STATUSES_AND_FAULTS)
}

/// The command line with one command more.
fn with<'a>(
    alloc: Global,
    command: Command<'a>,
    text: &CommandText,
) -> Result<Command<'a>, AllocError> {
    command.subcommand(command_of(alloc, text)?)
}

/// The command line with what is done with sets and scripts.
fn with_texts<'a>(alloc: Global, command: Command<'a>) -> Result<Command<'a>, AllocError> {
    let command = with(alloc, command, &CHECK)?;
    let command = with(alloc, command, &MEND)?;
    let command = with(alloc, command, &DRAW)?;
    let command = with(alloc, command, &RUN)?;
    with(alloc, command, &SAMPLE)
}

/// The command line with what is done with stores.
fn with_stores<'a>(alloc: Global, command: Command<'a>) -> Result<Command<'a>, AllocError> {
    let command = with(alloc, command, &SHOW)?;
    let command = with(alloc, command, &UPGRADE)?;
    let command = with(alloc, command, &EXTEND)?;
    let command = with(alloc, command, &RESTORE)?;
    let command = with(alloc, command, &AUDIT)?;
    let command = with(alloc, command, &OWES)?;
    let command = with(alloc, command, &READ)?;
    let command = with(alloc, command, &FIND)?;
    with(alloc, command, &CARRY)
}

/// The command line with what is done with services.
fn with_services<'a>(alloc: Global, command: Command<'a>) -> Result<Command<'a>, AllocError> {
    let command = with(alloc, command, &SERVE)?;
    with(alloc, command, &ASK)
}

/// The program's command line. No words at all are read as `run -`.
pub fn command<'a>(alloc: Global) -> Result<Command<'a>, AllocError> {
    let command = with_texts(alloc, bare_command(alloc))?;
    let command = with_stores(alloc, command)?;
    with_services(alloc, command)
}

/// The text that was found under a name, standard input where none was. The parser lets no words
/// through that lack one which is asked for here.
pub(crate) fn text_at<'a>(words: &ArgMatches<'a>, name: &str) -> &'a str
    ensures { result.now ≡ text_at name.now (rows_of (found_of words.now)) }
{
    words.get_str(name).unwrap_or(INPUT)
}

/// A text that may have been found under a name.
pub(crate) fn found_at<'a>(words: &ArgMatches<'a>, name: &str) -> Option<&'a str>
    ensures { option_map (λ own. own.now) result
        ≡ first_of name.now (rows_of (found_of words.now)) }
{
    words.get_str(name)
}

/// Whether a flag is given.
pub(crate) fn flag_at(words: &ArgMatches<'_>, name: &str) -> bool
    ensures { IsFlag name.now (rows_of (found_of words.now)) result }
{
    words.get_flag(name)
}

/// The number of a change, if one is given. The parser lets no other words through.
pub(crate) fn choice_at(words: &ArgMatches<'_>, name: &str) -> Option<u8>
    ensures { IsChoice name.now (rows_of (found_of words.now)) result }
{
    words.get_one(name)
}

/// The flags of a run.
fn flags_of(words: &ArgMatches<'_>) -> RunFlags
    ensures { AreFlags (rows_of (found_of words.now)) result }
{
    RunFlags {
        checked: flag_at(words, CHECKED),
        owed: flag_at(words, OWED),
    }
}

/// What a random script is to be. The parser lets no other words through.
fn sample_flags_of(words: &ArgMatches<'_>) -> SampleFlags
    ensures { AreSampleFlags (rows_of (found_of words.now)) result }
{
    SampleFlags {
        seed: words.get_one(SEED).unwrap_or(0),
        begins: words.get_one(BEGINS).unwrap_or(USUAL_BEGINS),
        cycle: flag_at(words, CYCLE),
        effort: words.get_one(EFFORT).unwrap_or(USUAL_EFFORT),
    }
}

/// Whether the words ask for the place of a fault in a text.
pub fn wants_hints(matches: &ArgMatches<'_>) -> bool {
    match matches.subcommand() {
        Some((_, words)) => words.get_flag(HINTS),
        None => false,
    }
}

/// From where stores are restored, and to where.
fn restore_place_of<'a>(words: &ArgMatches<'a>) -> RestorePlace<'a>
    ensures { IsRestorePlace (rows_of (found_of words.now)) result }
{
    RestorePlace {
        from: text_at(words, "FROM"),
        folder: text_at(words, "DIR"),
        longest: flag_at(words, LONGEST),
    }
}

/// What a command that opens stores nobody serves, and the words behind it, ask for. None where it
/// is another command.
fn job_of_stores<'a>(name: &str, words: &ArgMatches<'a>) -> Option<StoreJob<'a>>
    ensures asked { IfSome result (IsStoreCommand name.now) }
    ensures words { IfSome result (TakesStores (rows_of (found_of words.now))) }
    ensures other { IfNone result (IsNoneOfStores name.now) }
{
    let folder = text_at(words, "DIR");
    match name {
        "show" => Some(StoreJob::Show {
            store: text_at(words, "STORE"),
            full: flag_at(words, FULL),
        }),
        "upgrade" => Some(StoreJob::Upgrade {
            store: text_at(words, "STORE"),
        }),
        "extend" => Some(StoreJob::Extend {
            folder,
            set: text_at(words, "SET"),
        }),
        "restore" => Some(StoreJob::Restore {
            place: restore_place_of(words),
        }),
        "audit" => Some(StoreJob::Audit { folder }),
        "owed" => Some(StoreJob::Owed { folder }),
        "read" => Some(job_of_read(words)),
        "find" => Some(job_of_find(words)),
        "carry" => Some(job_of_carrying(words)),
        _ => None,
    }
}

/// What a command and the words behind it ask for.
fn job_of_command<'a>(name: &str, words: &ArgMatches<'a>) -> Result<Job<'a>, CommandFault>
    ensures asked { AskedBy (Some name.now) result }
    ensures words { TakesFound (rows_of (found_of words.now)) result }
{
    if let Some(job) = job_of_stores(name, words) {
        return Ok(Job::Stores(job));
    }
    let set = text_at(words, "SET");
    match name {
        "check" => Ok(Job::Check {
            set,
            why: flag_at(words, WHY),
            all: flag_at(words, ALL),
        }),
        "draw" => job_of_drawing(words),
        "mend" => Ok(job_of_mending(words)),
        "sample" => Ok(Job::Sample {
            set,
            flags: sample_flags_of(words),
        }),
        "run" => {
            let script = found_at(words, SCRIPT);
            job_of_run(set, script, found_at(words, STORES), flags_of(words))
        }
        "serve" => Ok(Job::Serve {
            set,
            folder: text_at(words, "DIR"),
            port: port_of(words),
            flags: serve_flags_of(words),
        }),
        "ask" => job_of_ask(words),
        _ => Err(CommandFault::NoCommand),
    }
}

/// What the words ask for.
pub fn job_of<'a>(matches: &ArgMatches<'a>) -> Result<Job<'a>, CommandFault>
    ensures no_words { subcommand_name_of matches.now ≡ None → result ≡ Ok (Job.RunInput no_flags) }
    ensures asked { AskedBy (subcommand_name_of matches.now) result }
    ensures words { TakesWords (subcommand_rows_of matches.now) result }
{
    match matches.subcommand() {
        Some((name, words)) => job_of_command(name, words),
        None => Ok(Job::RunInput { flags: NO_FLAGS }),
    }
}
