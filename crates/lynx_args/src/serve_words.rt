//! The words that ask for a service, and those that ask one.
ghost use Rattle.std.specs.Prelude.{Some, codes};
ghost use Rattle.clap.specs.Words.{found_of, rows_of};
ghost use Rattle.lynx_args.specs.Jobs.{AreServeFlags, AskedBy, IsNumber, IsPort, TakesFound};

use crate::job::{CommandFault, Job, ServeFlags};
use crate::parser::{flag_at, found_at, text_at};
use crate::words::{CommandText, HINTS_FLAG, Place, Reads, SET_FILE, Word};
use clap::ArgMatches;

/// The port, of a service or of one that is asked.
const PORT: &str = "PORT";

/// The port of the status of a service, or of one that is asked.
const STATUS: &str = "status";

/// The folder that follows a service.
const COPY: &str = "copy";

/// The option by which a service tells its events.
const LOG: &str = "log";

/// The file that takes what a service tells of its events.
const LOG_FILE: &str = "log-file";

/// The file that takes the order with which a service ends.
const ORDER: &str = "order";

/// The option by which each step of a service has a transaction of its own.
const SYNC_EACH: &str = "sync-each";

pub(crate) const SERVE: CommandText = CommandText {
    name: "serve",
    about: "Serve clients at a port, over the stores of a folder, until one asks for the end",
    after: "An offending set is refused as by check, and nothing is opened. The end checks all that clients were\ntold. Clients: lynx ask, and clients/; docs/FORMATS.md has the bytes.\nExample: lynx serve payment.set stores 7000 --status 7001",
    words: &[
        SET_FILE,
        Word {
            name: "DIR",
            place: Place::Needed(Reads::Text),
            help: "The folder of the stores, server-0.lynx and so on; those that aren't there are made",
        },
        Word {
            name: PORT,
            place: Place::Needed(Reads::Port),
            help: "The port of 127.0.0.1, 1 to 65535",
        },
        Word {
            name: STATUS,
            place: Place::Value(PORT, Reads::Port),
            help: "Tell how the service is over HTTP at this port of 127.0.0.1: /status for people, /metrics for Prometheus,\n/healthz, /set, /cells, /requests and /chains; lines read and find of lynx ask want it",
        },
        Word {
            name: COPY,
            place: Place::Value("DIR2", Reads::Text),
            help: "Have the stores of another folder, on another disk say, follow those of DIR: what they hold is at all times\nwhat DIR held, a moment and a thousand entries ago at most, and lynx restore makes stores of it",
        },
        Word {
            name: LOG,
            place: Place::Flag,
            help: "Tell the events of the service on standard error, a line with its time for each",
        },
        Word {
            name: LOG_FILE,
            place: Place::Value("FILE", Reads::Text),
            help: "Add these lines to a file, which is made where it isn't there, and again once it was moved away",
        },
        Word {
            name: ORDER,
            place: Place::Value("FILE", Reads::Text),
            help: "Write the order with which the service ends to a file instead of standard output",
        },
        Word {
            name: SYNC_EACH,
            place: Place::Flag,
            help: "Give each step a transaction of its own, and so a sync; without it those that wait at a server share one.\nNo answer is told before what it stands on is on the disk, either way",
        },
        HINTS_FLAG,
    ],
};

pub(crate) const ASK: CommandText = CommandText {
    name: "ask",
    about: "Ask a service what the lines of standard input ask, and print its answers",
    after: "Lines:\n  begin CLIENT NUMBER PROGRAM ARG..  begin a chain; the same CLIENT and NUMBER never begin two\n  look ORIGIN:INDEX HOP              whether that hop of a chain is done, and its results\n  look ORIGIN:INDEX HOP wait         the same, once the hop is done, or after ten seconds\n  read TABLE KEY                     what that cell holds; FROM..TO in the place of KEY: cells that aren't 0\n  find CLIENT NUMBER                 what became of that request\n  quit                               leave, as the end of the input does\n  shut                               have the service end\nA faulty line is told on standard error, and the next one asked; the status is then 2.\nA request tells a program by its number: SET and PORT are right where SET is the service's, to the word, or one\nthat the service's extends. With --status that is looked at first, and without it no line read or find is asked:\nthey go over HTTP, take no entry and no sync. Behind a folder the service tells its port, if it has one.\nExamples: echo 'begin 1 1 pay 30' | lynx ask stores\n          echo 'begin 1 1 pay 30' | lynx ask payment.set 7000",
    words: &[
        Word {
            name: "SET",
            place: Place::NeededAs("DIR|SET", Reads::Text),
            help: "The folder of a service, which tells its port and its set; or the file of the set's text",
        },
        Word {
            name: PORT,
            place: Place::Free(Reads::Port),
            help: "The port of 127.0.0.1, 1 to 65535; behind a folder none, since its service is asked",
        },
        Word {
            name: STATUS,
            place: Place::Value(PORT, Reads::Port),
            help: "The port at which the service tells its status, by which the set is compared before anything is asked",
        },
        HINTS_FLAG,
    ],
};

/// The number of the port. The parser lets no other words through.
pub(crate) fn port_of(words: &ArgMatches<'_>) -> u16
    ensures { IsNumber 16 0 (codes "PORT") (rows_of (found_of words.now)) result }
{
    words.get_one(PORT).unwrap_or(0)
}

/// The port of the status, if one is given.
fn status_of(words: &ArgMatches<'_>) -> Option<u16>
    ensures { IsPort (codes "status") (rows_of (found_of words.now)) result }
{
    words.get_one(STATUS)
}

/// What a service does besides.
pub(crate) fn serve_flags_of<'a>(words: &ArgMatches<'a>) -> ServeFlags<'a>
    ensures { AreServeFlags (rows_of (found_of words.now)) result }
{
    ServeFlags {
        status: status_of(words),
        copy: found_at(words, COPY),
        log: flag_at(words, LOG),
        log_file: found_at(words, LOG_FILE),
        order: found_at(words, ORDER),
        sync_each: flag_at(words, SYNC_EACH),
    }
}

/// The service that is asked: that at the port, or without one that of the folder.
pub(crate) fn job_of_ask<'a>(words: &ArgMatches<'a>) -> Result<Job<'a>, CommandFault>
    ensures asked { AskedBy (Some (codes "ask")) result }
    ensures words { TakesFound (rows_of (found_of words.now)) result }
{
    let set = text_at(words, "SET");
    let status = status_of(words);
    match found_at(words, PORT) {
        Some(_) => Ok(Job::Ask {
            set,
            port: port_of(words),
            status,
        }),
        None if status.is_some() => Err(CommandFault::StatusOfFolder),
        None => Ok(Job::AskFolder { folder: set }),
    }
}
