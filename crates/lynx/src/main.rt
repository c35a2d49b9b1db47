//! `lynx`: judges, draws and runs sets of chain programs, serves them to clients, and lists stores.
#![tactic(auto)]

use clap::error::ErrorKind;
use clap::{ArgMatches, Error};
use lynx_args::{CommandFault, Job, command, job_of, wants_hints};
use lynx_cli::{Fault, Hints, do_job};
use lynx_cluster::Host;
use lynx_keep::BatchKeeper;
use lynx_store_files::{Copies, Databases, Files, StoreCopy, Stores};
use sqlite::{Connection, File, FileStore};
use std::fs::{File as PlainFile, OpenOptions};
use std::io::{self, IsTerminal};
use std::net::{Net, TcpListener, TcpStream};
use std::os::fd::AsRawFd;
use std::process::ExitCode;
use std::rt::Env;
use std::{env, fs};

/// The database of a store, in its files.
type Database = Connection<FileStore<File>>;

/// The status of faulty words.
const BAD_WORDS: u8 = 2;

/// Prints the one line of a fault, and gives its status.
fn report<R: Eprint>(rt: &R, fault: &Fault) -> u8 {
    let _ = eprintln!(rt; "lynx: {fault}");
    fault.status()
}

/// Prints what the parser says: help that was asked for on standard output, a fault on standard
/// error. Faulty words have their status also where standard error takes nothing.
fn print_help<R: Print + Eprint>(rt: &R, said: &Error) -> u8 {
    if said.kind() == ErrorKind::OutOfMemory {
        return report(rt, &Fault::Memory);
    }
    let printed = said.print(rt).is_ok();
    if said.use_stderr() {
        BAD_WORDS
    } else if printed {
        0
    } else {
        report(rt, &Fault::Write)
    }
}

/// The words of the command line, the program's name first.
fn command_line<'a, R: Env + AllocGlobal>(rt: &R) -> Result<Vec<String>, Fault<'a>> {
    let args = match env::args(rt) {
        Ok(args) => args,
        Err(error) if error.kind() == io::ErrorKind::OutOfMemory => {
            return Err(Fault::Memory);
        }
        Err(_) => return Err(Fault::Command(CommandFault::NotUtf8)),
    };
    match args.collect(rt.alloc()) {
        Ok(words) => Ok(words),
        Err(_) => Err(Fault::Memory),
    }
}

/// Prints the lines behind that of a fault, or behind a run, if there are any.
fn tell<R: Eprint>(rt: &R, hints: &Hints) {
    if let Some(lines) = hints.lines() {
        let _ = eprint!(rt; "{lines}");
    }
}

/// Says what the program waits for: a person at a terminal may not know.
fn prompt<R: Eprint>(rt: &R) {
    let _ = eprintln!(rt;
        "lynx: reading a set text, a line -- and a script (lynx --help tells more)"
    );
}

/// Says how a set is judged, where the first word is no command but names a file.
fn suggest_check(rt: &HostRuntime, said: &Error, words: &[String]) {
    if said.kind() != ErrorKind::InvalidSubcommand {
        return;
    }
    let Some(word) = words.get(1) else {
        return;
    };
    if fs::open(rt, word.as_str()).is_ok() {
        let _ = eprintln!(rt; "lynx: to judge the set of a file: lynx check FILE");
    }
}

/// Does what the matched words ask for, and gives the status.
fn do_matches<
    R: Host + Net<Listener = TcpListener, Stream = TcpStream>,
    K: BatchKeeper + Send + Drop + 'static,
    S: Stores<K> + Databases<Database> + Copies<StoreCopy> + Sync,
>(host: &HostRuntime, rt: R, stores: &S, matches: &ArgMatches) -> u8 {
    let mut hints = Hints::new(wants_hints(matches) || host.stderr().is_terminal());
    let done = match job_of(matches) {
        Ok(job) => {
            if matches!(job, Job::RunInput { .. }) && host.stdin().is_terminal() {
                prompt(host);
            }
            do_job(host, rt, stores, job, &mut hints)
        }
        Err(fault) => Err(Fault::Command(fault)),
    };
    match done {
        Ok(status) => {
            tell(host, &hints);
            status
        }
        Err(fault) => {
            let status = report(host, &fault);
            tell(host, &hints);
            status
        }
    }
}

/// Does what the words ask for, and gives the status.
fn obey<
    R: Host + Net<Listener = TcpListener, Stream = TcpStream>,
    K: BatchKeeper + Send + Drop + 'static,
    S: Stores<K> + Databases<Database> + Copies<StoreCopy> + Sync,
>(host: &HostRuntime, rt: R, stores: &S, words: &[String]) -> u8 {
    let Ok(command) = command(host.alloc()) else {
        return report(host, &Fault::Memory);
    };
    match command.try_get_matches_from(words) {
        Ok(matches) => do_matches(host, rt, stores, &matches),
        Err(said) => {
            let status = print_help(host, &said);
            suggest_check(host, &said, words);
            status
        }
    }
}

/// The null device, opened so, where it gets a place of a standard stream that is closed.
fn held(rt: &HostRuntime, options: &OpenOptions, last: i32) -> Option<PlainFile> {
    match options.open(rt, "/dev/null") {
        Ok(file) if file.as_raw_fd() <= last => Some(file),
        _ => None,
    }
}

/// Holds the places of the standard streams that are closed, so that no store and no socket gets
/// one of them. What is read of such a stream, or written to it, fails as it would have.
fn hold_closed_streams(rt: &HostRuntime) -> [Option<PlainFile>; 3] {
    let mut to_write = OpenOptions::new();
    to_write.write(true);
    let mut to_read = OpenOptions::new();
    to_read.read(true);
    let input = held(rt, &to_write, 0);
    let output = held(rt, &to_read, 2);
    let error = held(rt, &to_read, 2);
    [input, output, error]
}

fn main(rt: HostRuntime) -> ExitCode {
    let _held = hold_closed_streams(&rt);
    let status = match command_line(&rt) {
        Ok(words) => obey(&rt, rt, &Files::new(rt), words.as_slice()),
        Err(fault) => report(&rt, &fault),
    };
    ExitCode::from(status)
}
