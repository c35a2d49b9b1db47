//! `lynx_bench WORK ..`: does some work so many times, to be timed from outside. `--help` tells
//! which works there are. Those of a cluster are of one in memory, with a thread for each server;
//! the load at a port is of a service over the set that `set` prints.
#![tactic(auto)]

use clap::ArgMatches;
use clap::error::ErrorKind;
use std::net::{Net, TcpListener, TcpStream};
use std::process::ExitCode;
use std::rt::Env;
use std::{env, fmt};

mod caller;
mod chains;
mod clusters;
mod commands;
mod encodings;
mod fault;
mod idling;
mod load;
mod measure;
mod memory_stores;
mod payer;
mod port;
mod repeats;
mod ring;
mod shape;
mod starting;
mod stores;
mod texts;
mod words;

use commands::command;
use fault::Fault;
use lynx_cluster::Host;
use measure::measure;
use port::call_service;
use texts::set_text;
use words::{Job, job_of};

/// The status of faulty words.
const BAD_WORDS: u8 = 2;

/// Prints the line of why nothing was done, and gives the status.
fn refuse(rt: &HostRuntime, fault: Fault) -> u8 {
    let _ = eprintln!(rt; "lynx_bench: {}", fault.words());
    fault.status()
}

/// Prints the line of what was done, or of why not, and gives the status.
fn report<T: fmt::Display + Drop>(rt: &HostRuntime, done: Result<T, Fault>) -> u8 {
    match done {
        Ok(done) => {
            let _ = println!(rt; "{done}");
            0
        }
        Err(fault) => refuse(rt, fault),
    }
}

/// Prints the set for so many servers, and gives the status.
fn print_set(rt: &HostRuntime, servers: u8) -> u8 {
    match set_text(rt.alloc(), servers) {
        Ok(text) => {
            let _ = print!(rt; "{text}");
            0
        }
        Err(fault) => refuse(rt, Fault::from(fault)),
    }
}

/// Does what the matched words ask for, and gives the status.
fn do_matches<R: Host + Net<Listener = TcpListener, Stream = TcpStream>>(
    host: &HostRuntime,
    rt: R,
    matches: &ArgMatches,
) -> u8 {
    match job_of(matches) {
        Some(Job::Work { work, count }) => report(host, measure(host, work, count)),
        Some(Job::Cluster(work)) => report(host, work.run(rt, host.alloc())),
        Some(Job::Set { servers }) => print_set(host, servers),
        Some(Job::Port(load)) => report(host, call_service(&rt, host.alloc(), load)),
        None => BAD_WORDS,
    }
}

/// Prints what the parser says, help or a fault of the words, and gives the status.
fn print_help(rt: &HostRuntime, said: &clap::Error) -> u8 {
    if said.kind() == ErrorKind::OutOfMemory {
        return refuse(rt, Fault::Memory);
    }
    let _ = said.print(rt);
    if said.use_stderr() { BAD_WORDS } else { 0 }
}

/// Does what the words ask for, and gives the status.
fn obey<R: Host + Net<Listener = TcpListener, Stream = TcpStream>>(
    host: &HostRuntime,
    rt: R,
    words: &[String],
) -> u8 {
    let Ok(command) = command(host.alloc()) else {
        return refuse(host, Fault::Memory);
    };
    match command.try_get_matches_from(words) {
        Ok(matches) => do_matches(host, rt, &matches),
        Err(said) => print_help(host, &said),
    }
}

/// The words of the command line, the program's name first, none where they can't be read.
fn words_of<R: Env + AllocGlobal>(rt: &R) -> Vec<String> {
    let Ok(args) = env::args(rt) else {
        return Vec::new(rt.alloc());
    };
    match args.collect(rt.alloc()) {
        Ok(words) => words,
        Err(_) => Vec::new(rt.alloc()),
    }
}

fn main(rt: HostRuntime) -> ExitCode {
    let words = words_of(&rt);
    ExitCode::from(obey(&rt, rt, words.as_slice()))
}
