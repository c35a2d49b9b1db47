//! The lines behind the one that tells a fault, where they are wanted: where in a text it is and
//! what was expected, or why the system refused.
use crate::causes::{cause_of_copy, cause_of_damage, cause_of_gone, cause_of_store};
use crate::fault::Fault;
use crate::foreign::foreign_lines;
use crate::further::hints_of_all;
use crate::input::split_input;
use crate::mending::mending_lines;
use crate::reading::is_named_pipe;
use crate::shown::Shown;
use crate::spots::spot_of;
use crate::texts::OFFENDING;
use crate::undoing::undone_lines;
use lynx_args::INPUT;
use lynx_ask::AskFault;
use lynx_hints::{Part, begin_hints, separator_hint};
use lynx_lex::TextFault;
use lynx_restore::Undone;
use lynx_service::{CopyWord, Damage, ServeFault, StoreWord};
use lynx_set::ChainSet;
use lynx_sql::Rising;
use lynx_store_files::Copies;
use lynx_text::parse;
use sqlite::Connection;
use std::alloc::{AllocError, Global};
use std::fs::OpenOptions;
use std::io::Read;
use std::net::{Ipv4Addr, Net, TcpListener, TcpStream};
use std::rt::Files;
use std::{fs, io};

/// What is told where a connection was lost.
const LOST: &str =
    "  the service ended, or hung up\n  what was asked last was done or was not: asked again under its number, it tells\n";

/// A text, and the name by which its lines are told.
#[derive(Clone, Copy)]
pub(crate) struct Named<'a> {
    pub name: &'a str,
    pub text: &'a [u8],
}

impl<'a> Named<'a> {
    pub(crate) fn new(name: &'a str, text: &'a [u8]) -> Named<'a> {
        Named { name, text }
    }
}

/// The lines behind the one that tells a fault. They are made only where they are wanted, and for
/// want of memory there are none.
#[derive(Debug, Drop)]
pub struct Hints {
    is_wanted: bool,
    lines: Option<String>,
}

/// The error with which a file can't be opened, or its first byte not be read. A pipe isn't opened,
/// which would wait.
fn reading_error<R: Files + AllocGlobal>(rt: &R, name: &str) -> Option<io::Error> {
    if is_named_pipe(rt, name) {
        return None;
    }
    match fs::open(rt, name) {
        Ok(mut file) => file.read(&mut [0u8]).err(),
        Err(error) => Some(error),
    }
}

/// The error with which a file can't be opened, or made, to be written. A pipe isn't opened, which
/// would wait.
fn writing_error<R: Files + AllocGlobal>(rt: &R, name: &str) -> Option<io::Error> {
    if is_named_pipe(rt, name) {
        return None;
    }
    let mut options = OpenOptions::new();
    options.write(true).create(true);
    options.open(rt, name).err()
}

impl Hints {
    /// None yet.
    pub fn new(is_wanted: bool) -> Hints {
        Hints {
            is_wanted,
            lines: None,
        }
    }

    /// Whether there are to be any.
    pub(crate) fn are_wanted(&self) -> bool {
        self.is_wanted
    }

    /// The lines, each with its end. None where there are none, or none are wanted.
    pub fn lines(&self) -> Option<&str> {
        match &self.lines {
            Some(lines) => Some(lines.as_str()),
            None => None,
        }
    }

    /// Notes where the faults of a text are, of which this is the first.
    fn note_fault(&mut self, alloc: Global, named: Named<'_>, part: Part<'_>, fault: TextFault) {
        let shown = Shown { name: named.name };
        if let Ok(name) = format!(in alloc; "{shown}") {
            self.lines = hints_of_all(alloc, name.as_str(), named.text, part, fault).ok();
        }
    }

    /// Notes where the fault of a script over a set is.
    fn note_script_fault(
        &mut self,
        alloc: Global,
        set: Named<'_>,
        script: Named<'_>,
        fault: TextFault,
    ) {
        if let Ok(set) = parse(alloc, set.text) {
            self.note_fault(alloc, script, Part::Script(&set), fault);
        }
    }

    /// Notes what a job came to that read a set.
    pub(crate) fn note_set<T>(
        &mut self,
        alloc: Global,
        set: Named<'_>,
        done: &Result<T, Fault<'_>>,
    ) {
        if let Err(Fault::Set(fault)) = done {
            if self.is_wanted {
                self.note_fault(alloc, set, Part::Set, *fault);
            }
        }
    }

    /// Notes what mends a set that was found to offend, or what might.
    pub(crate) fn note_mends(
        &mut self,
        alloc: Global,
        set: Named<'_>,
        done: &Result<u8, Fault<'_>>,
    ) {
        if !self.is_wanted || !matches!(done, Ok(OFFENDING)) {
            return;
        }
        if let Ok(set) = parse(alloc, set.text) {
            self.lines = mending_lines(alloc, &set).ok();
        }
    }

    /// Notes what a job came to that read a set and a script.
    pub(crate) fn note_run<T>(
        &mut self,
        alloc: Global,
        set: Named<'_>,
        script: Named<'_>,
        done: &Result<T, Fault<'_>>,
    ) {
        self.note_set(alloc, set, done);
        if let Err(Fault::Script(fault)) = done {
            if self.is_wanted {
                self.note_script_fault(alloc, set, script, *fault);
            }
        }
    }

    /// Notes what a run of standard input came to.
    pub(crate) fn note_input<T>(
        &mut self,
        alloc: Global,
        input: &[u8],
        done: &Result<T, Fault<'_>>,
    ) {
        match split_input(input) {
            Some((set, script)) => {
                let set = Named::new("standard input", set);
                let script = Named::new("standard input, script", script);
                self.note_run(alloc, set, script, done);
                self.note_begins(alloc, set, script, done);
            }
            None if self.is_wanted => self.lines = separator_hint(alloc, input).ok(),
            None => {}
        }
    }

    /// Notes which begins of a script that ran were at another server than their programs', or had
    /// other counts of arguments.
    pub(crate) fn note_begins<T>(
        &mut self,
        alloc: Global,
        set: Named<'_>,
        script: Named<'_>,
        done: &Result<T, Fault<'_>>,
    ) {
        if !self.is_wanted || done.is_err() {
            return;
        }
        let Ok(set) = parse(alloc, set.text) else {
            return;
        };
        let shown = Shown { name: script.name };
        if let Ok(name) = format!(in alloc; "{shown}") {
            self.lines = begin_hints(alloc, name.as_str(), &set, script.text).ok();
        }
    }

    /// Notes why the store of a folder can't be opened that a job was to open, or where it is
    /// damaged.
    pub(crate) fn note_store<T>(
        &mut self,
        host: &HostRuntime,
        folder: &str,
        done: &Result<T, Fault<'_>>,
    ) {
        self.note_spot(host.alloc(), done);
        let Err(Fault::Serve(ServeFault::Store { server, word })) = done else {
            return;
        };
        if !self.is_wanted {
            return;
        }
        match word {
            StoreWord::Store => {
                self.lines = cause_of_store(host, host.alloc(), folder, *server).ok();
            }
            StoreWord::Gone => {
                self.lines = cause_of_gone(host.alloc(), folder, *server).ok();
            }
            StoreWord::Damaged(Damage::Somewhere) => {
                if let Ok(lines) = cause_of_damage(host, host.alloc(), folder, *server) {
                    self.lines = lines;
                }
            }
            _ => {}
        }
    }

    /// Notes how the set of a store differs from the one that it was to be opened for.
    pub(crate) fn note_foreign<T, C: Rising + Drop, S: Copies<Connection<C>>>(
        &mut self,
        alloc: Global,
        copies: &S,
        folder: &str,
        set: &ChainSet,
        done: &Result<T, Fault<'_>>,
    ) {
        if self.is_wanted {
            if let Some(lines) = foreign_lines(alloc, copies, folder, set, done) {
                self.lines = Some(lines);
            }
        }
    }

    /// Notes why the store of a folder can't follow that server.
    pub(crate) fn note_copy(
        &mut self,
        host: &HostRuntime,
        folder: &str,
        server: u8,
        word: CopyWord,
    ) {
        if self.is_wanted {
            self.lines = cause_of_copy(host, host.alloc(), folder, server, word).ok();
        }
    }

    /// Notes where the fault of a service is.
    fn note_spot<T>(&mut self, alloc: Global, done: &Result<T, Fault<'_>>) {
        if let Err(Fault::Serve(fault)) = done {
            if self.is_wanted {
                if let Ok(Some(lines)) = spot_of(alloc, fault) {
                    self.lines = Some(lines);
                }
            }
        }
    }

    /// Notes why the port of this machine can't be had, as the system tells it.
    pub(crate) fn note_port(&mut self, alloc: Global, port: u16, error: &io::Error) {
        if self.is_wanted {
            let address = Ipv4Addr::LOCALHOST;
            self.lines = format!(in alloc; "  {address}:{port}: {error}\n").ok();
        }
    }

    /// Notes why nobody can listen at the port: that is tried once more.
    pub(crate) fn note_listening<R: Net<Listener = TcpListener, Stream = TcpStream>>(
        &mut self,
        rt: &R,
        alloc: Global,
        port: u16,
    ) {
        match TcpListener::bind(rt, (Ipv4Addr::LOCALHOST, port)) {
            Ok(_) => {}
            Err(error) => self.note_port(alloc, port, &error),
        }
    }

    /// Notes that nothing in the folder tells of a service.
    pub(crate) fn note_no_service(&mut self, alloc: Global, folder: &str) {
        if self.is_wanted {
            self.lines = format!(in alloc;
                "  {folder}/service tells of none: lynx serve SET {folder} PORT makes it, and takes it away when it ends\n"
            ).ok();
        }
    }

    /// Notes where the books of the folder go on, where they are closed.
    pub(crate) fn note_books<T>(
        &mut self,
        alloc: Global,
        folder: &str,
        done: &Result<T, Fault<'_>>,
    ) {
        if self.is_wanted && matches!(done, Err(Fault::Closed)) {
            self.lines = format!(in alloc; "  {folder}/carried tells where they go on\n").ok();
        }
    }

    /// Notes that what the folder tells was left by a service that has ended.
    pub(crate) fn note_left_over(&mut self, alloc: Global, folder: &str) {
        if self.is_wanted {
            self.lines = format!(in alloc;
                "  {folder}/service was left by a service that was killed, and another one has its port now: no process has {folder}/server-0.lynx open\n"
            ).ok();
        }
    }

    /// Notes the requests whose answers are void, since they were cut off.
    pub(crate) fn note_undone(&mut self, alloc: Global, undone: &[Undone]) {
        if self.is_wanted {
            self.lines = undone_lines(alloc, undone).ok();
        }
    }

    /// Notes what may have become of what was asked last, where the connection was lost.
    pub(crate) fn note_lost<T>(&mut self, alloc: Global, done: &Result<T, Fault<'_>>) {
        if let Err(Fault::Ask(AskFault::Lost)) = done {
            if self.is_wanted {
                self.lines = String::from_str(alloc, LOST).ok();
            }
        }
    }

    /// Notes why a file can't be read or written that a job named, as the system tells it.
    pub(crate) fn note_file<T, R: Files + AllocGlobal>(
        &mut self,
        rt: &R,
        alloc: Global,
        done: &Result<T, Fault<'_>>,
    ) {
        if !self.is_wanted {
            return;
        }
        let error = match done {
            Err(Fault::Unread(shown)) if shown.name != INPUT => reading_error(rt, shown.name),
            Err(Fault::Unwritten(shown)) => writing_error(rt, shown.name),
            _ => None,
        };
        if let Some(error) = error {
            self.lines = format!(in alloc; "  {error}\n").ok();
        }
    }
}
