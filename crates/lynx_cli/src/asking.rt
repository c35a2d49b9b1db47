//! Asking a service what the lines of standard input ask.
use crate::causes::are_held;
use crate::comparing::{compare_sets, connected};
use crate::fault::Fault;
use crate::hints::{Hints, Named};
use crate::looking_up::look_up;
use crate::needing::tell_need;
use crate::reading::{is_named_pipe, text_of};
use crate::source::{InputFault, MAX_FILE_BYTES, read_all};
use crate::texts::{DONE, FAULTY};
use lynx_args::INPUT;
use lynx_ask::{AskSession, LineReply, read_lookup};
use lynx_codec::Item;
use lynx_entry::Answer;
use lynx_hints::{Part, asked_begin_hint, hint};
use lynx_lex::{FaultKind, TextFault};
use lynx_notice::{notice_in, service_path};
use lynx_report::read_set;
use lynx_set::ChainSet;
use std::alloc::Global;
use std::fs;
use std::io::{BufRead, BufReader, ErrorKind, Read, Write};
use std::net::{Net, TcpListener, TcpStream};
use std::time::Duration;

/// How hints name standard input.
const STANDARD_INPUT: &str = "standard input";

/// A line of standard input with its LF, which the last one may lack, and its number, counted from
/// 1.
#[derive(Clone, Copy)]
pub(crate) struct AskedLine<'a> {
    text: &'a [u8],
    number: usize,
}

/// The service that is asked: the set by which it is asked, and the port of its status where that
/// is known.
#[derive(Drop)]
struct Service<'s, R> {
    rt: &'s R,
    set: &'s ChainSet,
    status: Option<u16>,
}

/// Tells on standard error which line is faulty and why, and where hints are wanted where.
fn tell_fault(
    host: &HostRuntime,
    hints: &Hints,
    set: &ChainSet,
    line: &AskedLine<'_>,
    fault: TextFault,
) {
    let _ = eprintln!(host; "lynx: {fault}");
    if hints.are_wanted() {
        let part = Part::Asked(set);
        if let Ok(lines) = hint(host.alloc(), STANDARD_INPUT, line.text, part, fault) {
            let _ = eprint!(host; "{lines}");
        }
    }
}

impl AskedLine<'_> {
    /// Without its LF.
    pub(crate) fn bare(&self) -> &[u8] {
        self.text
            .strip_suffix(b"\n".as_slice())
            .unwrap_or(self.text)
    }
}

/// Tells on standard error, where hints are wanted, how many arguments a program takes of which a
/// line begins a chain with another count.
fn tell_count(
    host: &HostRuntime,
    hints: &Hints,
    set: &ChainSet,
    line: &AskedLine<'_>,
    answer: &Item,
) {
    if hints.are_wanted() && matches!(answer, Item::Answer(Answer::ArgCount)) {
        let told = asked_begin_hint(host.alloc(), STANDARD_INPUT, set, line.bare(), line.number);
        if let Ok(lines) = told {
            let _ = eprint!(host; "{lines}");
        }
    }
}

/// The next line with its LF, or with one where the last one lacks it. None where there is none.
fn next_line<'a, L: BufRead>(alloc: Global, lines: &mut L) -> Result<Option<Vec<u8>>, Fault<'a>> {
    let mut line = Vec::new(alloc);
    match lines.read_until(b'\n', &mut line) {
        Ok(0) => Ok(None),
        Ok(_) if line.as_slice().last() == Some(&b'\n') => Ok(Some(line)),
        Ok(_) => match line.push(b'\n') {
            Ok(()) => Ok(Some(line)),
            Err(_) => Err(Fault::Memory),
        },
        Err(error) if error.kind() == ErrorKind::OutOfMemory => Err(Fault::Memory),
        Err(_) => Err(Fault::of_reading(INPUT, InputFault::Read)),
    }
}

/// Asks over the stream what a line asks: the status of the line, or None where the service takes
/// leave. A faulty line is told.
fn ask_line<'a, S: Read + Write, W: Write>(
    host: &HostRuntime,
    set: &ChainSet,
    session: &mut AskSession,
    line: &AskedLine<'_>,
    stream: &mut S,
    hints: &Hints,
    writer: &mut W,
) -> Result<Option<u8>, Fault<'a>> {
    match session.ask(host, host.alloc(), set, line.bare(), stream, writer) {
        Ok(LineReply::Answered(answer)) => {
            tell_count(host, hints, set, line, &answer);
            tell_need(host, hints, set, line, &answer);
            Ok(Some(DONE))
        }
        Ok(LineReply::Bye) => Ok(None),
        Ok(LineReply::Faulty(fault)) => {
            tell_fault(host, hints, set, line, fault);
            Ok(Some(FAULTY))
        }
        Err(fault) => Err(Fault::of_asking(fault)),
    }
}

/// Looks up over HTTP what a line looks up: the status of the line, or None where it looks up
/// nothing.
fn look_up_line<'a, R: Net<Listener = TcpListener, Stream = TcpStream>, W: Write>(
    host: &HostRuntime,
    service: &Service<'_, R>,
    line: &AskedLine<'_>,
    hints: &mut Hints,
    writer: &mut W,
) -> Result<Option<u8>, Fault<'a>> {
    let Some(read) = read_lookup(host.alloc(), service.set, line.bare()) else {
        return Ok(None);
    };
    let fault = match read {
        Ok(lookup) => {
            look_up(host, service.rt, service.status, lookup, hints, writer)?;
            return Ok(Some(DONE));
        }
        Err(fault) => fault.on(line.number),
    };
    if fault.kind == FaultKind::Memory {
        return Err(Fault::Memory);
    }
    tell_fault(host, hints, service.set, line, fault);
    Ok(Some(FAULTY))
}

/// Asks over the stream what the lines ask, one after the other, until there are none or the
/// service takes leave. The status is that of faulty lines if there is one.
fn ask_lines<
    'a,
    R: Net<Listener = TcpListener, Stream = TcpStream>,
    L: BufRead,
    S: Read + Write,
    W: Write,
>(
    host: &HostRuntime,
    service: &Service<'_, R>,
    lines: &mut L,
    stream: &mut S,
    hints: &mut Hints,
    writer: &mut W,
) -> Result<u8, Fault<'a>> {
    let mut session = AskSession::new(host.alloc());
    let mut status = DONE;
    for number in 1..usize::MAX {
        let Some(read) = next_line(host.alloc(), lines)? else {
            break;
        };
        let text = read.as_slice();
        let line = AskedLine { text, number };
        if let Some(of_line) = look_up_line(host, service, &line, hints, writer)? {
            session.pass_by();
            status = status.max(of_line);
            continue;
        }
        match ask_line(
            host,
            service.set,
            &mut session,
            &line,
            stream,
            hints,
            writer,
        )? {
            Some(of_line) => status = status.max(of_line),
            None => break,
        }
    }
    Ok(status)
}

/// Asks over a connection what the lines of standard input ask, and lets go of it.
fn ask_by<'a, R: Net<Listener = TcpListener, Stream = TcpStream>, S: Read + Write + Drop, W: Write>(
    host: &HostRuntime,
    service: &Service<'_, R>,
    mut stream: S,
    hints: &mut Hints,
    writer: &mut W,
) -> Result<u8, Fault<'a>> {
    let Ok(mut lines) = BufReader::new(host.alloc(), host.reader()) else {
        return Err(Fault::Memory);
    };
    let done = ask_lines(host, service, &mut lines, &mut stream, hints, writer);
    hints.note_lost(host.alloc(), &done);
    done
}

/// Seconds for which an answer is waited for, as the clients do: a service that hangs is told like
/// one that hung up.
const MAX_WAITING_SECONDS: u64 = 30;

/// A connection to the service that listens at the port.
fn connected_to<'a, R: Net<Listener = TcpListener, Stream = TcpStream>>(
    host: &HostRuntime,
    rt: &R,
    port: u16,
    hints: &mut Hints,
) -> Result<TcpStream, Fault<'a>> {
    let stream = connected(host, rt, port, hints)?;
    let _ = stream.set_read_timeout(Some(Duration::from_secs(MAX_WAITING_SECONDS)));
    Ok(stream)
}

/// Asks the service at the port what the lines of standard input ask.
fn ask_at<'a, R: Net<Listener = TcpListener, Stream = TcpStream>, W: Write>(
    host: &HostRuntime,
    service: &Service<'_, R>,
    port: u16,
    hints: &mut Hints,
    writer: &mut W,
) -> Result<u8, Fault<'a>> {
    let stream = connected_to(host, service.rt, port, hints)?;
    ask_by(host, service, stream, hints, writer)
}

/// Asks the service at the port what the lines of standard input ask, by the set of a file, which
/// is compared first where the port of its status is told.
pub(crate) fn ask_port<'a, R: Net<Listener = TcpListener, Stream = TcpStream>, W: Write>(
    host: &HostRuntime,
    rt: &R,
    name: &'a str,
    port: u16,
    status: Option<u16>,
    hints: &mut Hints,
    writer: &mut W,
) -> Result<u8, Fault<'a>> {
    let read = text_of(host, name)?;
    let text = read.as_slice();
    let set = match read_set(host.alloc(), text) {
        Ok(set) => Ok(set),
        Err(fault) => Err(Fault::of_run(fault)),
    };
    hints.note_set(host.alloc(), Named::new(name, text), &set);
    let set = set?;
    if let Some(status) = status {
        compare_sets(host, rt, &set, status, hints)?;
    }
    let set = &set;
    let service = Service { rt, set, status };
    ask_at(host, &service, port, hints, writer)
}

/// As many bytes of the notice of a service are read at most: its lines, and a set's text with one
/// byte too many.
const MAX_NOTICE_BYTES: usize = MAX_FILE_BYTES + 64;

/// What a folder tells of the service over it. None where it tells of none.
fn told_in<'a>(host: &HostRuntime, folder: &str) -> Result<Option<Vec<u8>>, Fault<'a>> {
    let Ok(path) = service_path(host.alloc(), folder) else {
        return Err(Fault::Memory);
    };
    if is_named_pipe(host, path.as_str()) {
        return Ok(None);
    }
    let Ok(mut file) = fs::open(host, path.as_str()) else {
        return Ok(None);
    };
    match read_all(host.alloc(), &mut file, MAX_NOTICE_BYTES) {
        Ok(text) => Ok(Some(text)),
        Err(InputFault::Read) => Ok(None),
        Err(InputFault::Memory) => Err(Fault::Memory),
    }
}

/// Asks the service over the stores of the folder what the lines of standard input ask, by the set
/// that it serves. What the folder tells may be left by a service that was killed, and whoever
/// listens at its port now be another: nobody is asked who doesn't have the stores of the folder
/// open, and the set is compared where the port of a status is told.
pub(crate) fn ask_folder<'a, R: Net<Listener = TcpListener, Stream = TcpStream>, W: Write>(
    host: &HostRuntime,
    rt: &R,
    folder: &str,
    hints: &mut Hints,
    writer: &mut W,
) -> Result<u8, Fault<'a>> {
    let told = told_in(host, folder)?;
    let notice = match &told {
        Some(text) => notice_in(text.as_slice()),
        None => None,
    };
    let Some(notice) = notice else {
        hints.note_no_service(host.alloc(), folder);
        return Err(Fault::NoService);
    };
    let set = match read_set(host.alloc(), notice.set) {
        Ok(set) => set,
        Err(fault) => return Err(Fault::of_run(fault)),
    };
    if let Some(status) = notice.status {
        compare_sets(host, rt, &set, status, hints)?;
    }
    let stream = connected_to(host, rt, notice.port, hints)?;
    if !are_held(host, folder) {
        hints.note_left_over(host.alloc(), folder);
        return Err(Fault::NoService);
    }
    let service = Service {
        rt,
        set: &set,
        status: notice.status,
    };
    ask_by(host, &service, stream, hints, writer)
}
