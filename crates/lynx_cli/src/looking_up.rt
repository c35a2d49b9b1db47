//! Looking up at a service what takes no entry: cells, and what became of a request. It is asked
//! over HTTP, at the port of its status, and what it tells in lines is written as it stands.
ghost use Rattle.std.specs.Prelude.{◌≡◌};

use crate::comparing::{answered, body_behind};
use crate::fault::Fault;
use crate::hints::Hints;
use lynx_ask::Lookup;
use lynx_lex::lines::words_of;
use lynx_lex::number::number;
use lynx_lines::write_bytes;
use std::alloc::{AllocError, Global};
use std::io::Write;
use std::net::{Net, TcpListener, TcpStream};

/// How an answer begins that has what was looked up.
const FOUND: &[u8] = b"HTTP/1.1 200 ";

/// How one begins where it isn't there.
const MISSING: &[u8] = b"HTTP/1.1 404 ";

/// How one begins where the server stopped.
const UNABLE: &[u8] = b"HTTP/1.1 503 ";

/// What is told where a service has no record of a request.
const NO_REQUEST: &[u8] = b"no such request\n";

/// What is told where the set of the service hasn't the table.
const NO_TABLE: &[u8] = b"no such table\n";

/// What is told where the server that would know stopped.
const STOPPED: &[u8] = b"server stopped\n";

/// What is told where the service has no memory for the answer.
const NO_MEMORY: &[u8] = b"out of memory\n";

/// What the head of a request holds behind its path.
const HEAD_REST: &str =
    " HTTP/1.1\r\nhost: 127.0.0.1\r\naccept: text/plain\r\nconnection: close\r\n\r\n";

/// The request of a look-up.
fn request_of(alloc: Global, lookup: &Lookup) -> Result<String, AllocError> {
    let path = lookup.path(alloc)?;
    let mut request = String::from_str(alloc, "GET ")?;
    request.push_str(path.as_str())?;
    request.push_str(HEAD_REST)?;
    Ok(request)
}

/// What is written where something wasn't found: `absent` for a request.
fn told_missing<'a>(body: &[u8]) -> Result<&'static [u8], Fault<'a>> {
    if body == NO_REQUEST {
        Ok(b"absent\n")
    } else if body == NO_TABLE {
        Err(Fault::NoTable)
    } else {
        Err(Fault::NoStatus)
    }
}

/// What is written where the service can't tell: `stopped` if the server that would know stopped.
fn told_unable<'a>(body: &[u8]) -> Result<&'static [u8], Fault<'a>> {
    if body == STOPPED {
        Ok(b"stopped\n")
    } else if body == NO_MEMORY {
        Err(Fault::Memory)
    } else {
        Err(Fault::NoStatus)
    }
}

/// What is written for an answer: its lines, or one word where what was looked up isn't there.
/// NoStatus where it is no answer to a look-up.
fn told_by<'a, 't>(answer: &'t [u8]) -> Result<&'t [u8], Fault<'a>> {
    if let Some(lines) = body_behind(answer, FOUND) {
        Ok(lines)
    } else if let Some(body) = body_behind(answer, MISSING) {
        told_missing(body)
    } else if let Some(body) = body_behind(answer, UNABLE) {
        told_unable(body)
    } else {
        Err(Fault::NoStatus)
    }
}

/// The last of these lines, without its LF.
fn last_line(lines: &[u8]) -> &[u8] {
    let lines = lines.strip_suffix(b"\n".as_slice()).unwrap_or(lines);
    match lines.iter().rposition(|byte| *byte == b'\n') {
        Some(end) => &lines[end + 1..],
        None => lines,
    }
}

/// From which key one goes on behind these lines: their last one is `server N stamp N next KEY`.
/// None where that was all, and where there is no memory to see it.
fn next_key(alloc: Global, lines: &[u8]) -> Option<u64> {
    let words = words_of(alloc, last_line(lines)).ok()?;
    match words.as_slice() {
        [_, _, _, _, word, key] if *word == b"next".as_slice() => number(key),
        _ => None,
    }
}

/// Looks up once, writes what is told, and gives what is to be looked up behind it.
fn look_up_once<'a, R: Net<Listener = TcpListener, Stream = TcpStream>, W: Write>(
    host: &HostRuntime,
    rt: &R,
    port: u16,
    lookup: Lookup,
    hints: &mut Hints,
    writer: &mut W,
) -> Result<Option<Lookup>, Fault<'a>> {
    let Ok(request) = request_of(host.alloc(), &lookup) else {
        return Err(Fault::Memory);
    };
    let answer = answered(host, rt, port, request.as_bytes(), hints)?;
    let lines = told_by(answer.as_slice())?;
    if write_bytes(writer, lines).is_err() || writer.flush().is_err() {
        return Err(Fault::Write);
    }
    Ok(next_key(host.alloc(), lines).map(|key| lookup.from_key(key)))
}

/// Pages that one look-up may take: each has a thousand cells, and no set has more than these.
const MAX_PAGES: u32 = 1_000_000;

/// Looks up at the service whose status is told at the port, page by page, and writes the lines
/// that it tells: `absent` where it has no record of a request, `stopped` where a server that would
/// know has stopped. Each page is of one server and one moment.
pub(crate) fn look_up<'a, R: Net<Listener = TcpListener, Stream = TcpStream>, W: Write>(
    host: &HostRuntime,
    rt: &R,
    port: Option<u16>,
    lookup: Lookup,
    hints: &mut Hints,
    writer: &mut W,
) -> Result<(), Fault<'a>> {
    let Some(port) = port else {
        return Err(Fault::NoLookups);
    };
    let mut asked = lookup;
    for _ in 0..MAX_PAGES {
        match look_up_once(host, rt, port, asked, hints, writer)? {
            Some(rest) => asked = rest,
            None => return Ok(()),
        }
    }
    Ok(())
}
