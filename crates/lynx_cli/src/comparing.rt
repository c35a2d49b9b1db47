//! Comparing the set by which a service is asked with the one that it serves, which it tells at the
//! port of its status.
ghost use Rattle.std.specs.Prelude.{◌≡◌, ◌≤◌, ◌++◌, List, ℕ, IfSome, codes, length, take};

use crate::fault::Fault;
use crate::hints::Hints;
use crate::source::{InputFault, read_all};
use lynx_ask::AskFault;
use lynx_extend::extend_fault;
use lynx_report::read_set;
use lynx_set::ChainSet;
use std::alloc::Global;
use std::io::{Read, Write};
use std::net::{Ipv4Addr, Net, TcpListener, TcpStream};
use std::time::Duration;

/// What the set is asked by.
const ASKED: &[u8] = b"GET /set HTTP/1.1\r\nhost: 127.0.0.1\r\nconnection: close\r\n\r\n";

/// With what an answer begins that has a body.
const FOUND: &[u8] = b"HTTP/1.1 200 ";

/// What stands between the head and the body of an answer.
const HEAD_END: &[u8] = b"\r\n\r\n";

/// Bytes of an answer, at most, and one more: a set, or a thousand cells in lines, behind a head.
const MAX_ANSWER_BYTES: usize = 131_073;

/// Seconds for which the answer is waited for, at most, whenever some of it is missing.
const MAX_SILENT_SECONDS: u64 = 10;

/// What follows the words at the front of a text.
fn after<'a>(text: &'a [u8], words: &[u8]) -> Option<&'a [u8]>
    ensures { IfSome result (λ rest. text.now ≡ words.now ++ rest.now) }
{
    text.strip_prefix(words)
}

/// The body that begins there, behind the end of a head.
fn body_at(text: &[u8], start: usize) -> Option<&[u8]>
    requires { start ≤ length text.now }
    ensures { IfSome result (λ body. text.now
        ≡ take start text.now ++ (codes "\r\n\r\n" ++ body.now)) }
{
    after(&text[start..], HEAD_END)
}

/// The body behind the first end of a head.
fn body_in(text: &[u8]) -> Option<&[u8]>
    ensures { IfSome result (λ body. (head : List ℕ)
        × (text.now ≡ head ++ (codes "\r\n\r\n" ++ body.now))) }
{
    for start in 0..text.len() {
        if let Some(body) = body_at(text, start) {
            return Some(body);
        }
    }
    None
}

/// The body of an answer over HTTP that begins with these words, and ends with its connection.
pub(crate) fn body_behind<'t>(answer: &'t [u8], words: &[u8]) -> Option<&'t [u8]>
    ensures { IfSome result (λ body. (head : List ℕ)
        × (answer.now ≡ words.now ++ (head ++ (codes "\r\n\r\n" ++ body.now)))) }
{
    body_in(after(answer, words)?)
}

/// A connection to the program that listens at the port of this machine.
pub(crate) fn connected<'a, R: Net<Listener = TcpListener, Stream = TcpStream>>(
    host: &HostRuntime,
    rt: &R,
    port: u16,
    hints: &mut Hints,
) -> Result<TcpStream, Fault<'a>> {
    match TcpStream::connect(rt, (Ipv4Addr::LOCALHOST, port)) {
        Ok(stream) => Ok(stream),
        Err(error) => {
            hints.note_port(host.alloc(), port, &error);
            Err(Fault::of_asking(AskFault::Connect))
        }
    }
}

/// What is answered over the connection to this request. The connection is let go.
fn answer_of<'a, S: Read + Write + Drop>(
    alloc: Global,
    request: &[u8],
    mut stream: S,
) -> Result<Vec<u8>, Fault<'a>> {
    if stream.write_all(request).is_err() {
        return Err(Fault::NoStatus);
    }
    match read_all(alloc, &mut stream, MAX_ANSWER_BYTES) {
        // What is longer is no answer that a service gives, and isn't known to its end.
        Ok(answer) if answer.len() == MAX_ANSWER_BYTES => Err(Fault::NoStatus),
        Ok(answer) => Ok(answer),
        Err(InputFault::Read) => Err(Fault::NoStatus),
        Err(InputFault::Memory) => Err(Fault::Memory),
    }
}

/// What is answered to this request at the port.
pub(crate) fn answered<'a, R: Net<Listener = TcpListener, Stream = TcpStream>>(
    host: &HostRuntime,
    rt: &R,
    port: u16,
    request: &[u8],
    hints: &mut Hints,
) -> Result<Vec<u8>, Fault<'a>> {
    let stream = connected(host, rt, port, hints)?;
    let silence = Some(Duration::from_secs(MAX_SILENT_SECONDS));
    match stream.set_read_timeout(silence) {
        Ok(()) => answer_of(host.alloc(), request, stream),
        Err(_) => Err(Fault::NoStatus),
    }
}

/// Looks whether the service that tells its status at the port serves this set, or one that extends
/// it: only then does a request mean there what it means here.
pub(crate) fn compare_sets<'a, R: Net<Listener = TcpListener, Stream = TcpStream>>(
    host: &HostRuntime,
    rt: &R,
    set: &ChainSet,
    port: u16,
    hints: &mut Hints,
) -> Result<(), Fault<'a>> {
    let answer = answered(host, rt, port, ASKED, hints)?;
    let Some(text) = body_behind(answer.as_slice(), FOUND) else {
        return Err(Fault::NoStatus);
    };
    match read_set(host.alloc(), text) {
        Ok(served) if extend_fault(set, &served).is_none() => Ok(()),
        Ok(_) => Err(Fault::OtherSet),
        Err(fault) => match Fault::of_run(fault) {
            Fault::Memory => Err(Fault::Memory),
            _ => Err(Fault::NoStatus),
        },
    }
}
