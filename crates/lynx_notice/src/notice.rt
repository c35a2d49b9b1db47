//! The text of the file by which clients find a service.
ghost use Rattle.std.specs.Prelude.{◌≡◌, ◌≢◌, ◌<◌, ◌^◌, ◌++◌, ℕ, List, Option, Some, IfNone, IfOk, IfSome, OnOk, codes, decimal, option_map};
ghost use Rattle.lynx_notice.specs.Notices.{notice_text, port_line, status_line};

use lynx_lex::lines::next_line;
use lynx_lex::number::number;
use std::alloc::{AllocError, Global};

/// What is told of a service: docs/FORMATS.md has the lines.
#[derive(Clone, Copy, Debug, PartialEq, Eq)]
pub struct Notice<'a> {
    /// The port of 127.0.0.1 at which clients are listened to.
    pub port: u16,
    /// The port of 127.0.0.1 at which its status is told, where there is one.
    pub status: Option<u16>,
    /// The text of its set.
    pub set: &'a [u8],
}

/// Adds a line of a port behind its words.
fn put_port(alloc: Global, text: &mut Vec<u8>, words: &[u8], port: u16) -> Result<(), AllocError>
    ensures { OnOk result (text.new.items ≡ text.old.items ++ port_line words.now port) }
{
    text.extend_from_slice(words)?;
    let rest = format!(in alloc; "{port}\n")?;
    text.extend_from_slice(rest.as_bytes())?;
    Ok(())
}

const LISTENING: &[u8] = b"listening 127.0.0.1:";

const STATUS: &[u8] = b"status 127.0.0.1:";

const SET: &[u8] = b"--\n";

/// Adds the line of the port of the status, where there is one.
fn put_status(alloc: Global, text: &mut Vec<u8>, status: Option<u16>) -> Result<(), AllocError>
    ensures { OnOk result (text.new.items ≡ text.old.items ++ status_line status) }
{
    if let Some(port) = status {
        put_port(alloc, text, STATUS, port)?;
    }
    Ok(())
}

/// The text that tells this.
pub fn notice_text(alloc: Global, notice: Notice<'_>) -> Result<Vec<u8>, AllocError>
    ensures { IfOk result (λ text. text.items
        ≡ notice_text notice.entry.port notice.entry.status notice.entry.set.now) }
{
    let mut text = Vec::new(alloc);
    put_port(alloc, &mut text, LISTENING, notice.port)?;
    put_status(alloc, &mut text, notice.status)?;
    text.extend_from_slice(SET)?;
    text.extend_from_slice(notice.set)?;
    Ok(text)
}

/// What follows the words at the front of a text.
fn after<'a>(text: &'a [u8], words: &[u8]) -> Option<&'a [u8]>
    ensures found { IfSome result (λ rest. text.now ≡ words.now ++ rest.now) }
    ensures none { IfNone result ((rest : List ℕ) → text.now ≢ words.now ++ rest) }
{
    text.strip_prefix(words)
}

/// The port that the digits spell.
fn port_of(digits: &[u8]) -> Option<u16>
    ensures found { IfSome result (λ port. digits.now ≡ decimal port) }
    ensures only { (port : ℕ) → port < 2 ^ 16 → digits.now ≡ decimal port → result ≡ Some port }
{
    match number(digits) {
        Some(number) if number <= 65535 => Some(number as u16),
        _ => None,
    }
}

/// The port of a line behind its words, and what follows the line.
fn port_after<'a>(text: &'a [u8], words: &[u8]) -> Option<(u16, &'a [u8])>
    ensures found { IfSome result
        (λ found. text.now ≡ port_line words.now found.0 ++ found.1.now) }
    ensures only { (port : ℕ) (rest : List ℕ) → port < 2 ^ 16
        → text.now ≡ port_line words.now port ++ rest
        → option_map {U = ℕ × List ℕ} (λ found. (found.0, found.1.now)) result
        ≡ Some (port, rest) }
{
    let behind = after(text, words)?;
    let (digits, rest) = next_line(behind)?;
    Some((port_of(digits)?, rest))
}

/// What is told of a service with this port, by the lines of its status and its set.
fn with_status(port: u16, text: &[u8]) -> Option<Notice<'_>>
    ensures found { IfSome result (λ notice. (notice.port ≡ port)
        × (text.now ≡ status_line notice.status ++ (codes "--\n" ++ notice.set.now))) }
    ensures only { (status : ℕ) (set : List ℕ) → status < 2 ^ 16
        → text.now ≡ port_line (codes "status 127.0.0.1:") status ++ (codes "--\n" ++ set)
        → option_map {U = ℕ × Option ℕ × List ℕ}
        (λ notice. (notice.port, notice.status, notice.set.now)) result
        ≡ Some (port, Some status, set) }
{
    let (status, rest) = port_after(text, STATUS)?;
    let set = after(rest, SET)?;
    let status = Some(status);
    Some(Notice { port, status, set })
}

/// What a text tells of a service. None where it isn't one that [`notice_text`] makes.
pub fn notice_in(text: &[u8]) -> Option<Notice<'_>>
    ensures found { IfSome result (λ notice. text.now
        ≡ notice_text notice.port notice.status notice.set.now) }
    ensures only { (port : ℕ) (status : Option ℕ) (set : List ℕ) → port < 2 ^ 16
        → IfSome status (λ own. own < 2 ^ 16) → text.now ≡ notice_text port status set
        → option_map {U = ℕ × Option ℕ × List ℕ}
        (λ notice. (notice.port, notice.status, notice.set.now)) result
        ≡ Some (port, status, set) }
{
    let (port, rest) = port_after(text, LISTENING)?;
    match after(rest, SET) {
        Some(set) => {
            let status = None;
            Some(Notice { port, status, set })
        }
        None => with_status(port, rest),
    }
}
