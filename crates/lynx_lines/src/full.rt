//! The lines of entries with who asked for them, and for what.
ghost use Rattle.std.specs.Prelude.{◌≡◌, ◌++◌, IfOk, OnOk};
ghost use Rattle.std.specs.String.{string_bytes};
ghost use Rattle.lynx_lex.specs.Lines.{with_feed};
ghost use Rattle.lynx_lines.specs.Full.{asked_text, client_text, details_text, full_entry_text, request_text};

use crate::printed::{push_entry, push_values};
use lynx_entry::{Entry, Request};
use lynx_names::ClientId;
use lynx_set::ChainSet;
use std::alloc::{AllocError, Global};
use std::fmt::Write;

/// A client, and the number of its request.
pub fn push_client(text: &mut String, client: ClientId, number: u64) -> Result<(), AllocError>
    ensures { OnOk result (string_bytes text.new ≡ string_bytes text.old
        ++ client_text client number) }
{
    let client = client.number();
    write!(text, " client {client} number {number}")
}

/// The name of a program, and its arguments.
pub fn push_asked(
    alloc: Global,
    text: &mut Vec<u8>,
    program: &[u8],
    args: &[u64],
) -> Result<(), AllocError>
    ensures { OnOk result (text.new.items ≡ text.old.items ++ asked_text program.now args.now) }
{
    text.extend_from_slice(b" program ")?;
    text.extend_from_slice(program)?;
    let mut rest = String::from_str(alloc, " args ")?;
    push_values(&mut rest, args)?;
    text.extend_from_slice(rest.as_bytes())
}

/// Who asked, and for what.
fn push_request(
    alloc: Global,
    text: &mut Vec<u8>,
    set: &ChainSet,
    request: &Request,
) -> Result<(), AllocError>
    ensures { OnOk result (text.new.items ≡ text.old.items ++ request_text set.now request.now) }
{
    let mut client = String::new(alloc);
    push_client(&mut client, request.client, request.number)?;
    text.extend_from_slice(client.as_bytes())?;
    let program = set.program_name(request.program);
    push_asked(alloc, text, program, request.args.as_slice())
}

/// What stands behind the line of an entry.
fn push_details(
    alloc: Global,
    text: &mut Vec<u8>,
    set: &ChainSet,
    entry: &Entry,
) -> Result<(), AllocError>
    ensures { OnOk result (text.new.items ≡ text.old.items ++ details_text set.now entry.now) }
{
    match entry {
        Entry::Begun(begun) => push_request(alloc, text, set, &begun.request),
        Entry::Refused(refused) => push_request(alloc, text, set, &refused.request),
        Entry::Hop(ran) => {
            let program = set.program_name(ran.message.program);
            push_asked(alloc, text, program, ran.message.args.as_slice())
        }
    }
}

/// An entry that a server of the set kept, with the client and the number that asked for it, its
/// program by name and the arguments, without its LF. A later hop tells of no client.
pub fn push_full_entry(
    alloc: Global,
    text: &mut Vec<u8>,
    set: &ChainSet,
    entry: &Entry,
) -> Result<(), AllocError>
    ensures { OnOk result (text.new.items
        ≡ text.old.items ++ full_entry_text set.now entry.now) }
{
    let mut front = String::new(alloc);
    push_entry(&mut front, entry)?;
    text.extend_from_slice(front.as_bytes())?;
    push_details(alloc, text, set, entry)
}

/// The line of such an entry.
pub fn full_entry_line(alloc: Global, set: &ChainSet, entry: &Entry) -> Result<Vec<u8>, AllocError>
    ensures { IfOk result (λ text. text.items ≡ with_feed (full_entry_text set.now entry.now)) }
{
    let mut text = Vec::new(alloc);
    push_full_entry(alloc, &mut text, set, entry)?;
    text.push(b'\n')?;
    Ok(text)
}
