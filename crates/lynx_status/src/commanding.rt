//! What is commanded over HTTP, and what is answered to it.
ghost use Rattle.std.specs.Prelude.{◌≡◌, IfOk};
ghost use Rattle.std.specs.Option.{option_copied};
ghost use Rattle.lynx_status.specs.Commands.{IsCommandReply, ObeysCommand, command_in, command_refused, command_text};
ghost use Rattle.lynx_status.specs.Replies.{IsReply};
ghost use Rattle.lynx_status.specs.Questions.{has_origin, host_of, method_of, target_of};

use crate::asking::Refusal;
use crate::copies::{CopyCommand, CopyDone};
use crate::hosts::is_local;
use crate::question::{host_in, target_in};
use crate::reply::{Content, Reply};
use crate::watched::Watched;
use bytes::Bytes;
use http::{Request, StatusCode, header};
use lynx_names::Memory;
use std::alloc::Global;

/// What is commanded by that method and path.
fn command_in(method: &[u8], path: &[u8]) -> Option<CopyCommand>
    ensures { result ≡ command_in method.now path.now }
{
    if method != b"POST".as_slice() {
        None
    } else if path == b"/copy/pause".as_slice() {
        Some(CopyCommand::Pause)
    } else if path == b"/copy/resume".as_slice() {
        Some(CopyCommand::Resume)
    } else {
        None
    }
}

/// What the request commands.
pub(crate) fn command_of(request: &Request<Bytes>) -> Option<CopyCommand>
    ensures { result ≡ command_in (method_of request.now) (target_of request.now) }
{
    let method = request.method().as_str().as_bytes();
    command_in(method, target_in(request.uri()).as_bytes())
}

/// Why a command is refused.
fn command_refused(host: Option<&[u8]>, has_origin: bool) -> Option<Refusal>
    ensures { result ≡ command_refused (option_copied host.entry) has_origin }
{
    let Some(host) = host else {
        return Some(Refusal::NoHost);
    };
    if !is_local(host) {
        return Some(Refusal::OtherHost);
    }
    if has_origin {
        return Some(Refusal::OtherOrigin);
    }
    None
}

/// Why the request may command nothing: a browser's page, which has an origin, may not.
pub(crate) fn refusal_of(request: &Request<Bytes>) -> Option<Refusal>
    ensures { result ≡ command_refused (host_of request.now) (has_origin request.now) }
{
    let headers = request.headers();
    command_refused(host_in(headers), headers.get(header::ORIGIN).is_some())
}

/// The line that says that it is done.
fn command_text(command: CopyCommand) -> &'static [u8]
    ensures { result.now ≡ command_text command }
{
    match command {
        CopyCommand::Pause => b"paused\n",
        CopyCommand::Resume => b"resumed\n",
    }
}

/// A line with that status.
fn told(alloc: Global, status: StatusCode, line: &[u8]) -> Result<Reply, Memory>
    ensures { IfOk result (IsReply status Content.Text line.now) }
{
    Ok(Reply {
        status,
        content: Content::Text,
        body: Vec::from_slice(alloc, line)?,
    })
}

/// What is answered to what came of a command.
fn reply_of(alloc: Global, command: CopyCommand, done: CopyDone) -> Result<Reply, Memory>
    ensures { IfOk result (IsCommandReply command done) }
{
    match done {
        CopyDone::Done => told(alloc, StatusCode::OK, command_text(command)),
        CopyDone::Late => told(alloc, StatusCode::SERVICE_UNAVAILABLE, b"not closed yet\n"),
        CopyDone::NoCopy => Reply::refusing(alloc, Refusal::NotFound),
    }
}

/// Does what is commanded, unless it is refused.
pub(crate) fn obey<W: Watched>(
    alloc: Global,
    watched: &mut W,
    command: CopyCommand,
    refused: Option<Refusal>,
) -> Result<Reply, Memory>
    ensures { IfOk result (λ reply. ObeysCommand W.obeys watched.old command refused reply
        watched.new) }
{
    if let Some(why) = refused {
        return Reply::refusing(alloc, why);
    }
    let done = watched.obey(command);
    reply_of(alloc, command, done)
}
