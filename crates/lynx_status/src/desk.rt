//! Who answers over HTTP.
ghost use Rattle.std.specs.Prelude.{◌≡◌, IfOk};
ghost use Rattle.lynx_status.specs.Desks.{IsUnable, RepliesTo, RepliesToQuestion};

use crate::answering::reply_to;
use crate::commanding::{command_of, obey, refusal_of};
use crate::lookups::look_up;
use crate::question::{allowed, question_of, wanted_of};
use crate::reply::{Content, Reply, fill};
use crate::shapes::shape_of;
use crate::watched::Watched;
use bytes::Bytes;
use http::{Request, StatusCode};
use http_server::{Response, Service};
use lynx_names::Memory;
use std::alloc::{AllocError, Global};

/// Answers what is asked of a service over HTTP/1.1. It fails never: where memory is wanting it
/// answers so, with fields and a line if they can be built, and else by the status alone.
#[derive(Drop)]
pub struct StatusDesk<W: Watched> {
    alloc: Global,
    /// Who is asked.
    pub watched: W,
    /// The version of the program. It has no quote, no backslash and no LF.
    pub version: &'static str,
}

/// Answers that memory is wanting.
fn tell_memory(response: &mut Response, is_ending: bool)
    ensures { IsUnable is_ending response.new }
{
    response.clear();
    let status = StatusCode::SERVICE_UNAVAILABLE;
    let line = b"out of memory\n";
    if fill(response, status, Content::Text, line, is_ending).is_err() {
        response.clear();
        response.status = status;
    }
}

impl<W: Watched> StatusDesk<W> {
    pub fn new(alloc: Global, watched: W, version: &'static str) -> StatusDesk<W>
        ensures watched { result.watched ≡ watched }
        ensures version { result.version.now ≡ version.now }
    {
        StatusDesk {
            alloc,
            watched,
            version,
        }
    }

    /// What is answered to a request that commands nothing: what it looks up, or asks for.
    fn reply_to_question(&mut self, request: &Request<Bytes>) -> Result<Reply, Memory>
        ensures replies { IfOk result (λ reply. RepliesToQuestion W.tells W.finds W.reads W.records
            W.traces W.set_of self.old.version.now self.old.watched request.now reply
            self.new.watched) }
        ensures version { self.new.version.now ≡ self.old.version.now }
    {
        match wanted_of(request) {
            Some(wanted) => {
                let wanted = allowed(request, wanted);
                look_up(self.alloc, &mut self.watched, shape_of(request), wanted)
            }
            None => {
                let question = question_of(request);
                reply_to(self.alloc, &mut self.watched, self.version, question)
            }
        }
    }

    /// What is answered to the request: to a command what came of it, to another what it asks for.
    fn reply_to(&mut self, request: &Request<Bytes>) -> Result<Reply, Memory>
        ensures replies { IfOk result (λ reply. RepliesTo W.tells W.finds W.reads W.records W.traces
            W.obeys W.set_of self.old.version.now self.old.watched request.now reply
            self.new.watched) }
        ensures version { self.new.version.now ≡ self.old.version.now }
    {
        match command_of(request) {
            Some(command) => {
                let refused = refusal_of(request);
                obey(self.alloc, &mut self.watched, command, refused)
            }
            None => self.reply_to_question(request),
        }
    }
}

impl<W: Watched> Service for StatusDesk<W> {
    ghost use Rattle.lynx_status.specs.Desks.{Answers};

    ghost answers = { λ old request response new. Answers W.tells W.finds W.reads W.records W.traces
        W.obeys W.set_of old.version.now old.watched request response new.watched };

    fn call(
        &mut self,
        request: &Request<Bytes>,
        response: &mut Response,
    ) -> Result<(), AllocError> {
        let reply = self.reply_to(request);
        let is_ending = self.watched.is_ending();
        let Ok(reply) = reply else {
            tell_memory(response, is_ending);
            return Ok(());
        };
        let body = reply.body.as_slice();
        let filled = fill(response, reply.status, reply.content, body, is_ending);
        let Ok(()) = filled else {
            tell_memory(response, is_ending);
            return Ok(());
        };
        Ok(())
    }
}
