//! The desk of one client: its session with a cluster.
ghost use Rattle.std.specs.Prelude.{◌≡◌, ◌≤◌, [], length, map, vec_capacity};
ghost use Rattle.lynx_service.specs.Desks.{stopped};

use crate::end_request::EndRequest;
use crate::store_files::StoreFiles;
use lynx_cluster::{Frontend, Gate, Session};
use lynx_codec::Looked;
use lynx_entry::{Answer, Request};
use lynx_keep::BatchKeeper;
use lynx_names::{ChainId, Memory};
use lynx_port::Desk;
use std::alloc::Global;
use std::sync::Wait;
use std::time::Clock;

/// What is answered to a request where all servers stopped.
fn stopped(_request: Request) -> Answer
    ensures { result ≡ stopped _request }
{
    Answer::Stopped
}

/// Answers each of these requests so.
fn stop_all(requests: Vec<Request>, answers: &mut Vec<Answer>)
    requires empty { answers.old.items ≡ [] }
    requires room { length requests.items ≤ vec_capacity answers.old }
    ensures { answers.new.items ≡ map stopped requests.items }
{
    for request in requests {
        answers.push_reserved(stopped(request));
    }
}

/// A client's session, the cluster that it asks, the end that it may ask for, and the files of
/// the stores. It must be taken apart, since the session must be spent.
pub struct ClientDesk<'a, R: Wait + Clock, K: BatchKeeper, G: Gate> {
    pub rt: &'a R,
    pub alloc: Global,
    pub frontend: &'a Frontend<K, G>,
    pub session: Session,
    pub end_request: &'a EndRequest,
    pub files: &'a StoreFiles,
}

impl<'a, R: Wait + Clock, K: BatchKeeper, G: Gate> Desk for ClientDesk<'a, R, K, G> {
    ghost use Rattle.lynx_cluster.specs.Calls.{AnswersBegin};
    ghost use Rattle.lynx_service.specs.Desks.{AnswersLook};

    ghost begins = { λ old request answer new. AnswersBegin old.frontend.now.set old.session request
        answer new.session };

    ghost looks = { λ old chain hop found new. AnswersLook old.frontend.now.set old.session chain
        hop found new.session };

    fn begin(&mut self, request: Request) -> Answer {
        if self.files.are_gone() {
            return Answer::Stopped;
        }
        self.frontend
            .begin(self.rt, self.alloc, &mut self.session, request)
    }

    fn begin_all(&mut self, requests: Vec<Request>, answers: &mut Vec<Answer>) {
        if self.files.are_gone() {
            stop_all(requests, answers);
            return;
        }
        self.frontend
            .begin_all(self.rt, self.alloc, &mut self.session, requests, answers);
    }

    fn look(&mut self, chain: ChainId, hop: u8) -> Result<Looked, Memory> {
        self.frontend
            .look(self.rt, self.alloc, &mut self.session, chain, hop)
    }

    fn shut(&mut self) {
        self.end_request.ask(self.rt);
    }
}
