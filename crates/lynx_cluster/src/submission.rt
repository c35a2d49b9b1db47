//! Requests of one session on their way to a server, and the answers on their way back.
ghost use Rattle.std.specs.Prelude.{◌≡◌, ◌<◌, ◌≤◌, [], false, true, IfOk, IsTrue, length, vec_capacity};
ghost use Rattle.lynx_codec.specs.Ranges.{IsAnswerInRange};
ghost use Rattle.lynx_cluster.specs.Answers.{FitsRequest, IsAbove, IsLeft, IsUnserved};
ghost use Rattle.lynx_cluster.specs.inner.Submitting.{AreFit};
ghost use Rattle.lynx_keep.specs.HeldBack.{held_terms};
ghost use Rattle.lynx_weave.specs.Told.{stamp_answered};

use crate::beginning::{begin_at, later, stamp_of};
use crate::cluster::is_of;
use lynx_entry::{Answer, Request};
use lynx_keep::BatchKeeper;
use lynx_names::{Memory, ServerId, Stamp, TryCopy};
use lynx_resting::{Mark, Resting};
use lynx_set::ChainSet;
use std::alloc::Global;
use std::marker::Model;
use std::sync::Arc;
use std::time::Instant;

/// Requests that one session begins at one server, in order, and what that answered, of which
/// nobody is told before it is settled: [`Submission::complete`].
#[derive(Drop)]
pub(crate) struct Submission {
    set: Arc<ChainSet>,
    server: ServerId,
    /// The greatest stamp that the session was told before.
    seen: Stamp,
    requests: Vec<Request>,
    answers: Vec<Answer>,
    /// How many entries have to be settled before the answers are told.
    reached: usize,
    /// When the first of them began.
    since: Option<Instant>,
}

impl Model for Submission {
    ghost use Rattle.std.specs.Prelude.{◌≤◌, length, vec_capacity};
    ghost use Rattle.lynx_cluster.specs.inner.Submitting.{AreFit, Pending};

    ghost Value = { Pending };

    ghost view = { λ s. record {
      asked = record {
        set = s.set.value;
        server = s.server;
        seen = s.seen;
        requests = s.requests.items;
        answers = s.answers.items;
      };
      reached = s.reached;
    } };

    ghost invariant = { λ s. (length s.requests.items ≤ vec_capacity s.answers)
        × AreFit s.set.value s.server s.seen s.requests.items s.answers.items };
}

/// Requests of one session that were begun at a server, and the answers that it may be told: one to
/// each, or none.
#[derive(Drop)]
pub(crate) struct Completion {
    set: Arc<ChainSet>,
    server: ServerId,
    seen: Stamp,
    requests: Vec<Request>,
    answers: Vec<Answer>,
    since: Option<Instant>,
}

impl Model for Completion {
    ghost use Rattle.lynx_cluster.specs.inner.Submitting.{AreFit, Submitted};

    ghost Value = { Submitted };

    ghost view = { λ c. record {
      set = c.set.value;
      server = c.server;
      seen = c.seen;
      requests = c.requests.items;
      answers = c.answers.items;
    } };

    ghost invariant = { λ c. AreFit c.set.value c.server c.seen c.requests.items c.answers.items };
}

/// Copies of these requests.
fn copies_of(alloc: Global, requests: &[Request]) -> Result<Vec<Request>, Memory>
    ensures { IfOk result (λ copies. copies.items ≡ requests.now) }
{
    let mut copies = Vec::with_capacity(alloc, requests.len())?;
    for request in requests {
        copies.push(request.copy(alloc)?)?;
    }
    Ok(copies)
}

/// Begins these in order, by a session that had seen that stamp, and adds the answers.
fn begin_all<K: BatchKeeper>(
    alloc: Global,
    state: &mut Resting<K>,
    seen: Stamp,
    requests: &[Request],
    answers: &mut Vec<Answer>,
)
    requires none { answers.old.items ≡ [] }
    requires room { length requests.now ≤ vec_capacity answers.old }
    ensures fit { AreFit state.old.here.set state.old.here.server seen requests.now
        answers.new.items }
    ensures count { length answers.new.items ≡ length requests.now }
    ensures capacity { vec_capacity answers.new ≡ vec_capacity answers.old }
    ensures set { state.new.here.set ≡ state.old.here.set }
    ensures server { state.new.here.server ≡ state.old.here.server }
    ensures settled { state.new.settled ≡ state.old.settled }
{
    let mut seen = seen;
    for request in requests {
        let answer = begin_at(alloc, state, request, seen);
        seen = later(seen, stamp_of(&answer));
        answers.push_reserved(answer);
    }
}

impl Submission {
    /// These requests of a session that was told no stamp above that one, for that server of the
    /// set.
    pub(crate) fn new(
        alloc: Global,
        set: &Arc<ChainSet>,
        server: ServerId,
        seen: Stamp,
        requests: &[Request],
    ) -> Result<Submission, Memory>
        ensures { IfOk result (λ submission. submission ≡ record {
          asked = record {
            set = set.now.value;
            server = server;
            seen = seen;
            requests = requests.now;
            answers = [];
          };
          reached = 0;
        }) }
    {
        let answers = Vec::with_capacity(alloc, requests.len())?;
        let requests = copies_of(alloc, requests)?;
        let set = Arc::try_clone(set)?;
        Ok(Submission {
            set,
            server,
            seen,
            requests,
            answers,
            reached: 0,
            since: None,
        })
    }

    /// How many requests it has.
    pub(crate) fn count(&self) -> usize
        ensures { result ≡ length self.now.asked.requests }
    {
        self.requests.len()
    }

    /// Begins all, in order, on the state of a server, if it is that of their server and set.
    /// Nobody is told of the answers before all that the server did so far is settled: those that
    /// add no entry are read of what waits, too.
    pub(crate) fn ask<K: BatchKeeper>(
        &mut self,
        alloc: Global,
        state: &mut Resting<K>,
        since: Option<Instant>,
    )
        ensures asked { self.new.asked ≡ record self.old.asked
            { answers = self.new.asked.answers } }
        ensures reached { self.new.reached ≡ length state.new.here.history }
        ensures set { state.new.here.set ≡ state.old.here.set }
        ensures server { state.new.here.server ≡ state.old.here.server }
        ensures settled { state.new.settled ≡ state.old.settled }
    {
        self.answers.clear();
        self.since = since;
        if is_of(state, &self.set, self.server) {
            begin_all(
                alloc,
                state,
                self.seen,
                self.requests.as_slice(),
                &mut self.answers,
            );
        }
        self.reached = state.reached();
    }

    /// A chain began so that a later hop of it is owed.
    pub(crate) fn owes_more(&self) -> bool {
        for (request, answer) in self.requests.iter().zip(self.answers.iter()) {
            if matches!(answer, Answer::Begun { .. })
                && self.set.hop(request.program, 1).is_some()
            {
                return true;
            }
        }
        false
    }

    /// The answers, where all is settled that they may be read of. Else none: the server stopped
    /// before.
    pub(crate) fn complete(self, mark: &Mark) -> Completion
        ensures settled { self.reached ≤ mark.now.settled → result ≡ self.asked }
        ensures unsettled { mark.now.settled < self.reached
            → result ≡ record self.asked { answers = [] } }
    {
        let Submission {
            set,
            server,
            seen,
            requests,
            mut answers,
            reached,
            since,
        } = self;
        if mark.settled() < reached {
            answers.clear();
        }
        Completion {
            set,
            server,
            seen,
            requests,
            answers,
            since,
        }
    }
}

impl Completion {
    /// It has an answer to each of these requests, of a session that was told no stamp above that
    /// one, by that server of the set.
    pub(crate) fn answers_all(
        &self,
        set: &ChainSet,
        server: ServerId,
        seen: Stamp,
        requests: &[Request],
    ) -> bool
        ensures fit { IsTrue result → AreFit set.now server seen requests.now self.now.answers }
        ensures count { IsTrue result → length self.now.answers ≡ length requests.now }
    {
        if self.server != server {
            return false;
        }
        if self.seen != seen {
            return false;
        }
        if self.answers.len() != requests.len() {
            return false;
        }
        if self.requests.as_slice() != requests {
            return false;
        }
        self.set.is_same(set)
    }

    /// When the first request began.
    pub(crate) fn since(&self) -> Option<Instant> {
        self.since
    }

    /// The answers.
    pub(crate) fn answers(&self) -> &[Answer]
        ensures { result.now ≡ self.now.answers }
    {
        self.answers.as_slice()
    }

    /// The answers, out of it.
    pub(crate) fn into_answers(self) -> Vec<Answer>
        ensures { result.items ≡ self.answers }
    {
        self.answers
    }
}
