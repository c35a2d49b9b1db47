//! Begins of a session: those that it asks together at one server are one submission.
ghost use Rattle.std.specs.Prelude.{◌≡◌, if◌then◌else◌, ◌+◌, ◌<◌, ◌≤◌, ◌++◌, ◌∷◌, [], ℕ, IfNone, IfOk, IfSome, OnErr, OnOk, length, vec_capacity, vec_len};
ghost use Rattle.lynx_cluster.specs.Calls.{AnswersBegin, AnswersBeginAll};
ghost use Rattle.lynx_cluster.specs.Clusters.{home_of};
ghost use Rattle.lynx_cluster.specs.inner.Submitting.{AreFew, BeginAt, seen_after, told_by_all, unanswered};
ghost use Rattle.lynx_cluster.specs.inner.Together.{BeginsLeading};

use crate::beginning::note;
use crate::cluster::Frontend;
use crate::gate::Gate;
use crate::session::Session;
use crate::shared_server::SharedServer;
use crate::submission::{Completion, Submission};
use lynx_entry::{Answer, AnswerRoom, Request};
use lynx_keep::BatchKeeper;
use lynx_names::{Memory, ServerId, Stamp};
use lynx_weave::ToldItem;
use std::alloc::Global;
use std::collections::VecDeque;
use std::sync::Wait;
use std::time::Clock;

/// Room for so many answers.
fn rooms_for(alloc: Global, count: usize) -> Result<Vec<AnswerRoom>, Memory>
    ensures { IfOk result (λ rooms. length rooms.items ≡ count) }
{
    let mut rooms = Vec::with_capacity(alloc, count)?;
    for _ in 0..count {
        rooms.push(AnswerRoom::new(alloc)?)?;
    }
    Ok(rooms)
}

/// The answer to a request that wasn't begun, since its server stopped or memory was wanting.
fn unbegun(is_stopped: bool) -> Answer
    ensures { result ≡ (if is_stopped then Answer.Stopped else Answer.Memory) }
{
    if is_stopped {
        Answer::Stopped
    } else {
        Answer::Memory
    }
}

/// Gives so many requests one answer each, where none was begun.
fn answer_none(count: usize, is_stopped: bool, answers: &mut Vec<Answer>)
    requires room { count + vec_len answers.old ≤ vec_capacity answers.old }
    ensures answers { answers.new.items ≡ answers.old.items ++ unanswered is_stopped count }
    ensures len { vec_len answers.new ≡ vec_len answers.old + count }
    ensures capacity { vec_capacity answers.new ≡ vec_capacity answers.old }
{
    for _ in 0..count {
        answers.push_reserved(unbegun(is_stopped));
    }
}

/// Notes that server's answers to requests among what a session was told, which has room for them.
fn note_all(
    told: &mut Vec<ToldItem>,
    greatest: &mut Stamp,
    server: ServerId,
    requests: Vec<Request>,
    given: Vec<Answer>,
    rooms: Vec<AnswerRoom>,
    answers: &mut Vec<Answer>,
)
    requires told { length requests.items + vec_len told.old ≤ vec_capacity told.old }
    requires answers { length requests.items + vec_len answers.old ≤ vec_capacity answers.old }
    requires given { length given.items ≡ length requests.items }
    requires rooms { length rooms.items ≡ length requests.items }
    requires few { AreFew given.items }
    ensures told { told.new.items ≡ told.old.items ++ told_by_all server requests.items
        given.items }
    ensures greatest { greatest.new ≡ seen_after greatest.old given.items }
    ensures answers { answers.new.items ≡ answers.old.items ++ given.items }
    ensures len { vec_len answers.new ≡ vec_len answers.old + length given.items }
    ensures capacity { vec_capacity answers.new ≡ vec_capacity answers.old }
{
    let mut requests = requests.into_iter();
    let mut rooms = rooms.into_iter();
    for answer in given {
        let Some(request) = requests.next() else {
            unreachable!()
        };
        let Some(room) = rooms.next() else {
            unreachable!()
        };
        note(told, greatest, server, request, &answer, room);
        answers.push_reserved(answer);
    }
}

impl<K: BatchKeeper, G: Gate> Frontend<K, G> {
    /// Tells the gate of each answer.
    fn tell_gate<R: Wait>(
        &self,
        rt: &R,
        shared: &SharedServer<K>,
        server: ServerId,
        requests: &[Request],
        completion: &Completion,
    ) {
        let since = completion.since();
        for (request, answer) in requests.iter().zip(completion.answers()) {
            self.gate.answered(server, request.program, answer, since);
        }
        let is_stopped = completion.answers().len() < requests.len()
            || matches!(completion.answers().last(), Some(Answer::Stopped));
        if is_stopped {
            let cause = shared.look(rt).cause();
            self.gate.stopped(server, cause);
        }
    }

    /// Begins these, in order, at their server, and notes what it answers. All memory for that is
    /// taken before the server is asked.
    fn try_begin_run<R: Wait + Clock>(
        &self,
        rt: &R,
        alloc: Global,
        session: &mut Session,
        server: ServerId,
        requests: Vec<Request>,
        answers: &mut Vec<Answer>,
    ) -> Result<(), Memory>
        requires home { BeginAt self.now.set server requests.items }
        requires room { length requests.items + vec_len answers.old ≤ vec_capacity answers.old }
        ensures begins { OnOk result (BeginsLeading self.now.set session.old requests.items []
            answers.old.items answers.new.items session.new) }
        ensures same_session { OnErr result (session.new ≡ session.old) }
        ensures same_answers { OnErr result (answers.new.items ≡ answers.old.items) }
        ensures len { OnOk result (vec_len answers.new ≡ vec_len answers.old
            + length requests.items) }
        ensures same_len { OnErr result (vec_len answers.new ≡ vec_len answers.old) }
        ensures capacity { vec_capacity answers.new ≡ vec_capacity answers.old }
    {
        let Some(shared) = self.shared_servers.as_slice().get(server.index()) else {
            answer_none(requests.len(), true, answers);
            return Ok(());
        };
        let seen = session.greatest_stamp();
        session.told.reserve(requests.len())?;
        let rooms = rooms_for(alloc, requests.len())?;
        let submission = Submission::new(alloc, &self.set, server, seen, requests.as_slice())?;
        let completion = self.exchange(rt, alloc, shared, server, submission)?;
        self.tell_gate(rt, shared, server, requests.as_slice(), &completion);
        if completion.answers_all(&self.set, server, seen, requests.as_slice()) {
            let given = completion.into_answers();
            let (told, greatest) = (&mut session.told, &mut session.greatest);
            note_all(told, greatest, server, requests, given, rooms, answers);
        } else {
            answer_none(requests.len(), true, answers);
        }
        Ok(())
    }

    /// Begins these, in order, at their server. Each is answered Memory where that is wanting for
    /// all of them.
    fn begin_run<R: Wait + Clock>(
        &self,
        rt: &R,
        alloc: Global,
        session: &mut Session,
        server: ServerId,
        requests: Vec<Request>,
        answers: &mut Vec<Answer>,
    )
        requires home { BeginAt self.now.set server requests.items }
        requires room { length requests.items + vec_len answers.old ≤ vec_capacity answers.old }
        ensures begins { BeginsLeading self.now.set session.old requests.items []
            answers.old.items answers.new.items session.new }
        ensures len { vec_len answers.new ≡ vec_len answers.old + length requests.items }
        ensures capacity { vec_capacity answers.new ≡ vec_capacity answers.old }
    {
        let count = requests.len();
        if let Err(Memory) = self.try_begin_run(rt, alloc, session, server, requests, answers) {
            answer_none(count, false, answers);
        }
    }

    /// The request that stands next, where it begins at that server, too, and there is room for it.
    fn next_of(
        &self,
        server: ServerId,
        rest: &mut VecDeque<Request>,
        leading: &mut Vec<Request>,
    ) -> Option<Request>
        ensures some { IfSome result (λ request. (rest.old.items ≡ request ∷ rest.new.items)
            × (home_of self.now.set request ≡ server)) }
        ensures none { IfNone result (rest.new.items ≡ rest.old.items) }
        ensures same { leading.new.items ≡ leading.old.items }
        ensures room { IfSome result (λ request. vec_len leading.new < vec_capacity leading.new) }
    {
        leading.reserve(1).ok()?;
        let next = rest.front()?;
        if self.home_of(next) != server {
            return None;
        }
        rest.pop_front()
    }

    /// Each step of that server is settled by itself.
    fn is_each(&self, server: ServerId) -> bool {
        match self.shared_servers.as_slice().get(server.index()) {
            Some(shared) => shared.is_each(),
            None => false,
        }
    }

    /// This request, and those that stand next and begin at that server, too; it alone where each
    /// is settled by itself.
    fn take_leading(
        &self,
        alloc: Global,
        server: ServerId,
        first: Request,
        rest: &mut VecDeque<Request>,
    ) -> Result<Vec<Request>, Memory>
        requires home { home_of self.now.set first ≡ server }
        ensures split { IfOk result (λ leading. first ∷ rest.old.items
            ≡ leading.items ++ rest.new.items) }
        ensures home { IfOk result (λ leading. BeginAt self.now.set server leading.items) }
        ensures some { IfOk result (λ leading. 1 ≤ length leading.items) }
        ensures same { OnErr result (rest.new.items ≡ rest.old.items) }
    {
        let mut leading = Vec::with_capacity(alloc, 1)?;
        leading.push_reserved(first);
        if self.is_each(server) {
            return Ok(leading);
        }
        while let Some(next) = self.next_of(server, rest, &mut leading) {
            leading.push_reserved(next);
        }
        Ok(leading)
    }

    /// Begins this request, and those that stand next and begin at the same server, too.
    fn begin_leading<R: Wait + Clock>(
        &self,
        rt: &R,
        alloc: Global,
        session: &mut Session,
        first: Request,
        rest: &mut VecDeque<Request>,
        answers: &mut Vec<Answer>,
    )
        requires places { length rest.old.items + vec_len answers.old < vec_capacity answers.old }
        ensures begins { BeginsLeading self.now.set session.old (first ∷ rest.old.items)
            rest.new.items answers.old.items answers.new.items session.new }
        ensures count { vec_len answers.new + length rest.new.items
            ≡ vec_len answers.old + length rest.old.items + 1 }
        ensures fewer { length rest.new.items ≤ length rest.old.items }
        ensures capacity { vec_capacity answers.new ≡ vec_capacity answers.old }
    {
        let server = self.home_of(&first);
        match self.take_leading(alloc, server, first, rest) {
            Ok(leading) => self.begin_run(rt, alloc, session, server, leading, answers),
            Err(Memory) => answers.push_reserved(Answer::Memory),
        }
    }

    /// Begins these in order, as [`Frontend::begin`] does each of them, and puts each answer behind
    /// those before it, into a list that has room for all. Those that stand side by side and begin
    /// at one server are begun together, and share a settling: where the store fails in that, each
    /// of them is answered Stopped, and where memory is wanting for all of them, Memory. Each is
    /// begun by itself under [`Pace::Each`](crate::Pace::Each).
    pub fn begin_all<R: Wait + Clock>(
        &self,
        rt: &R,
        alloc: Global,
        session: &mut Session,
        requests: Vec<Request>,
        answers: &mut Vec<Answer>,
    )
        requires empty { answers.old.items ≡ [] }
        requires room { length requests.items ≤ vec_capacity answers.old }
        ensures { AnswersBeginAll self.now.set session.old requests.items answers.new.items
            session.new }
    {
        let mut rest = VecDeque::from_vec(requests);
        while let Some(first) = rest.pop_front() {
            self.begin_leading(rt, alloc, session, first, &mut rest, answers);
        }
    }

    /// One begin, and its answer in a list.
    fn begin_one<R: Wait + Clock>(
        &self,
        rt: &R,
        alloc: Global,
        session: &mut Session,
        request: Request,
    ) -> Result<Vec<Answer>, Memory>
        ensures begins { IfOk result (λ answers. BeginsLeading self.now.set session.old
            (request ∷ []) [] [] answers.items session.new) }
        ensures same { OnErr result (session.new ≡ session.old) }
    {
        let server = self.home_of(&request);
        let mut answers = Vec::with_capacity(alloc, 1)?;
        let mut requests = Vec::with_capacity(alloc, 1)?;
        requests.push_reserved(request);
        self.begin_run(rt, alloc, session, server, requests, &mut answers);
        Ok(answers)
    }

    /// One begin at the origin of the request's program. The session notes the answer where it is
    /// Begun, Refused, Clash or Full, and the server takes as seen the greatest stamp that the
    /// session was told. Those who wait for the server have one of them begin for all under its
    /// lock. It is answered once all is settled that the answer may be read of; where the store
    /// fails in that, Stopped. Stopped comes also where the lock has the state of another server.
    /// It costs two walks over the set, two copies of the request, and
    /// [`Server::begin`](lynx_server::Server::begin); all memory for the note is taken before the
    /// server is asked.
    pub fn begin<R: Wait + Clock>(
        &self,
        rt: &R,
        alloc: Global,
        session: &mut Session,
        request: Request,
    ) -> Answer
        ensures { AnswersBegin self.now.set session.old request result session.new }
    {
        match self.begin_one(rt, alloc, session, request) {
            Ok(mut answers) => match answers.pop() {
                Some(answer) => answer,
                None => unreachable!(),
            },
            Err(Memory) => Answer::Memory,
        }
    }
}
