//! What a thread does that leads: it begins what all ask who wait for a server.
use crate::cluster::Frontend;
use crate::gate::{Gate, StepKind};
use crate::queue::{Mailbox, Waiting, Word};
use crate::shared_server::SharedServer;
use crate::submission::{Completion, Submission};
use lynx_keep::BatchKeeper;
use lynx_names::{Memory, ServerId};
use lynx_resting::{Mark, Resting};
use std::alloc::Global;
use std::sync::{Arc, Wait};
use std::time::Clock;

impl<K: BatchKeeper, G: Gate> Frontend<K, G> {
    /// Begins what one of them asks, on the state of the server.
    fn ask_one(
        &self,
        alloc: Global,
        shared: &SharedServer<K>,
        state: &mut Resting<K>,
        server: ServerId,
        submission: &mut Submission,
    ) {
        self.gate.enter(server, StepKind::Begin);
        submission.ask(alloc, state, self.gate.now());
        shared.note_begins(submission.count());
    }

    /// Begins what all ask who wait, and how many entries there are then. The lock is given back
    /// and taken again where much waits to be settled, so that the worker of the server comes.
    fn ask_all<R: Wait + Clock>(
        &self,
        rt: &R,
        alloc: Global,
        shared: &SharedServer<K>,
        server: ServerId,
    ) -> (Vec<Waiting>, usize) {
        let mut state = shared.enter_to_begin(rt, alloc, &self.signals, server);
        let mut waiting = shared.take_waiting(rt, alloc);
        for one in waiting.as_mut_slice() {
            if shared.is_turn_over(&state) {
                shared.give_back(rt, alloc, state);
                state = shared.enter_to_begin(rt, alloc, &self.signals, server);
            }
            self.ask_one(alloc, shared, &mut state, server, &mut one.submission);
        }
        let reached = state.reached();
        shared.give_back(rt, alloc, state);
        for _ in waiting.iter() {
            self.gate.leave(server, StepKind::Begin);
        }
        (waiting, reached)
    }

    /// Tells each of them what came of what it asked, and the worker of the server that it has
    /// work.
    fn tell_all<R: Wait>(&self, rt: &R, server: ServerId, waiting: Vec<Waiting>, mark: &Mark) {
        let mut owes_more = false;
        for one in waiting {
            let Waiting {
                submission,
                mailbox,
            } = one;
            owes_more = owes_more || submission.owes_more();
            mailbox.put(rt, Word::Done(submission.complete(mark)));
        }
        if owes_more {
            self.signals.signal(server);
        }
    }

    /// Begins what all ask who wait for the server, tells each what came of it once all of it is
    /// settled, and has the next one lead.
    fn lead<R: Wait + Clock>(
        &self,
        rt: &R,
        alloc: Global,
        shared: &SharedServer<K>,
        server: ServerId,
    ) {
        let (waiting, reached) = self.ask_all(rt, alloc, shared, server);
        let mark = shared.await_settled(rt, reached);
        self.tell_all(rt, server, waiting, &mark);
        shared.pass_lead(rt);
        shared.wake_told(rt);
    }

    /// Has these requests begun by whoever leads at their server, which may be this thread.
    pub(crate) fn exchange<R: Wait + Clock>(
        &self,
        rt: &R,
        alloc: Global,
        shared: &SharedServer<K>,
        server: ServerId,
        submission: Submission,
    ) -> Result<Completion, Memory> {
        let mailbox = Arc::new(alloc, Mailbox::new())?;
        let theirs = Arc::try_clone(&mailbox)?;
        let mut leads = shared.submit(rt, submission, theirs)?;
        for _ in rt.forever() {
            if leads {
                self.lead(rt, alloc, shared, server);
            }
            match shared.await_word(rt, &mailbox) {
                Word::Lead => leads = true,
                Word::Done(completion) => return Ok(completion),
            }
        }
        unreachable!()
    }
}
