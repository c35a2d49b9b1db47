//! Workers: one thread for each server, which sends what the server owes and delivers what comes
//! in.
ghost use Rattle.std.specs.Prelude.{◌≡◌};
ghost use Rattle.lynx_worker.specs.Sending.{reached_after, Sends};
ghost use Rattle.lynx_worker.specs.Taking.{Takes, TakesOut};

use crate::rest::{pause, rest};
use crate::routes::Routes;
use crate::steps::{Acknowledgement, Arrived, Owed, Steps};
use crate::telling::{add_acknowledgements, tell};
use lynx_link::{Ends, Receiver};
use lynx_names::{Memory, ServerId};
use std::alloc::Global;
use std::collections::VecDeque;
use std::sync::Wait;
use std::sync::atomic::{AtomicBool, Ordering};
use std::time::Clock;

/// Messages that one pass sends, at most.
const TURN_MESSAGES: usize = 256;

/// Rounds over all rings in which one pass takes parcels out of them, ..
const TURN_ROUNDS: u32 = 16;

/// .. and parcels that each round takes out of each ring, at most. Chains of one origin come by
/// several rings, and what is far ahead of the others is held, or dropped where there is no room.
const ROUND_PARCELS: usize = 16;

/// The worker of one server: its steps, its ends of the rings, and how far it has sent.
#[derive(Drop)]
pub struct Worker<S: Steps> {
    steps: S,
    ends: Ends,
    routes: Routes,
    /// The messages of all entries before this place were sent, but for those of routes that lag.
    reached: u64,
    /// What was taken out of the rings and isn't served yet.
    inbox: VecDeque<Arrived>,
    /// What was done, of which the senders weren't told yet.
    untold: VecDeque<Acknowledgement>,
}

/// Puts what comes out of a ring, which leads from that server, into the inbox. What there is no
/// memory for stays in the ring.
fn take_out(receiver: &mut Receiver, from: ServerId, inbox: &mut VecDeque<Arrived>)
    ensures { TakesOut from receiver.old inbox.old.items receiver.new inbox.new.items }
{
    for _ in 0..ROUND_PARCELS {
        if inbox.reserve(1).is_err() {
            break;
        }
        let Some(parcel) = receiver.take() else {
            break;
        };
        inbox.push_back_reserved(Arrived { from, parcel });
    }
}

impl<S: Steps> Worker<S> {
    /// A worker that has sent nothing yet, among so many servers.
    pub fn new(alloc: Global, steps: S, ends: Ends, servers: u8) -> Result<Worker<S>, Memory>
    where
        S: Drop,
    {
        let routes = Routes::new(alloc, servers)?;
        Ok(Worker {
            steps,
            ends,
            routes,
            reached: 0,
            inbox: VecDeque::new(alloc),
            untold: VecDeque::new(alloc),
        })
    }

    /// Sends what is owed and was not sent yet. A message whose ring is full makes its route lag,
    /// and no other. Whether there was any.
    fn send<R: Clock>(&mut self, rt: &R, owed: Owed) -> bool
        // Asked from just where the worker has come: no message is passed over.
        requires from { owed.from ≡ self.old.reached }
        ensures sends { Sends owed.dues.items self.old.ends self.old.routes self.new.ends
            self.new.routes }
        ensures reached { self.new.reached ≡ reached_after self.old.reached owed }
    {
        let mut is_busy = false;
        for due in owed.dues {
            self.reached = due.place.saturating_add(1);
            let to = due.to;
            if self.routes.send(rt, &mut self.ends, due) {
                self.steps.signal(to);
                is_busy = true;
            }
        }
        if let Some(len) = owed.end {
            self.reached = self.reached.max(len);
        }
        is_busy
    }

    /// Tells what was done: before anything else is sent, so that what can't be told for want of
    /// room goes first where there is some again.
    fn tell(&mut self) {
        tell(&self.steps, &mut self.ends, &mut self.untold);
    }

    /// Puts what came from that server into the inbox. What there is no memory for stays in its
    /// ring.
    fn take_from(&mut self, from: ServerId)
        ensures { Takes self.old.ends self.old.inbox.items self.new.ends self.new.inbox.items }
    {
        if let Some(receiver) = self.ends.receiver(from) {
            take_out(receiver, from, &mut self.inbox);
        }
    }

    /// Puts what came from each server into the inbox.
    fn take_round(&mut self)
        ensures { Takes self.old.ends self.old.inbox.items self.new.ends self.new.inbox.items }
    {
        for number in 0..self.routes.len() {
            if let Some(from) = u8::try_from(number).ok().and_then(ServerId::new) {
                self.take_from(from);
            }
        }
    }

    /// Puts what came into the inbox, round by round, once all that it held was served. Whether
    /// there is any.
    fn take(&mut self) -> bool
        ensures { Takes self.old.ends self.old.inbox.items self.new.ends self.new.inbox.items }
    {
        if !self.inbox.is_empty() {
            return true;
        }
        for _ in 0..TURN_ROUNDS {
            let before = self.inbox.len();
            self.take_round();
            if self.inbox.len() == before {
                break;
            }
        }
        !self.inbox.is_empty()
    }

    /// Wakes what is held, and does what the parcels of the inbox ask, for as long as the lock may
    /// be held. Whether there was any.
    fn serve<R: Wait + Clock>(&mut self, rt: &R, alloc: Global) -> bool {
        let handled = self.steps.serve(rt, alloc, &mut self.inbox);
        add_acknowledgements(&mut self.untold, handled.acknowledgements.as_slice());
        self.tell();
        self.routes.hear(rt, handled.heard);
        handled.is_busy
    }

    /// One pass. It tells what wasn't told, sends what was not sent yet, delivers what came in and
    /// wakes what is held, and then sends again what is owed for a while. The first 64 messages
    /// that are owed to a server are sent again where the very first stays so for 8 milliseconds,
    /// and all of them each [`RESEND_MILLIS`](crate::RESEND_MILLIS); both later where the server
    /// takes longer until it acknowledges a message, and after a time that doubles while the very
    /// first stays owed, or nothing is heard of that server, up to
    /// [`LONGEST_MILLIS`](crate::LONGEST_MILLIS). False where there was nothing to do. A pass has a
    /// bound: 4,096 acknowledgements told twice, 256 messages sent, and for each server 256 more
    /// where its ring was full, 128 sent again and 256 parcels taken; and one taking of the lock
    /// for what came in. Where there is nothing to do it takes the server's lock once.
    pub fn pass<R: Wait + Clock>(&mut self, rt: &R, alloc: Global) -> bool {
        self.tell();
        let owed = self.steps.owed(rt, alloc, self.reached, TURN_MESSAGES);
        let holds = owed.holds;
        let has_sent = self.send(rt, owed);
        let (steps, ends) = (&self.steps, &mut self.ends);
        let has_caught_up = self.routes.catch_up(rt, alloc, steps, ends, self.reached);
        let has_taken = self.take();
        let has_served = (has_taken || holds) && self.serve(rt, alloc);
        let (steps, ends) = (&self.steps, &mut self.ends);
        let has_sent_again = self.routes.send_again(rt, alloc, steps, ends);
        self.steps.note_owed(rt, self.routes.owe_from(self.reached));
        has_sent || has_caught_up || has_served || has_sent_again
    }

    /// Whether something that was sent may have to be sent again, or lags, or wasn't told.
    fn awaits(&self) -> bool {
        !self.untold.is_empty() || self.routes.awaits()
    }

    /// Pass after pass, with rests between them, until it is to stop.
    pub fn run<R: Wait + Clock>(mut self, rt: &R, alloc: Global, stop: &AtomicBool)
    where
        S: Drop,
    {
        let mut idle: u32 = 0;
        for _ in rt.forever() {
            if stop.load(Ordering::SeqCst) {
                break;
            }
            if self.pass(rt, alloc) {
                idle = 0;
                pause(rt);
            } else {
                rest(rt, &self.steps, idle, self.awaits());
                idle = idle.saturating_add(1);
            }
        }
    }
}
