//! The steps of a server behind its lock.
ghost use Rattle.std.specs.Prelude.{◌≡◌, [], false, true};
ghost use Rattle.lynx_keep.specs.HeldBack.{held_terms};
ghost use Rattle.lynx_resting.specs.Resting.{settled_front};
ghost use Rattle.lynx_server.specs.Owed.{Acknowledges};
ghost use Rattle.lynx_cluster.specs.inner.Serving.{AreDone, HearsOf, IsNotedIn, NamesSender, NotesDone, Serves, TellsDone, was_done};

use crate::cluster::is_of;
use crate::gate::{Gate, StepKind};
use crate::inbox::brings_message;
use crate::shared_server::SharedServer;
use crate::signals::Signals;
use lynx_entry::{Delivered, Message};
use lynx_keep::BatchKeeper;
use lynx_link::Parcel;
use lynx_names::{ChainId, Memory, ServerId};
use lynx_resting::Resting;
use lynx_set::ChainSet;
use lynx_worker::{Acknowledgement, Arrived, Due, Handled, Heard, Owed, Steps};
use std::alloc::Global;
use std::collections::VecDeque;
use std::sync::{Arc, Wait};
use std::time::{Clock, Duration, Instant};

/// Microseconds for which the lock is held to make steps, about, before they are settled.
const LOCK_MICROS: u64 = 1_000;

/// Steps that are made in any case for each begin that clients made since the last ones: a message
/// that came for it from elsewhere, and an acknowledgement.
const STEPS_A_BEGIN: u64 = 2;

/// Steps that are made under one taking of the lock, at most.
const MOST_STEPS: u32 = 1_024;

/// What the worker of one server has: a share in the server's state behind its lock, and in the
/// gate. Where the lock has the state of another server or another set, no step is made.
#[derive(Drop)]
pub struct WorkerShare<K: BatchKeeper, G: Gate> {
    pub(crate) set: ChainSet,
    pub(crate) server: ServerId,
    shared: Arc<SharedServer<K>>,
    gate: Arc<G>,
    signals: Arc<Signals>,
}

/// What a worker did under one taking of the lock. Nobody is told of it before it is settled.
#[derive(Drop)]
struct Batch {
    handled: Handled,
    /// What the messages came to.
    outcomes: Vec<Delivered>,
}

/// The hop of the message was done.
fn is_done(delivered: &Delivered) -> bool
    ensures { result ≡ was_done delivered.now }
{
    matches!(delivered, Delivered::Done { .. } | Delivered::Repeat { .. })
}

/// Adds an acknowledgement. One for which there is no memory is let go: the message comes again.
fn note(handled: &mut Handled, acknowledgement: Acknowledgement)
    ensures notes { IsNotedIn acknowledgement handled.old.acknowledgements.items
        handled.new.acknowledgements.items }
    ensures heard { handled.new.heard ≡ handled.old.heard }
{
    let _ = handled.acknowledgements.push(acknowledgement);
}

/// Adds an acknowledgement for that server, where the hop was done. Whether it was.
fn note_done(
    handled: &mut Handled,
    to: Option<ServerId>,
    chain: ChainId,
    hop: u8,
    delivered: &Delivered,
) -> bool
    ensures done { result ≡ was_done delivered.now }
    ensures notes { NotesDone to chain hop delivered.now handled.old.acknowledgements.items
        handled.new.acknowledgements.items }
    ensures heard { handled.new.heard ≡ handled.old.heard }
{
    if !is_done(delivered) {
        return false;
    }
    if let Some(to) = to {
        note(handled, Acknowledgement { to, chain, hop });
    }
    true
}

/// Wakes one held message of the server, if any may be woken. False where there is none whose turn
/// it is, or it can't be woken now.
fn wake_next<K: BatchKeeper>(
    alloc: Global,
    state: &mut Resting<K>,
    may_wake: bool,
    batch: &mut Batch,
) -> bool
    ensures sender { NamesSender state.new.here batch.old.handled.acknowledgements.items
        batch.new.handled.acknowledgements.items }
    ensures done { TellsDone state.old.here.history batch.old.handled.acknowledgements.items
        state.new.here.history batch.new.handled.acknowledgements.items }
{
    if !may_wake || state.held().is_empty() {
        return false;
    }
    let Some(woken) = state.wake(alloc) else {
        return false;
    };
    let (chain, hop) = (woken.chain, woken.hop);
    let to = state.sender_of(&chain, hop);
    note_done(&mut batch.handled, to, chain, hop, &woken.delivered);
    let is_served = !matches!(
        woken.delivered,
        Delivered::Full | Delivered::Stopped | Delivered::Memory
    );
    let _ = batch.outcomes.push(woken.delivered);
    is_served
}

/// Marks the message of that hop as acknowledged by its server. A note for which there is no memory
/// is let go: the worker finds it out when it sends the message again.
fn acknowledge<K: BatchKeeper>(
    state: &mut Resting<K>,
    from: ServerId,
    chain: &ChainId,
    hop: u8,
    handled: &mut Handled,
)
    ensures state { Acknowledges state.old.here chain.now hop state.new.here }
    ensures settled { state.new.settled ≡ state.old.settled }
    ensures heard { HearsOf from chain.now hop (settled_front state.new) handled.old.heard.items
        handled.new.heard.items }
    ensures acknowledgements { handled.new.acknowledgements ≡ handled.old.acknowledgements }
{
    state.acknowledge(*chain, hop);
    let Some(before) = hop.checked_sub(1) else {
        return;
    };
    if let Some(place) = state.place_of(*chain, before) {
        let place = place as u64;
        let _ = handled.heard.push(Heard { from, place });
    }
}

/// Delivers a message that came from that server. Whether its hop was done.
fn deliver_one<K: BatchKeeper>(
    alloc: Global,
    state: &mut Resting<K>,
    from: ServerId,
    message: Message,
    batch: &mut Batch,
) -> bool
    ensures serves { Serves (held_terms K.terms) state.old.here (Parcel.Message message)
        state.new.here }
    ensures done { TellsDone state.old.here.history batch.old.handled.acknowledgements.items
        state.new.here.history batch.new.handled.acknowledgements.items }
{
    let (chain, hop) = (message.chain, message.hop);
    let delivered = state.deliver(alloc, message);
    let is_done = note_done(&mut batch.handled, Some(from), chain, hop, &delivered);
    let _ = batch.outcomes.push(delivered);
    is_done
}

/// Does what a parcel asks. Whether a hop was done, for which a held message may wait.
fn serve_one<K: BatchKeeper>(
    alloc: Global,
    state: &mut Resting<K>,
    arrived: Arrived,
    batch: &mut Batch,
) -> bool
    ensures serves { Serves (held_terms K.terms) state.old.here arrived.parcel state.new.here }
    ensures done { TellsDone state.old.here.history batch.old.handled.acknowledgements.items
        state.new.here.history batch.new.handled.acknowledgements.items }
{
    let from = arrived.from;
    match arrived.parcel {
        Parcel::Message(message) => deliver_one(alloc, state, from, message, batch),
        Parcel::Done { chain, hop } => {
            acknowledge(state, from, &chain, hop, &mut batch.handled);
            false
        }
    }
}

/// What came of parcels, without acknowledgements where the hops that they are of aren't settled.
fn only_settled(mut handled: Handled, is_settled: bool) -> Handled
    ensures settled { is_settled ≡ true → result.acknowledgements.items ≡
        handled.acknowledgements.items }
    ensures unsettled { is_settled ≡ false → result.acknowledgements.items ≡ [] }
{
    if !is_settled {
        handled.acknowledgements.clear();
    }
    handled
}

/// The lock was held for as long as it may be, or no clock can tell.
fn is_long<R: Clock>(rt: &R, since: &Option<Instant>) -> bool {
    match since {
        Some(since) => match since.elapsed(rt) {
            Ok(elapsed) => elapsed >= Duration::from_micros(LOCK_MICROS),
            Err(_) => true,
        },
        None => true,
    }
}

/// One step: a held message whose turn it may be is woken before another parcel is taken, since a
/// message for which there is no room to be held is dropped. None where there is no step to make,
/// or no memory for it, else whether a held message may be woken then.
fn step<K: BatchKeeper>(
    alloc: Global,
    state: &mut Resting<K>,
    inbox: &mut VecDeque<Arrived>,
    may_wake: bool,
    batch: &mut Batch,
) -> Option<bool>
    ensures done { TellsDone state.old.here.history batch.old.handled.acknowledgements.items
        state.new.here.history batch.new.handled.acknowledgements.items }
{
    if batch.outcomes.reserve(1).is_err() {
        return None;
    }
    if wake_next(alloc, state, may_wake, batch) {
        return Some(true);
    }
    let arrived = inbox.pop_front()?;
    Some(serve_one(alloc, state, arrived, batch))
}

impl<K: BatchKeeper, G: Gate> WorkerShare<K, G> {
    pub(crate) fn new(
        set: ChainSet,
        server: ServerId,
        shared: Arc<SharedServer<K>>,
        gate: Arc<G>,
        signals: Arc<Signals>,
    ) -> WorkerShare<K, G> {
        WorkerShare {
            set,
            server,
            shared,
            gate,
            signals,
        }
    }

    /// How many servers the set has.
    pub(crate) fn servers(&self) -> u8 {
        self.set.servers()
    }

    /// Makes steps until there is none to make, or the lock was held for a while and the steps keep
    /// pace with what clients begin; one where each is settled by itself.
    fn make_steps<R: Clock>(
        &self,
        rt: &R,
        alloc: Global,
        state: &mut Resting<K>,
        inbox: &mut VecDeque<Arrived>,
        batch: &mut Batch,
    )
        ensures done { TellsDone state.old.here.history batch.old.handled.acknowledgements.items
            state.new.here.history batch.new.handled.acknowledgements.items }
    {
        let since = Instant::now(rt).ok();
        let wanted = self.shared.take_begins().saturating_mul(STEPS_A_BEGIN);
        let mut may_wake = true;
        for made in 0..MOST_STEPS {
            let Some(is_done) = step(alloc, state, inbox, may_wake, batch) else {
                break;
            };
            may_wake = is_done;
            batch.handled.is_busy = true;
            let keeps_pace = u64::from(made) >= wanted;
            if self.shared.is_each() || keeps_pace && is_long(rt, &since) {
                break;
            }
        }
    }

    /// Makes steps, and settles what they did. Of hops whose settling failed nobody is told.
    fn serve_some<R: Wait + Clock>(
        &self,
        rt: &R,
        alloc: Global,
        state: &mut Resting<K>,
        inbox: &mut VecDeque<Arrived>,
    ) -> Handled
        ensures { AreDone (settled_front state.new) result.acknowledgements.items }
    {
        let nothing = Handled {
            acknowledgements: Vec::new(alloc),
            heard: Vec::new(alloc),
            is_busy: false,
        };
        let mut batch = Batch {
            handled: nothing,
            outcomes: Vec::new(alloc),
        };
        let since = self.gate.now();
        self.make_steps(rt, alloc, state, inbox, &mut batch);
        let is_settled = self.shared.settle(rt, alloc, state);
        if is_settled {
            self.tell(batch.outcomes.as_slice(), since);
        } else {
            self.gate.stopped(self.server, state.cause());
        }
        only_settled(batch.handled, is_settled)
    }

    /// Tells the gate what messages came to.
    fn tell(&self, outcomes: &[Delivered], since: Option<Instant>) {
        for delivered in outcomes {
            self.gate.delivered(self.server, delivered, since);
        }
    }
}

impl<K: BatchKeeper, G: Gate> Steps for WorkerShare<K, G> {
    fn owed<R: Wait>(&self, rt: &R, alloc: Global, from: u64, most: usize) -> Owed {
        let state = self.shared.look(rt);
        self.owed_of(alloc, &state, from, most)
    }

    fn owed_at<R: Wait>(&self, rt: &R, alloc: Global, places: &[u64]) -> Result<Vec<Due>, Memory> {
        let state = self.shared.look(rt);
        if is_of(&state, &self.set, self.server) {
            self.collect_at(alloc, &state, places)
        } else {
            Err(Memory)
        }
    }

    fn serve<R: Wait + Clock>(
        &self,
        rt: &R,
        alloc: Global,
        inbox: &mut VecDeque<Arrived>,
    ) -> Handled {
        let mut state = self.shared.enter(rt);
        let delivers = brings_message(inbox) || !state.held().is_empty();
        if delivers {
            self.gate.enter(self.server, StepKind::Deliver);
        }
        let handled = if is_of(&state, &self.set, self.server) {
            self.serve_some(rt, alloc, &mut state, inbox)
        } else {
            inbox.clear();
            self.shared.settle(rt, alloc, &mut state);
            Handled::new(alloc)
        };
        drop(state);
        if delivers {
            self.gate.leave(self.server, StepKind::Deliver);
        }
        handled
    }

    fn rest<R: Wait + Clock>(&self, rt: &R, most: Duration) {
        self.signals.wait(rt, self.server, most);
    }

    fn note_owed<R: Wait>(&self, rt: &R, from: u64) {
        self.shared.note_owed(rt, from);
    }

    fn signal(&self, to: ServerId) {
        self.signals.signal(to);
    }
}
