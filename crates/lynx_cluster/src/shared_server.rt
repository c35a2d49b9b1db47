//! A server behind its lock, and the settlings that those share who take turns at it.
ghost use Rattle.std.specs.Prelude.{◌≡◌, true};
ghost use Rattle.lynx_resting.specs.Resting.{settled_front};

use crate::queue::{Mailbox, Queue, Waiting, Word};
use crate::shown::Shown;
use crate::signals::Signals;
use crate::submission::Submission;
use lynx_keep::BatchKeeper;
use lynx_names::{Memory, ServerId};
use lynx_resting::{Mark, Resting};
use std::alloc::Global;
use std::sync::atomic::{AtomicU64, Ordering};
use std::sync::{Arc, Condvar, CondvarTimeouts, Mutex, MutexGuard, Wait};
use std::time::{Clock, Duration};

/// Entries that wait for a settling, at most: from then on each step settles.
const MOST_WAITING: usize = 256;

/// Entries of a server from the first on of which a message is owed, at most, where another chain
/// begins there at once. Else its worker has to come first.
const MOST_BEHIND: u64 = 512;

/// Milliseconds for which a begin waits until less is owed, at most. For a message that is owed
/// still then, since its server stopped, say, no begin waits again.
const PATIENCE_MILLIS: u64 = 1_000;

/// How often a begin waits until less is owed, and a reader until all is settled, at most.
const MOST_WAITS: u32 = 16;

/// How many steps of a server go into one transaction of its store.
#[derive(Clone, Copy, Debug, PartialEq, Eq)]
pub enum Pace {
    /// One: each step is settled before the next one.
    Each,
    /// Those of all who wait at the server.
    Shared,
}

/// A server behind its lock. Those who wait to begin there have one of them begin for all, so that
/// they share a settling; it leaves that to the worker where that waits for the lock.
#[derive(Drop)]
pub(crate) struct SharedServer<K: BatchKeeper> {
    state: Mutex<Resting<K>>,
    /// Those who wait for it to begin.
    queue: Mutex<Queue>,
    pace: Pace,
    /// How many times a thread asked for the lock to make a step.
    asked: AtomicU64,
    /// How many times a thread got it to make one.
    entered: AtomicU64,
    /// How many begins were made since its worker had it last.
    begins: AtomicU64,
    /// How far nothing was owed when its worker looked last.
    owed_from: AtomicU64,
    /// From where something was owed when a begin waited in vain until less is.
    stuck_at: AtomicU64,
    /// Signalled where less is owed.
    moved: Condvar,
    /// How much is settled, as the last settling left it.
    mark: Mutex<Mark>,
    /// Signalled at each settling.
    settled: Condvar,
    /// What readers have of it.
    pub(crate) shown: Shown,
    /// Held by one who finds no word in its mailbox until it waits, so that it misses none.
    words: Mutex<()>,
    /// Signalled where words were put in mailboxes: once for all of them, since waking threads one
    /// by one takes longer than what they asked.
    told: Condvar,
}

impl<K: BatchKeeper> SharedServer<K> {
    /// Of that server.
    pub(crate) fn new(alloc: Global, state: Resting<K>, pace: Pace) -> SharedServer<K> {
        let mark = state.mark();
        SharedServer {
            state: Mutex::new(state),
            queue: Mutex::new(Queue::new(alloc)),
            pace,
            asked: AtomicU64::new(0),
            entered: AtomicU64::new(0),
            begins: AtomicU64::new(0),
            owed_from: AtomicU64::new(0),
            stuck_at: AtomicU64::new(u64::MAX),
            moved: Condvar::new(),
            mark: Mutex::new(mark),
            settled: Condvar::new(),
            shown: Shown::new(),
            words: Mutex::new(()),
            told: Condvar::new(),
        }
    }

    /// The lock, to make a step. It is given back by [`SharedServer::give_back`], or after a
    /// settling.
    pub(crate) fn enter<R: Wait>(&self, rt: &R) -> MutexGuard<'_, Resting<K>> {
        self.asked.fetch_add(1, Ordering::SeqCst);
        let state = self.state.lock(rt);
        self.entered.fetch_add(1, Ordering::SeqCst);
        state
    }

    /// So much lies behind the first entry of which a message is owed that another chain shouldn't
    /// begin.
    fn is_behind(&self, reached: u64, owed_from: u64) -> bool {
        reached.saturating_sub(owed_from) > MOST_BEHIND
            && self.stuck_at.load(Ordering::SeqCst) != owed_from
    }

    /// Waits until less is owed, for a while.
    fn await_worker<R: Wait + Clock>(&self, rt: &R, owed_from: u64) {
        let patience = Duration::from_millis(PATIENCE_MILLIS);
        let (mark, waited) = self
            .moved
            .wait_timeout_while(rt, self.mark.lock(rt), patience, |_: &mut Mark| {
                self.owed_from.load(Ordering::SeqCst) == owed_from
            });
        drop(mark);
        if waited.timed_out() {
            self.stuck_at.store(owed_from, Ordering::SeqCst);
        }
    }

    /// The lock, to begin a chain: once less is owed where much is, so that later hops keep pace
    /// with begins. The worker of that server, which is signalled, comes meanwhile.
    pub(crate) fn enter_to_begin<R: Wait + Clock>(
        &self,
        rt: &R,
        alloc: Global,
        signals: &Signals,
        server: ServerId,
    ) -> MutexGuard<'_, Resting<K>> {
        for _ in 0..MOST_WAITS {
            let state = self.enter(rt);
            let owed_from = self.owed_from.load(Ordering::SeqCst);
            if !self.is_behind(state.reached() as u64, owed_from) {
                return state;
            }
            self.give_back(rt, alloc, state);
            signals.signal(server);
            self.await_worker(rt, owed_from);
        }
        self.enter(rt)
    }

    /// The worker found that nothing is owed before that place.
    pub(crate) fn note_owed<R: Wait>(&self, rt: &R, from: u64) {
        let mark = self.mark.lock(rt);
        self.owed_from.store(from, Ordering::SeqCst);
        drop(mark);
        self.moved.notify_all();
    }

    /// The lock, to look.
    pub(crate) fn look<R: Wait>(&self, rt: &R) -> MutexGuard<'_, Resting<K>> {
        self.state.lock(rt)
    }

    /// The lock, to read what all steps of the server leave. It waits for the settling of those
    /// that were made, again and again while others make more, and settles them itself at last.
    pub(crate) fn look_settled<R: Wait>(
        &self,
        rt: &R,
        alloc: Global,
    ) -> MutexGuard<'_, Resting<K>> {
        for _ in 0..MOST_WAITS {
            let state = self.look(rt);
            if state.waiting() == 0 || state.is_stopped() {
                return state;
            }
            let reached = state.reached();
            drop(state);
            self.await_settled(rt, reached);
        }
        let mut state = self.look(rt);
        self.settle(rt, alloc, &mut state);
        state
    }

    /// So many begins were made.
    pub(crate) fn note_begins(&self, count: usize) {
        self.begins.fetch_add(count as u64, Ordering::SeqCst);
    }

    /// How many begins were made since this was asked last.
    pub(crate) fn take_begins(&self) -> u64 {
        self.begins.swap(0, Ordering::SeqCst)
    }

    /// Has these requests wait for the server. True where their thread leads.
    pub(crate) fn submit<R: Wait>(
        &self,
        rt: &R,
        submission: Submission,
        mailbox: Arc<Mailbox>,
    ) -> Result<bool, Memory> {
        self.queue.lock(rt).push(Waiting {
            submission,
            mailbox,
        })
    }

    /// All who wait for the server, for the one who leads.
    pub(crate) fn take_waiting<R: Wait>(&self, rt: &R, alloc: Global) -> Vec<Waiting> {
        self.queue.lock(rt).take(alloc)
    }

    /// Has another one lead, if somebody waits. It has to be woken.
    pub(crate) fn pass_lead<R: Wait>(&self, rt: &R) {
        self.queue.lock(rt).pass_lead(rt);
    }

    /// Wakes those who were told something.
    pub(crate) fn wake_told<R: Wait>(&self, rt: &R) {
        drop(self.words.lock(rt));
        self.told.notify_all();
    }

    /// Waits until something is told there.
    pub(crate) fn await_word<R: Wait>(&self, rt: &R, mailbox: &Mailbox) -> Word {
        let mut words = self.words.lock(rt);
        for _ in rt.forever() {
            if let Some(word) = mailbox.take(rt) {
                return word;
            }
            words = self.told.wait(rt, words);
        }
        unreachable!()
    }

    /// Whoever leads has to settle, and let the worker come.
    pub(crate) fn is_turn_over(&self, state: &Resting<K>) -> bool {
        state.waiting() >= if self.is_each() { 1 } else { MOST_WAITING }
    }

    /// Each step is settled by itself.
    pub(crate) fn is_each(&self) -> bool {
        matches!(self.pace, Pace::Each)
    }

    /// Another thread waits for the lock, to make a step.
    fn is_awaited(&self) -> bool {
        self.entered.load(Ordering::SeqCst) < self.asked.load(Ordering::SeqCst)
    }

    /// Settles all that the server did, shows it to readers, and tells those who wait for it.
    pub(crate) fn settle<R: Wait>(&self, rt: &R, alloc: Global, state: &mut Resting<K>) -> bool
        ensures { result ≡ true → settled_front state.new ≡ state.old.here.history }
    {
        let waiting = state.waiting();
        let is_settled = state.settle(alloc);
        self.shown.follow(rt, alloc, state, waiting);
        *self.mark.lock(rt) = state.mark();
        self.settled.notify_all();
        is_settled
    }

    /// Gives the lock back after a step. It settles what waits, unless another thread waits for the
    /// lock: that one settles it with its own step.
    pub(crate) fn give_back<R: Wait>(
        &self,
        rt: &R,
        alloc: Global,
        mut state: MutexGuard<'_, Resting<K>>,
    ) {
        if self.is_each() || !self.is_awaited() || state.waiting() >= MOST_WAITING {
            self.settle(rt, alloc, &mut state);
        }
        drop(state);
    }

    /// Waits until so many entries are settled, or the server stopped.
    pub(crate) fn await_settled<R: Wait>(&self, rt: &R, reached: usize) -> Mark {
        let mut mark = self.mark.lock(rt);
        for _ in rt.forever() {
            if reached <= mark.settled() || mark.is_stopped() {
                return *mark;
            }
            mark = self.settled.wait(rt, mark);
        }
        unreachable!()
    }

    /// The server, out of its lock.
    pub(crate) fn into_state(self) -> Resting<K>
    where
        K: Drop,
    {
        self.state.into_inner()
    }
}
