//! What is counted of a running service, by server: what begins were answered, what deliveries came
//! to, how long steps took that kept an entry, and what is needed to tell how many hops are owed.
use crate::log::Log;
use lynx_cluster::{Gate, StepKind};
use lynx_entry::{Answer, Delivered, Entry};
use lynx_keep::{Cause, Keeper};
use lynx_names::limits::MAX_PROGRAMS;
use lynx_names::{Memory, ProgramId, ServerId};
use lynx_server::Server;
use lynx_set::ChainSet;
use lynx_status::{Begins, CommitTimes, Deliveries};
use std::alloc::Global;
use std::sync::{Mutex, Wait};
use std::time::{Clock, Instant};

const PROGRAMS: usize = MAX_PROGRAMS as usize;

/// What is counted of one server. All but the chains and the hops is of this service alone.
#[derive(Clone, Copy)]
pub(crate) struct Counts {
    pub(crate) begins: Begins,
    pub(crate) deliveries: Deliveries,
    pub(crate) commits: CommitTimes,
    /// Chains that began here, by their program: of all the history.
    begun: [u64; PROGRAMS],
    /// Later hops that ran here: of all the history.
    hops: u64,
    /// Its store failed.
    has_stopped: bool,
}

/// One more.
fn count(counter: &mut u64) {
    *counter = counter.saturating_add(1);
}

impl Counts {
    /// Of a server that goes on after that history.
    fn of(history: &[Entry]) -> Counts {
        let mut counts = Counts {
            begins: Begins::new(),
            deliveries: Deliveries::new(),
            commits: CommitTimes::new(),
            begun: [0; PROGRAMS],
            hops: 0,
            has_stopped: false,
        };
        for entry in history {
            match entry {
                Entry::Begun(begun) => counts.count_chain(begun.request.program),
                Entry::Refused(_) => {}
                Entry::Hop(_) => count(&mut counts.hops),
            }
        }
        counts
    }

    /// One more chain of that program began.
    fn count_chain(&mut self, program: ProgramId) {
        if let Some(counter) = self.begun.get_mut(program.index()) {
            count(counter);
        }
    }

    /// A step that kept an entry is settled, which took so many microseconds.
    fn end_step(&mut self, micros: Option<u64>) {
        if let Some(micros) = micros {
            self.commits.count(micros);
        }
    }

    /// The server answered that it stopped. Whether that is new.
    fn note_stop(&mut self) -> bool {
        let is_new = !self.has_stopped;
        self.has_stopped = true;
        is_new
    }

    /// A begin of that program was answered so.
    fn note_answer(&mut self, program: ProgramId, answer: &Answer, micros: Option<u64>) {
        self.begins.count(answer);
        let has_begun = matches!(answer, Answer::Begun { again: false, .. });
        if has_begun {
            self.count_chain(program);
        }
        let has_refused = matches!(answer, Answer::Refused { again: false, .. });
        if has_begun || has_refused {
            self.end_step(micros);
        }
    }

    /// A delivery came to that.
    fn note_delivery(&mut self, delivered: &Delivered, micros: Option<u64>) {
        self.deliveries.count(delivered);
        if matches!(delivered, Delivered::Done { .. }) {
            count(&mut self.hops);
            self.end_step(micros);
        }
    }

    /// How many later hops of the chains that began here are for that server.
    fn sent_to(&self, set: &ChainSet, server: ServerId) -> u64 {
        let mut sent: u64 = 0;
        for number in 0..MAX_PROGRAMS {
            let Some(program) = ProgramId::new(number) else {
                break;
            };
            let later = set.hops(program).iter().skip(1);
            let here = later.filter(|hop| hop.server == server).count() as u64;
            let begun = self.begun[usize::from(number)];
            sent = sent.saturating_add(begun.saturating_mul(here));
        }
        sent
    }
}

/// The counts of all servers. It is what a cluster tells of its steps, so that each is counted
/// under its server's lock.
#[derive(Drop)]
pub(crate) struct Metrics<R> {
    rt: R,
    log: Log,
    servers: Vec<Mutex<Counts>>,
}

impl<R: Wait + Clock + Copy> Metrics<R> {
    /// Of servers that go on after their histories, which are gone over once.
    pub(crate) fn of<K: Keeper>(
        rt: R,
        alloc: Global,
        log: &Log,
        opened: &[Server<K>],
    ) -> Result<Metrics<R>, Memory> {
        let mut servers = Vec::with_capacity(alloc, opened.len())?;
        for server in opened {
            servers.push(Mutex::new(Counts::of(server.history())))?;
        }
        let log = log.share()?;
        Ok(Metrics { rt, log, servers })
    }
}

impl<R: Wait + Clock> Metrics<R> {
    /// The counts of that server now.
    pub(crate) fn counts(&self, server: ServerId) -> Option<Counts> {
        let counts = self.servers.as_slice().get(server.index())?;
        Some(*counts.lock(&self.rt))
    }

    /// Microseconds since then, where a clock can tell.
    fn micros_since(&self, since: Option<Instant>) -> Option<u64> {
        let micros = since?.elapsed(&self.rt).ok()?.as_micros();
        Some(u64::try_from(micros).unwrap_or(u64::MAX))
    }

    /// How many hops are owed to all servers.
    pub(crate) fn all_owed(&self, set: &ChainSet) -> u64 {
        let mut owed: u64 = 0;
        for number in 0..set.servers() {
            owed = owed.saturating_add(self.owed(set, ServerId::at(number)));
        }
        owed
    }

    /// How many hops are owed to that server: those of chains that began, but for those that ran.
    /// Where steps go on meanwhile, one that began just now may be missing.
    pub(crate) fn owed(&self, set: &ChainSet, server: ServerId) -> u64 {
        let ran = match self.counts(server) {
            Some(counts) => counts.hops,
            None => return 0,
        };
        let mut sent: u64 = 0;
        for counts in self.servers.as_slice() {
            sent = sent.saturating_add(counts.lock(&self.rt).sent_to(set, server));
        }
        sent.saturating_sub(ran)
    }
}

impl<R: Wait + Clock> Gate for Metrics<R> {
    fn enter(&self, _server: ServerId, _step: StepKind) {}

    fn leave(&self, _server: ServerId, _step: StepKind) {}

    fn now(&self) -> Option<Instant> {
        Instant::now(&self.rt).ok()
    }

    fn answered(
        &self,
        server: ServerId,
        program: ProgramId,
        answer: &Answer,
        since: Option<Instant>,
    ) {
        let micros = self.micros_since(since);
        let Some(counts) = self.servers.as_slice().get(server.index()) else {
            return;
        };
        let mut counts = counts.lock(&self.rt);
        counts.note_answer(program, answer, micros);
    }

    fn stopped(&self, server: ServerId, cause: Option<Cause>) {
        if let Some(counts) = self.servers.as_slice().get(server.index())
            && counts.lock(&self.rt).note_stop()
        {
            self.log.stopped(server, cause);
        }
    }

    fn delivered(&self, server: ServerId, delivered: &Delivered, since: Option<Instant>) {
        let micros = self.micros_since(since);
        let Some(counts) = self.servers.as_slice().get(server.index()) else {
            return;
        };
        let mut counts = counts.lock(&self.rt);
        counts.note_delivery(delivered, micros);
    }
}
