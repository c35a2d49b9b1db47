//! A client that is served, and a cluster at which a chain begins.
ghost use Rattle.lynx_codec.specs.Ranges.{IsAnswerInRange};

use crate::servers::begun;
use crate::tried::{Called, Tried, done_if, ended, made_again};
use crate::values::SEED_ENCODING;
use lynx_cluster::{CloseFault, Closed, Cluster, Frontend, Gate, OpenGate, Session};
use lynx_codec::Looked;
use lynx_entry::{Answer, Request};
use lynx_fixtures::made::request;
use lynx_fixtures::parts::RequestParts;
use lynx_fixtures::payments::SEED;
use lynx_fixtures::texts::{PAYMENT, set_of};
use lynx_keep::{BatchKeeper, MemoryKeeper};
use lynx_names::{ChainId, Memory};
use lynx_port::{Desk, PortFault, serve};
use lynx_world::empty_keepers;
use std::alloc::{AllocFailed, Global};
use std::io;
use std::sync::Wait;
use std::thread::Threads;
use std::time::Clock;

/// A call that is made for a client.
#[derive(Clone, Copy)]
pub enum ServiceCall {
    /// A client that asks once is served.
    Serve,
    /// A chain begins at a cluster.
    Begin,
    /// Two chains begin at a cluster, together.
    BeginTogether,
}

/// A desk that answers that the server stopped, and counts.
#[derive(Clone, Copy)]
struct Stopped {
    asked: u32,
}

impl Desk for Stopped {
    ghost begins = { λ _ _ _ _. Unit {0} };

    ghost looks = { λ _ _ _ _ _. Unit {0} };

    fn begin(&mut self, _request: Request) -> Answer {
        self.asked = self.asked.saturating_add(1);
        Answer::Stopped
    }

    fn look(&mut self, _chain: ChainId, _hop: u8) -> Result<Looked, Memory> {
        self.asked = self.asked.saturating_add(1);
        Ok(Looked::Absent)
    }

    fn shut(&mut self) {}
}

/// Serves a client that asks once. Where memory was wanting, whether the desk wasn't asked.
fn serve_one(alloc: Global) -> (Called, bool) {
    let mut desk = Stopped { asked: 0 };
    let mut asked = SEED_ENCODING;
    match serve(alloc, &mut asked, &mut io::sink(), &mut desk) {
        Ok(served) if served.answers == 1 && desk.asked == 1 => (Called::Done, true),
        Err(PortFault::Memory) => (Called::Refused, desk.asked == 0),
        _ => (Called::Other, true),
    }
}

fn try_serve(alloc: Global) -> Tried {
    match serve_one(alloc) {
        (Called::Refused, is_unasked) => made_again(is_unasked, serve_one(alloc).0),
        (answered, _) => ended(answered),
    }
}

/// The seed begins at the cluster.
fn begin<R: Wait + Clock, K: BatchKeeper, G: Gate>(
    rt: &R,
    alloc: Global,
    frontend: &Frontend<K, G>,
    session: &mut Session,
) -> Result<Called, Memory> {
    let asked = request(alloc, SEED)?;
    Ok(begun(frontend.begin(rt, alloc, session, asked)))
}

/// Two seeds, under different numbers.
fn seeds(alloc: Global) -> Result<Vec<Request>, Memory> {
    let mut requests = Vec::with_capacity(alloc, 2)?;
    for number in 1..3 {
        requests.push(request(alloc, RequestParts { number, ..SEED })?)?;
    }
    Ok(requests)
}

/// What begins together were answered, of which one may have begun before.
fn all_begun(answers: &[Answer]) -> Called {
    let mut called = done_if(answers.len() == 2);
    for answer in answers {
        match answer {
            Answer::Begun { .. } => {}
            Answer::Memory => called = Called::Refused,
            _ => return Called::Other,
        }
    }
    called
}

/// The seeds begin at the cluster together.
fn begin_together<R: Wait + Clock, K: BatchKeeper, G: Gate>(
    rt: &R,
    alloc: Global,
    frontend: &Frontend<K, G>,
    session: &mut Session,
) -> Result<Called, Memory> {
    let requests = seeds(alloc)?;
    let mut answers = Vec::with_capacity(alloc, requests.len())?;
    frontend.begin_all(rt, alloc, session, requests, &mut answers);
    Ok(all_begun(answers.as_slice()))
}

/// The seeds begin, and again where memory was wanting to one of them.
fn begin_together_again<R: Wait + Clock, K: BatchKeeper, G: Gate>(
    rt: &R,
    alloc: Global,
    frontend: &Frontend<K, G>,
    session: &mut Session,
) -> Result<Tried, Memory> {
    match begin_together(rt, alloc, frontend, session)? {
        Called::Refused => {
            let is_partly = session.told().len() < 2;
            Ok(made_again(is_partly, begin_together(rt, alloc, frontend, session)?))
        }
        answered => Ok(ended(answered)),
    }
}

/// The seed begins, and again where memory was wanting to it.
fn begin_again<R: Wait + Clock, K: BatchKeeper, G: Gate>(
    rt: &R,
    alloc: Global,
    frontend: &Frontend<K, G>,
    session: &mut Session,
) -> Result<Tried, Memory> {
    match begin(rt, alloc, frontend, session)? {
        Called::Refused => {
            let is_as_before = session.told().is_empty();
            Ok(made_again(is_as_before, begin(rt, alloc, frontend, session)?))
        }
        answered => Ok(ended(answered)),
    }
}

/// A cluster in memory that did nothing yet.
fn start<R: Threads + Wait + Clock + Copy + Send + 'static>(
    rt: R,
    alloc: Global,
) -> Result<Cluster<MemoryKeeper, OpenGate>, Memory> {
    let set = set_of(alloc, PAYMENT)?;
    let keepers = empty_keepers(alloc, &set)?;
    match Cluster::start(rt, alloc, &set, keepers, OpenGate) {
        Ok(cluster) => Ok(cluster),
        Err(_) => Err(Memory),
    }
}

/// Puts the session in the list of those that are handed in. For want of memory it is abandoned,
/// and the close fails.
fn hand_in(sessions: &mut Vec<Session>, session: Session) {
    if let Err(AllocFailed { value }) = sessions.push(session) {
        value.abandon();
    }
}

/// How many entries the world of a closed cluster has.
fn entries_of(closed: Result<Closed<MemoryKeeper>, CloseFault>) -> Result<usize, Memory> {
    match closed {
        Ok(closed) => Ok(closed.world.len()),
        Err(_) => Err(Memory),
    }
}

/// A session begins the seed, or two, at a cluster in memory, which is closed then: its audit is
/// what says that nothing else began.
fn try_begin<R: Threads + Wait + Clock + Copy + Send + 'static>(
    rt: R,
    alloc: Global,
    are_two: bool,
) -> Result<Tried, Memory> {
    let cluster = start(rt, alloc)?;
    let mut sessions = Vec::new(alloc);
    let mut tried = Err(Memory);
    if let Some(mut session) = cluster.session(&rt, alloc) {
        let frontend = cluster.frontend();
        tried = if are_two {
            begin_together_again(&rt, alloc, frontend, &mut session)
        } else {
            begin_again(&rt, alloc, frontend, &mut session)
        };
        hand_in(&mut sessions, session);
    }
    let entries = entries_of(cluster.close(&rt, alloc, sessions))?;
    match tried? {
        _ if entries != if are_two { 2 } else { 1 } => Ok(Tried::Changed),
        tried => Ok(tried),
    }
}

/// Makes it, and again where memory was wanting to it.
pub fn try_service<R: Threads + Wait + Clock + Copy + Send + 'static>(
    rt: R,
    alloc: Global,
    call: ServiceCall,
) -> Result<Tried, Memory> {
    match call {
        ServiceCall::Serve => Ok(try_serve(alloc)),
        ServiceCall::Begin => try_begin(rt, alloc, false),
        ServiceCall::BeginTogether => try_begin(rt, alloc, true),
    }
}
