//! Servers that stand in for a worker's own: one owes messages to the other, and all is marked
//! down.
use lynx_fixtures::made::message;
use lynx_fixtures::parts::MessageParts;
use lynx_link::{Parcel, links};
use lynx_names::{ChainId, Memory, ServerId};
use lynx_worker::{Acknowledgement, Arrived, Due, Handled, Heard, Owed, Steps, Worker};
use std::alloc::Global;
use std::collections::VecDeque;
use std::sync::Wait;
use std::sync::atomic::{AtomicU64, Ordering};
use std::time::Clock;

/// The length of a history.
const LEN: u64 = 64;

/// What a server owes and what came to it. A set of chains is a number that has a bit for each.
#[derive(Drop)]
pub struct Board {
    /// Chains whose messages it owes server 1, each by the entry at the place of its number.
    pub owed: AtomicU64,
    /// Chains whose next message it lets drop.
    pub dropping: AtomicU64,
    /// Chains whose messages it always lets drop.
    pub deaf: AtomicU64,
    /// Chains of server 0 whose messages it holds, to be woken.
    pub held: AtomicU64,
    /// Chains whose hop was done here.
    pub done: AtomicU64,
    /// How many messages came.
    pub came: AtomicU64,
    /// How many acknowledgements came.
    pub acknowledgements: AtomicU64,
}

impl Board {
    /// A server that owes these, and drops, holds and did nothing.
    pub fn owing(chains: u64) -> Board {
        Board {
            owed: AtomicU64::new(chains),
            dropping: AtomicU64::new(0),
            deaf: AtomicU64::new(0),
            held: AtomicU64::new(0),
            done: AtomicU64::new(0),
            came: AtomicU64::new(0),
            acknowledgements: AtomicU64::new(0),
        }
    }
}

/// The bit of a chain.
fn bit(chain: u64) -> u64 {
    match u32::try_from(chain) {
        Ok(shift) => 1u64.checked_shl(shift).unwrap_or(0),
        Err(_) => 0,
    }
}

/// The message of a chain's second hop, and that it is for server 1.
fn due(alloc: Global, place: u64) -> Result<Due, Memory> {
    let parts = MessageParts {
        origin: 0,
        index: place,
        program: 0,
        hop: 1,
        time: 1,
        args: &[],
        numbers: &[],
        results: &[],
    };
    Ok(Due {
        place,
        to: ServerId::new(1).ok_or(Memory)?,
        message: message(alloc, parts)?,
    })
}

/// The steps of a server that stands in.
#[derive(Drop)]
pub struct Fake<'a> {
    board: &'a Board,
}

impl<'a> Fake<'a> {
    /// Adds what is owed from that place on to the list. Where the history ends, if that is all.
    fn collect(&self, alloc: Global, from: u64, most: usize, dues: &mut Vec<Due>) -> Option<u64> {
        let chains = self.board.owed.load(Ordering::SeqCst);
        for place in from..LEN {
            if chains & bit(place) != 0 {
                if dues.len() >= most {
                    return None;
                }
                dues.push(due(alloc, place).ok()?).ok()?;
            }
        }
        Some(LEN)
    }

    /// A message of that chain came. Whether its hop was done.
    fn deliver(&self, index: u64) -> bool {
        let chain = bit(index);
        self.board.came.fetch_add(1, Ordering::SeqCst);
        let dropping = self.board.dropping.fetch_and(!chain, Ordering::SeqCst);
        if (dropping | self.board.deaf.load(Ordering::SeqCst)) & chain != 0 {
            return false;
        }
        self.board.done.fetch_or(chain, Ordering::SeqCst);
        true
    }

    /// What a parcel asks is done.
    fn take(&self, arrived: Arrived, handled: &mut Handled) {
        let from = arrived.from;
        handled.is_busy = true;
        match arrived.parcel {
            Parcel::Message(message) => {
                let (to, chain, hop) = (from, message.chain, message.hop);
                if self.deliver(chain.index) {
                    let _ = handled
                        .acknowledgements
                        .push(Acknowledgement { to, chain, hop });
                }
            }
            Parcel::Done { chain, hop } => {
                self.board.acknowledgements.fetch_add(1, Ordering::SeqCst);
                if hop == 1 {
                    let (place, left) = (chain.index, !bit(chain.index));
                    self.board.owed.fetch_and(left, Ordering::SeqCst);
                    let _ = handled.heard.push(Heard { from, place });
                }
            }
        }
    }

    /// The chains of server 0 that are held are done.
    fn wake(&self, handled: &mut Handled) {
        let held = self.board.held.swap(0, Ordering::SeqCst);
        for index in 0..LEN {
            if held & bit(index) != 0 {
                self.board.done.fetch_or(bit(index), Ordering::SeqCst);
                let to = ServerId::first();
                let chain = ChainId { origin: to, index };
                let _ = handled
                    .acknowledgements
                    .push(Acknowledgement { to, chain, hop: 1 });
                handled.is_busy = true;
            }
        }
    }
}

impl<'a> Steps for Fake<'a> {
    fn owed<R: Wait>(&self, _rt: &R, alloc: Global, from: u64, most: usize) -> Owed {
        let mut dues = Vec::new(alloc);
        let end = self.collect(alloc, from, most, &mut dues);
        let holds = self.board.held.load(Ordering::SeqCst) != 0;
        Owed {
            from,
            dues,
            end,
            holds,
        }
    }

    fn owed_at<R: Wait>(&self, _rt: &R, alloc: Global, places: &[u64]) -> Result<Vec<Due>, Memory> {
        let chains = self.board.owed.load(Ordering::SeqCst);
        let mut dues = Vec::new(alloc);
        for place in places {
            if chains & bit(*place) != 0 {
                dues.push(due(alloc, *place)?)?;
            }
        }
        Ok(dues)
    }

    fn serve<R: Wait + Clock>(
        &self,
        _rt: &R,
        alloc: Global,
        inbox: &mut VecDeque<Arrived>,
    ) -> Handled {
        let mut handled = Handled::new(alloc);
        self.wake(&mut handled);
        for _ in 0..inbox.len() {
            if let Some(arrived) = inbox.pop_front() {
                self.take(arrived, &mut handled);
            }
        }
        handled
    }
}

/// The workers of two servers that stand in, joined by links.
pub fn workers<'a>(
    alloc: Global,
    sender: &'a Board,
    receiver: &'a Board,
) -> Result<(Worker<Fake<'a>>, Worker<Fake<'a>>), Memory> {
    let mut ends = links(alloc, 2)?.into_iter();
    let first = ends.next().ok_or(Memory)?;
    let second = ends.next().ok_or(Memory)?;
    Ok((
        Worker::new(alloc, Fake { board: sender }, first, 2)?,
        Worker::new(alloc, Fake { board: receiver }, second, 2)?,
    ))
}
