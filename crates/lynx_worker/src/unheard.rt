//! What was sent to one server, and of what nothing was heard.
ghost use Rattle.std.specs.Prelude.{◌≡◌, ◌<◌, OnOk};
ghost use Rattle.std.specs.VecDeque.{deque_capacity, deque_len};
ghost use Rattle.lynx_worker.specs.Unheard.{IsUnheard, StayUnheard, StayUnheardBut};

use std::alloc::{AllocError, Global};
use std::collections::VecDeque;

/// A message that was sent.
#[derive(Clone, Copy)]
pub(crate) struct Sent {
    /// The place of the entry that sends it.
    place: u64,
    /// It was acknowledged.
    is_heard: bool,
}

/// The messages that were sent to one server, from the first one on that wasn't acknowledged.
#[derive(Drop)]
pub(crate) struct Unheard {
    /// In the order of the history.
    sent: VecDeque<Sent>,
}

impl Unheard {
    /// Nothing was sent.
    pub(crate) fn new(alloc: Global) -> Unheard {
        Unheard {
            sent: VecDeque::new(alloc),
        }
    }

    /// Makes room for one message more.
    pub(crate) fn reserve(&mut self) -> Result<(), AllocError>
        ensures room { OnOk result (deque_len self.new.sent < deque_capacity self.new.sent) }
        ensures same { self.new.sent.items ≡ self.old.sent.items }
    {
        self.sent.reserve(1)
    }

    /// The message of that place was sent, which is behind those before. Takes no memory.
    pub(crate) fn went(&mut self, place: u64)
        requires { deque_len self.old.sent < deque_capacity self.old.sent }
        ensures noted { IsUnheard self.new.sent.items place }
        ensures stay { StayUnheard self.old.sent.items self.new.sent.items }
    {
        self.sent.push_back_reserved(Sent {
            place,
            is_heard: false,
        });
    }

    /// The message of that place was acknowledged. A search by halves.
    pub(crate) fn hear(&mut self, place: u64)
        ensures stay { StayUnheardBut place self.old.sent.items self.new.sent.items }
        ensures none_new { StayUnheard self.new.sent.items self.old.sent.items }
    {
        let index = self.sent.partition_point(|sent| sent.place < place);
        self.mark(index, place);
        self.forget_first();
    }

    /// Marks the message at that index as acknowledged, if it is of that place.
    fn mark(&mut self, index: usize, place: u64)
        ensures stay { StayUnheardBut place self.old.sent.items self.new.sent.items }
        ensures none_new { StayUnheard self.new.sent.items self.old.sent.items }
    {
        if let Some(sent) = self.sent.get_mut(index) {
            if sent.place == place {
                sent.is_heard = true;
            }
        }
    }

    /// Forgets the first messages that were acknowledged.
    fn forget_first(&mut self)
        ensures stay { StayUnheard self.old.sent.items self.new.sent.items }
        ensures none_new { StayUnheard self.new.sent.items self.old.sent.items }
    {
        for _ in 0..self.sent.len() {
            match self.sent.front() {
                Some(sent) if sent.is_heard => {}
                _ => break,
            }
            let _ = self.sent.pop_front();
        }
    }

    /// The place of the first message of which nothing was heard.
    pub(crate) fn first(&self) -> Option<u64> {
        match self.sent.front() {
            Some(sent) => Some(sent.place),
            None => None,
        }
    }

    /// A place behind those of all messages that were sent.
    pub(crate) fn end(&self) -> u64 {
        match self.sent.back() {
            Some(sent) => sent.place.saturating_add(1),
            None => 0,
        }
    }

    /// The places from one on and before another of which nothing was heard, so many at most.
    pub(crate) fn between(
        &self,
        alloc: Global,
        from: u64,
        end: u64,
        most: usize,
    ) -> Result<Vec<u64>, AllocError> {
        let mut places = Vec::with_capacity(alloc, most)?;
        let start = self.sent.partition_point(|sent| sent.place < from);
        for index in start..self.sent.len() {
            let Some(sent) = self.sent.get(index) else {
                break;
            };
            if sent.place >= end || places.len() >= most {
                break;
            }
            if !sent.is_heard {
                places.push(sent.place)?;
            }
        }
        Ok(places)
    }
}
