//! A connection of a load at a service: it begins chains, and notes how long each took.
use crate::encodings::write;
use crate::fault::Fault;
use crate::texts::seed;
use lynx_codec::{Feed, Item};
use lynx_entry::Answer;
use lynx_names::Memory;
use std::alloc::Global;
use std::collections::VecDeque;
use std::io::{ErrorKind, Read, Write};
use std::sync::Wait;
use std::time::{Clock, Duration, Instant};

/// A connection, and its begins at one server.
#[derive(Drop)]
pub(crate) struct Caller<S> {
    stream: S,
    feed: Feed,
    /// The client's number, which no other connection has.
    client: u64,
    /// The server that it begins at, ..
    server: u8,
    /// .. of so many.
    servers: u8,
    /// How many begins were sent.
    sent: u64,
    /// When each was sent that isn't answered yet, in order.
    waiting: VecDeque<Instant>,
    /// The microseconds of each that was answered.
    times: Vec<u64>,
    /// Why no more are sent before it is time.
    done: Result<(), Fault>,
}

/// The whole microseconds of a time.
pub(crate) fn micros_of(time: Duration) -> u64 {
    let seconds = time.as_secs().saturating_mul(1_000_000);
    seconds.saturating_add(u64::from(time.subsec_micros()))
}

/// Nothing, where the item answers that the chain began now.
fn check_begun(item: Item) -> Result<(), Fault> {
    let is_begun = matches!(&item, Item::Answer(Answer::Begun { again: false, .. }));
    drop(item);
    if is_begun {
        Ok(())
    } else {
        Err(Fault::NotBegun)
    }
}

impl<S: Read + Write + Drop> Caller<S> {
    /// One that has sent nothing yet. It takes no memory.
    pub(crate) fn new(alloc: Global, stream: S, client: u64, server: u8, servers: u8) -> Caller<S> {
        Caller {
            stream,
            feed: Feed::new(alloc),
            client,
            server,
            servers,
            sent: 0,
            waiting: VecDeque::new(alloc),
            times: Vec::new(alloc),
            done: Ok(()),
        }
    }

    /// Adds the encoding of the next begin to the bytes.
    fn put_next<R: Clock>(
        &mut self,
        rt: &R,
        alloc: Global,
        bytes: &mut Vec<u8>,
    ) -> Result<(), Fault> {
        let request = seed(alloc, self.client, self.sent, self.server, self.servers, 1)?;
        write(Item::Request(request), bytes)?;
        self.sent = self.sent.saturating_add(1);
        self.waiting.push_back(Instant::now(rt)?)?;
        Ok(())
    }

    /// Sends so many begins, by one write.
    fn send<R: Clock>(&mut self, rt: &R, alloc: Global, count: usize) -> Result<(), Fault> {
        let mut bytes = Vec::new(alloc);
        for _ in 0..count {
            self.put_next(rt, alloc, &mut bytes)?;
        }
        match self.stream.write_all(bytes.as_slice()) {
            Ok(()) => Ok(()),
            Err(_) => Err(Fault::Lost),
        }
    }

    /// Notes the answers that came whole. How many.
    fn note_answers<R: Clock>(&mut self, rt: &R, alloc: Global) -> Result<usize, Fault> {
        let now = Instant::now(rt)?;
        let mut count: usize = 0;
        for _ in 0..self.waiting.len() {
            match self.feed.next(alloc) {
                Ok(Some(item)) => check_begun(item)?,
                Ok(None) => break,
                Err(_) => return Err(Fault::Lost),
            }
            let Some(since) = self.waiting.pop_front() else {
                break;
            };
            self.times.push(micros_of(now.duration_since(since)))?;
            count = count.saturating_add(1);
        }
        Ok(count)
    }

    /// Reads what came, and notes the answers in it. How many.
    fn take<R: Clock>(&mut self, rt: &R, alloc: Global) -> Result<usize, Fault> {
        let mut buffer = [0u8; 4096];
        match self.stream.read(&mut buffer) {
            Ok(0) => Err(Fault::Lost),
            Ok(count) => {
                self.feed.push(buffer.split_at(count).0)?;
                self.note_answers(rt, alloc)
            }
            Err(error) if error.kind() == ErrorKind::Interrupted => Ok(0),
            Err(_) => Err(Fault::Lost),
        }
    }

    /// Keeps so many begins in flight until that time, and takes the answers to all.
    fn try_call<R: Wait + Clock>(
        &mut self,
        rt: &R,
        alloc: Global,
        in_flight: u16,
        end: Instant,
    ) -> Result<(), Fault> {
        self.send(rt, alloc, usize::from(in_flight))?;
        for _ in rt.forever() {
            if self.waiting.is_empty() {
                break;
            }
            let count = self.take(rt, alloc)?;
            if count > 0 && Instant::now(rt)? < end {
                self.send(rt, alloc, count)?;
            }
        }
        Ok(())
    }

    /// Keeps so many begins in flight until that time, and takes the answers to all, or as many as
    /// come.
    pub(crate) fn call<R: Wait + Clock>(
        &mut self,
        rt: &R,
        alloc: Global,
        in_flight: u16,
        end: Instant,
    ) {
        self.done = self.try_call(rt, alloc, in_flight, end);
    }

    /// The microseconds of each begin, or why one wasn't answered as begun.
    pub(crate) fn into_times(self) -> Result<Vec<u64>, Fault> {
        self.done?;
        Ok(self.times)
    }
}
