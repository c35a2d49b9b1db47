//! Those who call servers.
use crate::luck::Luck;
use lynx_entry::{Answer, Request};
use lynx_fixtures::made::{program, values};
use lynx_names::{ChainId, ClientId, Memory, ServerId, Stamp};
use lynx_weave::ToldItem;
use std::alloc::Global;

/// How many programs the set has, and how many of them bring an amount into it: the first ones.
pub const PROGRAMS: u64 = 11;

const BRINGING: u8 = 3;

/// What a caller asks: that program of some amount.
#[derive(Clone, Copy, Debug)]
struct Asked {
    number: u64,
    program: u8,
    amount: u64,
}

/// A client: what it asked last, and all that it was told.
#[derive(Debug, Drop)]
pub struct Caller {
    client: u64,
    asked: Asked,
    /// It doesn't know yet what became of what it asked last.
    is_waiting: bool,
    greatest: Stamp,
    told: Vec<ToldItem>,
    begun: usize,
    brought: u64,
}

/// The later of two stamps.
fn later(left: Stamp, right: Stamp) -> Stamp {
    if left < right { right } else { left }
}

/// The stamp of what a server did for it, or had done. None where it did nothing.
fn stamp_of(answer: &Answer) -> Option<Stamp> {
    match answer {
        Answer::Begun { stamp, .. } | Answer::Refused { stamp, .. } => Some(*stamp),
        _ => None,
    }
}

impl Caller {
    /// A caller that asked nothing.
    pub fn new(alloc: Global, client: u64) -> Caller {
        Caller {
            client,
            asked: Asked {
                number: 0,
                program: 0,
                amount: 0,
            },
            is_waiting: false,
            greatest: Stamp::zero(),
            told: Vec::new(alloc),
            begun: 0,
            brought: 0,
        }
    }

    pub fn is_waiting(&self) -> bool {
        self.is_waiting
    }

    /// The greatest stamp that it was told.
    pub fn greatest(&self) -> Stamp {
        self.greatest
    }

    /// How many of its requests began a chain.
    pub fn begun(&self) -> usize {
        self.begun
    }

    /// How much those brought into the set.
    pub fn brought(&self) -> u64 {
        self.brought
    }

    pub fn into_told(self) -> Vec<ToldItem> {
        self.told
    }

    /// Chooses what to ask next: the same again, or something else where it knows what became of
    /// that.
    pub fn choose(&mut self, luck: &mut Luck) {
        if self.is_waiting || (self.asked.number > 0 && luck.once_in(6)) {
            return;
        }
        let program = u8::try_from(luck.below(PROGRAMS)).unwrap_or(0);
        let amount = if program < BRINGING {
            luck.below(100)
        } else {
            luck.below(30)
        };
        self.asked = Asked {
            number: self.asked.number.saturating_add(1),
            program,
            amount,
        };
        self.is_waiting = true;
    }

    /// What it asks.
    pub fn request(&self, alloc: Global) -> Result<Request, Memory> {
        Ok(Request {
            client: ClientId::new(self.client),
            number: self.asked.number,
            program: program(self.asked.program)?,
            args: values(alloc, &[self.asked.amount])?,
        })
    }

    /// Counts what it asked, once it knows what became of it.
    fn count(&mut self, answer: &Answer) {
        if !self.is_waiting {
            return;
        }
        self.is_waiting = false;
        if matches!(answer, Answer::Begun { .. }) {
            self.begun = self.begun.saturating_add(1);
            if self.asked.program < BRINGING {
                self.brought = self.brought.saturating_add(self.asked.amount);
            }
        }
    }

    /// Notes what the server answered, unless it did nothing.
    pub fn hear(&mut self, alloc: Global, server: ServerId, answer: Answer) -> Result<(), Memory> {
        let Some(stamp) = stamp_of(&answer) else {
            return Ok(());
        };
        self.count(&answer);
        self.greatest = later(self.greatest, stamp);
        let request = self.request(alloc)?;
        self.told.push(ToldItem::Answered {
            server,
            request,
            answer,
        })?;
        Ok(())
    }

    /// Notes what it saw of a hop at the server.
    pub fn see(
        &mut self,
        alloc: Global,
        server: ServerId,
        chain: &ChainId,
        hop: u8,
        seen: (Stamp, &[u64]),
    ) -> Result<(), Memory> {
        let (stamp, results) = seen;
        self.greatest = later(self.greatest, stamp);
        let results = values(alloc, results)?;
        self.told.push(ToldItem::Seen {
            server,
            chain: *chain,
            hop,
            stamp,
            results,
        })?;
        Ok(())
    }
}
