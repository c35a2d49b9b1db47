use crate::message::Message;
use crate::request::Request;
use lynx_names::{ChainId, Memory, Numbers, Stamp, TryCopy, Values};
use std::alloc::Global;

/// A chain began: its hop 0 ran at its origin.
#[derive(Debug, PartialEq, Eq, Drop)]
pub struct BegunEntry {
    pub request: Request,
    /// The greatest stamp that the client's session was told before it asked.
    pub seen: Stamp,
    pub chain: ChainId,
    pub numbers: Numbers,
    pub stamp: Stamp,
    pub results: Values,
}

/// A first hop refused by its own decision.
#[derive(Debug, PartialEq, Eq, Drop)]
pub struct RefusedEntry {
    pub request: Request,
    /// The greatest stamp that the client's session was told before it asked.
    pub seen: Stamp,
    /// Which need wasn't met, counted from 0 among the needs of the hop.
    pub need: u8,
    pub stamp: Stamp,
}

/// A later hop ran on that message.
#[derive(Debug, PartialEq, Eq, Drop)]
pub struct HopEntry {
    pub message: Message,
    pub stamp: Stamp,
    pub results: Values,
}

/// One entry of a server's history.
#[derive(Debug, PartialEq, Eq, Drop)]
pub enum Entry {
    Begun(BegunEntry),
    Refused(RefusedEntry),
    Hop(HopEntry),
}

impl Entry {
    ghost use Rattle.std.specs.Prelude.{◌≡◌};
    ghost use Rattle.lynx_entry.specs.Entry.{stamp_of};

    pub fn stamp(&self) -> Stamp
        ensures { result ≡ stamp_of self.now }
    {
        match self {
            Entry::Begun(begun) => begun.stamp,
            Entry::Refused(refused) => refused.stamp,
            Entry::Hop(ran) => ran.stamp,
        }
    }
}

impl TryCopy for BegunEntry {
    fn copy(&self, alloc: Global) -> Result<BegunEntry, Memory> {
        Ok(BegunEntry {
            request: self.request.copy(alloc)?,
            seen: self.seen,
            chain: self.chain,
            numbers: self.numbers.copy(alloc)?,
            stamp: self.stamp,
            results: self.results.copy(alloc)?,
        })
    }
}

impl TryCopy for RefusedEntry {
    fn copy(&self, alloc: Global) -> Result<RefusedEntry, Memory> {
        Ok(RefusedEntry {
            request: self.request.copy(alloc)?,
            seen: self.seen,
            need: self.need,
            stamp: self.stamp,
        })
    }
}

impl TryCopy for HopEntry {
    fn copy(&self, alloc: Global) -> Result<HopEntry, Memory> {
        Ok(HopEntry {
            message: self.message.copy(alloc)?,
            stamp: self.stamp,
            results: self.results.copy(alloc)?,
        })
    }
}

impl TryCopy for Entry {
    fn copy(&self, alloc: Global) -> Result<Entry, Memory> {
        match self {
            Entry::Begun(begun) => Ok(Entry::Begun(begun.copy(alloc)?)),
            Entry::Refused(refused) => Ok(Entry::Refused(refused.copy(alloc)?)),
            Entry::Hop(ran) => Ok(Entry::Hop(ran.copy(alloc)?)),
        }
    }
}
