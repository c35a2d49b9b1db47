//! A desk of one chain.
ghost use Rattle.lynx_codec.specs.Ranges.{IsAnswerInRange, IsLookedInRange};

use lynx_codec::Looked;
use lynx_entry::{Answer, Request};
use lynx_names::{ChainId, Memory, ServerId, Stamp, Values};
use lynx_port::Desk;
use std::alloc::Global;

/// Begins the first chain that it is asked for, as 0:0 with stamp 1 and no results, and no other.
#[derive(Drop)]
pub struct OneChain {
    alloc: Global,
    first: Option<Request>,
    /// Whether memory is wanting to it.
    lacks: bool,
    /// How often it was asked.
    pub asked: u32,
}

impl OneChain {
    pub fn new(alloc: Global, lacks: bool) -> OneChain {
        OneChain {
            alloc,
            first: None,
            lacks,
            asked: 0,
        }
    }
}

fn begun(alloc: Global, again: bool) -> Answer
    ensures { IsAnswerInRange result }
{
    match Stamp::new(1) {
        None => Answer::Stopped,
        Some(stamp) => Answer::Begun {
            chain: ChainId {
                origin: ServerId::first(),
                index: 0,
            },
            stamp,
            results: Values::new(alloc),
            again,
        },
    }
}

fn found(alloc: Global) -> Looked
    ensures { IsLookedInRange result }
{
    match Stamp::new(1) {
        None => Looked::Absent,
        Some(stamp) => Looked::Found {
            stamp,
            results: Values::new(alloc),
        },
    }
}

impl Desk for OneChain {
    ghost begins = { λ _ _ _ _. Unit {0} };

    ghost looks = { λ _ _ _ _ _. Unit {0} };

    fn begin(&mut self, request: Request) -> Answer {
        self.asked = self.asked.saturating_add(1);
        if self.lacks {
            return Answer::Memory;
        }
        match &self.first {
            Some(first) if *first == request => begun(self.alloc, true),
            Some(_) => Answer::Clash,
            None => {
                self.first = Some(request);
                begun(self.alloc, false)
            }
        }
    }

    fn look(&mut self, chain: ChainId, hop: u8) -> Result<Looked, Memory> {
        self.asked = self.asked.saturating_add(1);
        if self.lacks {
            return Err(Memory);
        }
        if self.first.is_some() && chain.index == 0 && hop == 0 {
            Ok(found(self.alloc))
        } else {
            Ok(Looked::Absent)
        }
    }

    fn shut(&mut self) {}
}
