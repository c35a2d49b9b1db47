ghost use Rattle.std.specs.Prelude.{◌≡◌};
ghost use Rattle.lynx_entry.specs.Answers.{is_undelivered, is_unserved, results_of, with_results};

use crate::message::Message;
use lynx_names::{ChainId, Memory, Stamp, TryCopy, Values};
use std::alloc::Global;

/// What a begin is answered.
#[derive(Debug, PartialEq, Eq, Drop)]
pub enum Answer {
    /// The chain began; its hop 0 gave these results. `again`: it began earlier, by this very
    /// request.
    Begun {
        chain: ChainId,
        stamp: Stamp,
        results: Values,
        again: bool,
    },
    /// The client used this number for another request.
    Clash,
    /// The set has no program of that number.
    UnknownProgram,
    /// Another server is the program's origin.
    WrongOrigin,
    /// The program has another count of parameters.
    ArgCount,
    /// An argument isn't in its parameter's range.
    OutsideRange,
    /// A key parameter's cell isn't at its hop's server.
    WrongShard,
    /// The server's history has all the entries, or all the stamps, that it may have.
    Full,
    /// A chain begun here has still to return here.
    Busy,
    /// The first hop refused: this need, counted from 0, wasn't met. `again`: it refused earlier.
    Refused {
        need: u8,
        stamp: Stamp,
        again: bool,
    },
    /// The store failed, and the server answers nothing until it is reopened.
    Stopped,
    /// Want of memory. Nothing has changed.
    Memory,
}

impl Answer {
    /// Whether the request was not served for want of memory.
    pub fn is_unserved(&self) -> bool
        ensures { result ≡ is_unserved self.now }
    {
        matches!(self, Answer::Memory)
    }
}

impl Answer {
    /// The results that it tells, none where no chain began.
    pub(crate) fn results(&self) -> &[u64]
        ensures { result.now ≡ results_of self.now }
    {
        match self {
            Answer::Begun { results, .. } => results.as_slice(),
            _ => &[],
        }
    }

    /// The same answer with these results, where a chain began.
    pub(crate) fn with_results(&self, results: Values) -> Answer
        ensures { result ≡ with_results self.now results }
    {
        match self {
            Answer::Begun {
                chain,
                stamp,
                results: _,
                again,
            } => Answer::Begun {
                chain: *chain,
                stamp: *stamp,
                results,
                again: *again,
            },
            Answer::Refused { need, stamp, again } => Answer::Refused {
                need: *need,
                stamp: *stamp,
                again: *again,
            },
            Answer::Clash => Answer::Clash,
            Answer::UnknownProgram => Answer::UnknownProgram,
            Answer::WrongOrigin => Answer::WrongOrigin,
            Answer::ArgCount => Answer::ArgCount,
            Answer::OutsideRange => Answer::OutsideRange,
            Answer::WrongShard => Answer::WrongShard,
            Answer::Full => Answer::Full,
            Answer::Busy => Answer::Busy,
            Answer::Stopped => Answer::Stopped,
            Answer::Memory => Answer::Memory,
        }
    }
}

impl TryCopy for Answer {
    #[tactic(auto, using(crate::proofs::OwnResults::own_results))]
    fn copy(&self, alloc: Global) -> Result<Answer, Memory> {
        let results = Values::from_vec(Vec::from_slice(alloc, self.results())?);
        Ok(self.with_results(results))
    }
}

/// What a delivery is answered.
#[derive(Debug, PartialEq, Eq, Drop)]
pub enum Delivered {
    /// The hop ran now. `next` is the message that it sends; a last hop sends none.
    Done {
        stamp: Stamp,
        results: Values,
        next: Option<Message>,
    },
    /// The hop ran before, on this very message.
    Repeat {
        stamp: Stamp,
        results: Values,
        next: Option<Message>,
    },
    /// It is not this hop's turn; the message is held.
    Held,
    /// It is not this hop's turn, and there is no room to hold the message; it may be delivered
    /// again.
    Dropped,
    /// Nobody of this set can have sent it.
    Malformed,
    /// The server's history has all the entries, or all the stamps, that it may have.
    Full,
    /// The store failed, and the server answers nothing until it is reopened.
    Stopped,
    /// Want of memory. Nothing has changed.
    Memory,
}

impl Delivered {
    /// Whether the message was not delivered for want of memory.
    pub fn is_undelivered(&self) -> bool
        ensures { result ≡ is_undelivered self.now }
    {
        matches!(self, Delivered::Memory)
    }
}
