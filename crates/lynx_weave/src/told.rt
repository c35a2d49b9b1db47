//! What a session was told.
ghost use Rattle.std.specs.Prelude.{◌≡◌};
ghost use Rattle.lynx_weave.specs.Told.{is_fresh_answer, stamp_answered};

use lynx_entry::{Answer, Request};
use lynx_names::{ChainId, ServerId, Stamp, Values};

/// One thing that a session was told.
#[derive(Debug, PartialEq, Eq, Drop)]
pub enum ToldItem {
    /// The server's answer to a begin of that request.
    Answered {
        server: ServerId,
        request: Request,
        answer: Answer,
    },
    /// The stamp and the results of that hop of the chain, which the server had.
    Seen {
        server: ServerId,
        chain: ChainId,
        hop: u8,
        stamp: Stamp,
        results: Values,
    },
}

impl ToldItem {
    ghost use Rattle.lynx_weave.specs.Told.{is_fresh, server_told, stamp_told};

    /// The server that it tells of.
    pub fn server(&self) -> ServerId
        ensures { result ≡ server_told self.now }
    {
        match self {
            ToldItem::Answered { server, .. } | ToldItem::Seen { server, .. } => *server,
        }
    }

    /// It answers a begin, and not from the record.
    pub fn is_fresh(&self) -> bool
        ensures { result ≡ is_fresh self.now }
    {
        match self {
            ToldItem::Answered { answer, .. } => is_fresh_answer(answer),
            ToldItem::Seen { .. } => false,
        }
    }

    /// The stamp that it tells, before every entry where it tells none.
    pub fn stamp(&self) -> Stamp
        ensures { result ≡ stamp_told self.now }
    {
        match self {
            ToldItem::Answered { answer, .. } => stamp_answered(answer),
            ToldItem::Seen { stamp, .. } => *stamp,
        }
    }
}

/// The answer tells of what was done for it.
fn is_fresh_answer(answer: &Answer) -> bool
    ensures { result ≡ is_fresh_answer answer.now }
{
    match answer {
        Answer::Begun { again, .. } | Answer::Refused { again, .. } => !*again,
        _ => false,
    }
}

/// The stamp that the answer tells, before every entry where it tells none.
fn stamp_answered(answer: &Answer) -> Stamp
    ensures { result ≡ stamp_answered answer.now }
{
    match answer {
        Answer::Begun { stamp, .. } | Answer::Refused { stamp, .. } => *stamp,
        _ => Stamp::zero(),
    }
}
