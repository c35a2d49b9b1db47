//! Which messages are sent again, and when.
use crate::unheard::Unheard;
use std::time::{Clock, Duration, Instant};

/// Milliseconds that go by at least between the beginnings of two passes over all that is owed to a
/// server; more where messages take long until they are acknowledged. While nothing is heard of it
/// they double, up to [`LONGEST_MILLIS`].
pub const RESEND_MILLIS: u64 = 100;

/// Milliseconds that go by at least between the beginnings of two passes over the first that is
/// owed to a server; more where messages take long until they are acknowledged. While the very
/// first stays owed they double, up to [`LONGEST_MILLIS`].
const FIRST_MILLIS: u64 = 8;

/// Milliseconds between the beginnings of two passes, at most.
pub const LONGEST_MILLIS: u64 = 4_000;

/// Messages that a pass over the first sends again, at most.
const FIRST_MESSAGES: usize = 64;

/// How much of what is owed to a server a pass goes over.
#[derive(Clone, Copy, PartialEq, Eq)]
pub(crate) enum ResendScope {
    /// The first messages, and only where the very first is still owed that was so when the last
    /// pass began. Else they come and are acknowledged as they should, and what is sent again would
    /// come twice.
    First,
    /// All messages.
    All,
}

impl ResendScope {
    /// Messages that a pass sends again, at most.
    fn messages(self) -> usize {
        match self {
            ResendScope::First => FIRST_MESSAGES,
            ResendScope::All => usize::MAX,
        }
    }

    /// Milliseconds between two passes, at least.
    fn shortest(self) -> u64 {
        match self {
            ResendScope::First => FIRST_MILLIS,
            ResendScope::All => RESEND_MILLIS,
        }
    }
}

/// The passes over what is owed to one server. A message stays owed until it was acknowledged, so a
/// pass over all comes to it again, and none is lost for ever. What a pass sends again was sent
/// before the last one began.
#[derive(Drop)]
pub(crate) struct Passes {
    scope: ResendScope,
    /// The pass goes on from this place ..
    next: u64,
    /// .. up to this one ..
    end: u64,
    /// .. and sends so many messages more, at most.
    left: usize,
    /// The first that was owed when the last pass began, ..
    first: Option<u64>,
    /// .. and a place behind all that was sent then.
    sent: u64,
    /// When it began.
    since: Option<Instant>,
    /// Milliseconds from then to the next.
    wait: u64,
}

impl Passes {
    /// Nothing was sent yet.
    pub(crate) fn new(scope: ResendScope) -> Passes {
        Passes {
            scope,
            next: 0,
            end: 0,
            left: 0,
            first: None,
            sent: 0,
            since: None,
            wait: scope.shortest(),
        }
    }

    /// A while went by since the last pass began, or no clock can tell.
    fn is_due<R: Clock>(&self, rt: &R) -> bool {
        match self.since {
            None => true,
            Some(since) => match since.elapsed(rt) {
                Ok(elapsed) => elapsed >= Duration::from_millis(self.wait),
                Err(_) => true,
            },
        }
    }

    /// Milliseconds from one pass to the next, at least, where a message is likely lost after so
    /// many.
    fn shortest(&self, patience: u64) -> u64 {
        self.scope.shortest().max(patience)
    }

    /// Begins a pass, if the last one ended, something is owed and it is time. A message is likely
    /// lost after so many milliseconds.
    pub(crate) fn begin<R: Clock>(&mut self, rt: &R, unheard: &Unheard, patience: u64) {
        let Some(first) = unheard.first() else {
            return;
        };
        if self.goes_on() || !self.is_due(rt) {
            return;
        }
        let stays = self.first == Some(first);
        let is_early = self.scope == ResendScope::First && !stays;
        self.left = if is_early { 0 } else { self.scope.messages() };
        self.wait = if is_early {
            self.shortest(patience)
        } else {
            self.wait.saturating_mul(2).min(LONGEST_MILLIS)
        };
        self.next = first;
        self.end = self.sent;
        self.first = Some(first);
        self.sent = unheard.end();
        self.since = Instant::now(rt).ok();
    }

    /// Something was heard of the server, so the next pass over all need not wait long: a message
    /// is likely lost after so many milliseconds.
    pub(crate) fn hear(&mut self, patience: u64) {
        if self.scope == ResendScope::All {
            self.wait = self.shortest(patience);
        }
    }

    /// A pass goes on.
    fn goes_on(&self) -> bool {
        self.left > 0 && self.next < self.end
    }

    /// What the pass comes to next: a place to go on from, one to end before, and how many messages
    /// at most. None where it ended.
    pub(crate) fn next(&self) -> Option<(u64, u64, usize)> {
        if self.goes_on() {
            Some((self.next, self.end, self.left))
        } else {
            None
        }
    }

    /// The pass was gone over up to that place, and so many messages were sent again.
    pub(crate) fn went(&mut self, next: u64, count: usize) {
        self.next = next;
        self.left = self.left.saturating_sub(count);
    }
}
