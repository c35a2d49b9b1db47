//! How long the messages to one server take until they are acknowledged.
use crate::resending::LONGEST_MILLIS;
use std::time::{Clock, Instant};

/// A message whose time is taken.
#[derive(Clone, Copy)]
struct Timed {
    /// The place of the entry that sends it.
    place: u64,
    /// When it was sent.
    since: Instant,
}

/// Times from a message's sending to its acknowledgement, of one message after another: a mean that
/// moves slowly, and how far from it the times lie, as RFC 6298 has them of TCP's segments. No
/// clause rests on it: it tells how long to wait before a message is sent again.
#[derive(Drop)]
pub(crate) struct RoundTrips {
    timed: Option<Timed>,
    /// In microseconds; 0 before the first.
    mean: u64,
    /// In microseconds.
    spread: u64,
}

impl RoundTrips {
    /// No time was taken yet.
    pub(crate) fn new() -> RoundTrips {
        RoundTrips {
            timed: None,
            mean: 0,
            spread: 0,
        }
    }

    /// The message of that place was sent for the first time: its time is taken, if no other's is.
    pub(crate) fn went<R: Clock>(&mut self, rt: &R, place: u64) {
        if self.timed.is_some() {
            return;
        }
        if let Ok(since) = Instant::now(rt) {
            self.timed = Some(Timed { place, since });
        }
    }

    /// The message of that place was acknowledged.
    pub(crate) fn hear<R: Clock>(&mut self, rt: &R, place: u64) {
        let Some(timed) = self.timed else {
            return;
        };
        if timed.place != place {
            return;
        }
        self.timed = None;
        if let Ok(elapsed) = timed.since.elapsed(rt) {
            self.note(u64::try_from(elapsed.as_micros()).unwrap_or(u64::MAX));
        }
    }

    /// The message of that place tells no time: it was sent again, and either may be acknowledged,
    /// or nobody told of it.
    pub(crate) fn forget(&mut self, place: u64) {
        if let Some(timed) = self.timed
            && timed.place == place
        {
            self.timed = None;
        }
    }

    /// Notes a time: an eighth of it goes into the mean, and a quarter of how far it lies from that
    /// into the spread.
    fn note(&mut self, micros: u64) {
        if self.mean == 0 {
            self.mean = micros;
            self.spread = micros / 2;
            return;
        }
        let apart = self.mean.abs_diff(micros);
        self.spread = (self.spread - self.spread / 4).saturating_add(apart / 4);
        self.mean = (self.mean - self.mean / 8).saturating_add(micros / 8);
    }

    /// The milliseconds after which a message that wasn't acknowledged is likely lost.
    pub(crate) fn patience(&self) -> u64 {
        let micros = self.mean.saturating_add(self.spread.saturating_mul(4));
        micros.div_ceil(1_000).min(LONGEST_MILLIS)
    }
}
