//! What a worker sends to one server.
ghost use Rattle.std.specs.Prelude.{◌≡◌, IfSome, MatchBool, None, Some, take, true, unwrap_or};
ghost use Rattle.lynx_worker.specs.Sending.{CatchesUp, SendsAll, SendsNothing, SendsTo};
ghost use Rattle.lynx_worker.specs.Unheard.{HearsAbsent, IsUnheard, StayUnheard, StayUnheardBut, has_place};

use crate::resending::{Passes, ResendScope};
use crate::round_trips::RoundTrips;
use crate::steps::{Due, Owed, Steps};
use crate::unheard::Unheard;
use lynx_link::{Ends, Parcel};
use lynx_names::ServerId;
use std::alloc::Global;
use std::sync::Wait;
use std::time::Clock;

/// Messages that are sent again under one lock, at most.
const BURST: usize = 64;

/// What was sent to one server and isn't acknowledged, and how long that takes.
#[derive(Drop)]
struct Flight {
    unheard: Unheard,
    round_trips: RoundTrips,
}

/// What a worker sends to one server: how far it has come, and what it hasn't heard of.
#[derive(Drop)]
pub(crate) struct Route {
    to: ServerId,
    /// The first message to this server that wasn't sent, where its ring was full while others were
    /// sent on. None where the route is as far as the worker.
    lags_at: Option<u64>,
    flight: Flight,
    /// The passes over the first messages that are owed to this server.
    first: Passes,
    /// The passes over all of them.
    all: Passes,
}

/// Whether the ring to that server took the parcel. One that it didn't take is dropped.
pub(crate) fn offer(ends: &mut Ends, to: ServerId, parcel: Parcel) -> bool
    ensures { MatchBool result (SendsTo ends.old to parcel ends.new)
        (SendsNothing ends.old ends.new) }
{
    match ends.sender(to) {
        Some(sender) => sender.offer(parcel).is_ok(),
        None => false,
    }
}

/// The ring to that server has no room, or there is none.
fn is_full(ends: &mut Ends, to: ServerId) -> bool {
    match ends.sender(to) {
        Some(sender) => sender.is_full(),
        None => true,
    }
}

/// Sends a message again, to its server. Whether it was sent.
fn send_due(ends: &mut Ends, due: Due) -> bool
    ensures { MatchBool result (SendsTo ends.old due.to (Parcel.Message due.message) ends.new)
        (SendsNothing ends.old ends.new) }
{
    offer(ends, due.to, Parcel::Message(due.message))
}

/// One of the messages is of that place.
fn has_place(dues: &[Due], place: u64) -> bool
    ensures { result ≡ has_place dues.now place }
{
    dues.iter().any(|due| due.place == place)
}

impl Flight {
    /// Those of the places that owe nothing any more were acknowledged, though nobody told.
    fn hear_absent(&mut self, places: &[u64], dues: &[Due])
        // What still owes a message stays unheard.
        ensures { HearsAbsent dues.now self.old.unheard.sent.items self.new.unheard.sent.items }
    {
        if dues.len() >= places.len() {
            return;
        }
        for place in places {
            if !has_place(dues, *place) {
                self.unheard.hear(*place);
                self.round_trips.forget(*place);
            }
        }
    }

    /// Sends messages again that a pass came to. How far it is gone over then, and how many were
    /// sent.
    fn offer_again(&mut self, ends: &mut Ends, dues: Vec<Due>, end: u64) -> (u64, usize)
        // Just so many of them, from the first on, each to its server.
        ensures { SendsAll (take result.1 dues.items) ends.old ends.new }
    {
        let mut count: usize = 0;
        for due in dues {
            let place = due.place;
            if !send_due(ends, due) {
                return (place, count);
            }
            self.round_trips.forget(place);
            count = count.saturating_add(1);
        }
        (end, count)
    }

    /// Goes on with a pass, after it began one if it is time. Whether messages were sent again.
    fn go_over<S: Steps, R: Wait + Clock>(
        &mut self,
        rt: &R,
        alloc: Global,
        steps: &S,
        ends: &mut Ends,
        passes: &mut Passes,
    ) -> bool {
        passes.begin(rt, &self.unheard, self.round_trips.patience());
        let Some((from, end, left)) = passes.next() else {
            return false;
        };
        let Ok(places) = self.unheard.between(alloc, from, end, left.min(BURST)) else {
            return false;
        };
        let behind = match places.as_slice().last() {
            Some(last) => last.saturating_add(1),
            None => end,
        };
        let Ok(dues) = steps.owed_at(rt, alloc, places.as_slice()) else {
            return false;
        };
        self.hear_absent(places.as_slice(), dues.as_slice());
        let (next, count) = self.offer_again(ends, dues, behind);
        passes.went(next, count);
        count > 0
    }
}

impl Route {
    /// Nothing was sent to that server yet.
    pub(crate) fn new(alloc: Global, to: ServerId) -> Route
        ensures to { result.to ≡ to }
        ensures lags { result.lags_at ≡ None }
    {
        Route {
            to,
            lags_at: None,
            flight: Flight {
                unheard: Unheard::new(alloc),
                round_trips: RoundTrips::new(),
            },
            first: Passes::new(ResendScope::First),
            all: Passes::new(ResendScope::All),
        }
    }

    /// The server to which it leads.
    pub(crate) fn to(&self) -> ServerId
        ensures { result ≡ self.now.to }
    {
        self.to
    }

    /// The place of the first message that wasn't sent, or wasn't acknowledged; None where there is
    /// none before how far the worker has come.
    pub(crate) fn owes_from(&self) -> Option<u64> {
        match (self.lags_at, self.flight.unheard.first()) {
            (Some(lags), Some(first)) => Some(lags.min(first)),
            (lags, first) => lags.or(first),
        }
    }

    /// Whether a message lags, or nothing was heard of one that was sent.
    pub(crate) fn awaits(&self) -> bool {
        self.lags_at.is_some() || self.flight.unheard.first().is_some()
    }

    /// Sends a message, if the route doesn't lag. Where its ring is full, or there is no memory to
    /// note it, the route lags from there on. Whether it was sent.
    pub(crate) fn send<R: Clock>(&mut self, rt: &R, ends: &mut Ends, due: Due) -> bool
        // Sent is just that message, to just that server; or nothing is, and it isn't forgotten.
        ensures sent { MatchBool result
            (SendsTo ends.old self.old.to (Parcel.Message due.message) ends.new)
            (SendsNothing ends.old ends.new) }
        ensures lags { MatchBool result
            ((self.old.lags_at ≡ None) × (self.new.lags_at ≡ None))
            (self.new.lags_at ≡ Some (unwrap_or self.old.lags_at due.place)) }
        ensures noted { result ≡ true
            → IsUnheard self.new.flight.unheard.sent.items due.place }
        ensures stay { StayUnheard self.old.flight.unheard.sent.items
            self.new.flight.unheard.sent.items }
        ensures to { self.new.to ≡ self.old.to }
    {
        if self.lags_at.is_some() {
            return false;
        }
        let place = due.place;
        if self.flight.unheard.reserve().is_err() {
            self.lags_at = Some(place);
            return false;
        }
        if !offer(ends, self.to, Parcel::Message(due.message)) {
            self.lags_at = Some(place);
            return false;
        }
        self.flight.unheard.went(place);
        self.flight.round_trips.went(rt, place);
        true
    }

    /// Where the route goes on that lags, if there is room in its ring.
    pub(crate) fn lags_at(&self, ends: &mut Ends) -> Option<u64>
        ensures { IfSome result (λ place. self.now.lags_at ≡ Some place) }
    {
        match self.lags_at {
            Some(place) if !is_full(ends, self.to) => Some(place),
            _ => None,
        }
    }

    /// Sends of these messages those to this server, which lie from where it lags on. It lags no
    /// more once it is as far as the worker. Whether any was sent.
    pub(crate) fn catch_up<R: Clock>(
        &mut self,
        rt: &R,
        ends: &mut Ends,
        owed: Owed,
        reached: u64,
    ) -> bool
        // Asked from just where the route lags: no message is passed over.
        requires from { self.old.lags_at ≡ Some owed.from }
        ensures goes { CatchesUp self.old.to owed reached ends.old self.old.lags_at ends.new
            self.new.lags_at }
        ensures to { self.new.to ≡ self.old.to }
    {
        let Some(mut next) = self.lags_at.take() else {
            return false;
        };
        let mut has_sent = false;
        let end = owed.end;
        for due in owed.dues {
            if due.place >= reached {
                return has_sent;
            }
            next = due.place.saturating_add(1);
            if due.to != self.to {
                continue;
            }
            if !self.send(rt, ends, due) {
                return has_sent;
            }
            has_sent = true;
        }
        if end.is_none() && next < reached {
            self.lags_at = Some(next);
        }
        has_sent
    }

    /// The message of that place was acknowledged.
    pub(crate) fn hear<R: Clock>(&mut self, rt: &R, place: u64)
        ensures to { self.new.to ≡ self.old.to }
        ensures lags { self.new.lags_at ≡ self.old.lags_at }
        ensures stay { StayUnheardBut place self.old.flight.unheard.sent.items
            self.new.flight.unheard.sent.items }
    {
        self.flight.round_trips.hear(rt, place);
        self.flight.unheard.hear(place);
        self.all.hear(self.flight.round_trips.patience());
    }

    /// Sends again what wasn't acknowledged for a while. Whether there was any.
    pub(crate) fn send_again<S: Steps, R: Wait + Clock>(
        &mut self,
        rt: &R,
        alloc: Global,
        steps: &S,
        ends: &mut Ends,
    ) -> bool
        ensures to { self.new.to ≡ self.old.to }
        ensures lags { self.new.lags_at ≡ self.old.lags_at }
    {
        if is_full(ends, self.to) {
            return false;
        }
        let flight = &mut self.flight;
        let has_first = flight.go_over(rt, alloc, steps, ends, &mut self.first);
        let has_all = flight.go_over(rt, alloc, steps, ends, &mut self.all);
        has_first || has_all
    }
}
