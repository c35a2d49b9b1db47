//! What a server owes of what is settled, found for its worker.
ghost use Rattle.std.specs.Prelude.{◌≡◌, ◌≢◌, ◌≤◌, ◌↔◌, ◌++◌, ◌∷◌, ℕ, [], IfNone, IfOk, IfSome, IsSome, IsTrue, MatchOption, OnOk, OnSome, length};
ghost use Rattle.lynx_resting.specs.Resting.{settled_front, settled_part};
ghost use Rattle.lynx_set.specs.Lookups.{server_at};
ghost use Rattle.lynx_cluster.specs.inner.Serving.{AddsFound, AreOwed, AreOwedBetween, AreRising, IsDueOf, OwesFrom, OwesOnlyAt};

use crate::cluster::is_of;
use crate::gate::Gate;
use crate::worker_share::WorkerShare;
use lynx_entry::Message;
use lynx_keep::BatchKeeper;
use lynx_names::Memory;
use lynx_resting::Resting;
use lynx_worker::{Due, Owed};
use std::alloc::Global;

/// Adds a message that is owed. None where there is no memory for it.
fn add(dues: &mut Vec<Due>, due: Due) -> Option<()>
    ensures some { OnSome result (dues.new.items ≡ dues.old.items ++ due ∷ []) }
    ensures none { IfNone result (dues.new.items ≡ dues.old.items) }
{
    match dues.push(due) {
        Ok(()) => Some(()),
        Err(_) => None,
    }
}

impl<K: BatchKeeper, G: Gate> WorkerShare<K, G> {
    /// The message with the server that it is for.
    fn due(&self, place: u64, message: Message) -> Option<Due>
        ensures due { IfSome result (IsDueOf self.now.set place message) }
        ensures found { IsSome (server_at self.now.set message.program message.hop)
            → IsSome result }
    {
        let hop = self.set.hop(message.program, usize::from(message.hop))?;
        Some(Due {
            place,
            to: hop.server,
            message,
        })
    }

    /// Adds what the server owes of what is settled, from a place of its history on, to the list,
    /// so many messages at most. How many entries are settled, where that is all.
    fn collect(
        &self,
        alloc: Global,
        state: &Resting<K>,
        from: u64,
        most: usize,
        dues: &mut Vec<Due>,
    ) -> Option<u64>
        requires set { state.now.here.set ≡ self.now.set }
        requires empty { dues.old.items ≡ [] }
        requires within { from ≤ length (settled_front state.now) }
        ensures owed { MatchOption result
            ((next : ℕ) × AreOwedBetween (settled_part state.now) from dues.new.items next)
            (λ len. (len ≡ length (settled_front state.now))
            × AreOwedBetween (settled_part state.now) from dues.new.items len) }
    {
        let len = state.settled().len() as u64;
        let mut next = from;
        for _ in 0..most {
            let Ok(found) = state.messages_due(alloc, next) else {
                return None;
            };
            let Some((place, message)) = found else {
                return Some(len);
            };
            let due = self.due(place, message)?;
            add(dues, due)?;
            next = place.saturating_add(1);
        }
        None
    }

    /// What the server of that state owes of what is settled, from a place of its history on, with
    /// so many messages at most. Nothing where it isn't this server's state, which is asked only
    /// where something may be owed, so that to find nothing costs no walk over the set.
    pub(crate) fn owed_of(&self, alloc: Global, state: &Resting<K>, from: u64, most: usize) -> Owed
        ensures from { result.from ≡ from }
        ensures owed { OwesFrom (settled_part state.now) result }
        ensures holds { IsTrue result.holds ↔ (state.now.here.held ≢ []) }
    {
        let mut dues = Vec::new(alloc);
        let len = state.settled().len() as u64;
        let end = if len <= from {
            Some(len)
        } else if is_of(state, &self.set, self.server) {
            self.collect(alloc, state, from, most, &mut dues)
        } else {
            None
        };
        let holds = !state.held().is_empty();
        Owed {
            from,
            dues,
            end,
            holds,
        }
    }

    /// Adds the message that was found at a place, if it is the place that was asked for.
    fn add_found(
        &self,
        place: u64,
        found: u64,
        message: Message,
        dues: &mut Vec<Due>,
    ) -> Result<(), Memory>
        ensures { OnOk result (AddsFound self.now.set place found message dues.old.items
            dues.new.items) }
    {
        if found != place {
            return Ok(());
        }
        let due = self.due(found, message).ok_or(Memory)?;
        dues.push(due)?;
        Ok(())
    }

    /// The messages of those of these places that still owe one. What lies before the first that is
    /// owed from some place on is passed over.
    pub(crate) fn collect_at(
        &self,
        alloc: Global,
        state: &Resting<K>,
        places: &[u64],
    ) -> Result<Vec<Due>, Memory>
        requires { state.now.here.set ≡ self.now.set }
        ensures owed { IfOk result (λ dues. AreOwed (settled_part state.now) dues.items) }
        // None of the places that still owe one is passed over.
        ensures all { AreRising places.now → IfOk result (λ dues. OwesOnlyAt
            (settled_part state.now) places.now dues.items) }
    {
        let mut dues = Vec::with_capacity(alloc, places.len())?;
        let mut clear: u64 = 0;
        for place in places {
            if *place < clear {
                continue;
            }
            let Some((found, message)) = state.messages_due(alloc, *place)? else {
                return Ok(dues);
            };
            clear = found;
            self.add_found(*place, found, message, &mut dues)?;
        }
        Ok(dues)
    }
}
