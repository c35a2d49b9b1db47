//! The states of a later hop. Each must be spent by the call that makes the next.
ghost use Rattle.std.specs.Prelude.{◌≡◌, ◌++◌, ◌∷◌, [], IfOk, OnErr, OnOk};
ghost use Rattle.lynx_entry.specs.declared.entry.Entry.TheVariants.{Hop};
ghost use Rattle.lynx_rules.specs.Deliveries.{done_at};
ghost use Rattle.lynx_server.specs.inner.Hops.{HasCome, HasRun, IsDue, hop_entry};
ghost use Rattle.lynx_server.specs.Keeping.{kept_of};
ghost use Rattle.lynx_server.specs.inner.Keeping.{Commits};

use crate::books::Books;
use crate::keeping::release;
use lynx_entry::{Delivered, Entry, HopEntry, Message};
use lynx_hops::{HopFault, Ran, run_hop};
use lynx_keep::{KeepFault, Keeper};
use lynx_names::{Memory, Stamp, TryCopy, Values};
use lynx_rules::next_of;
use lynx_set::ChainSet;
use std::alloc::Global;

/// A checked message, with the stamp of its entry.
#[derive(Debug)]
pub struct TakenMessage {
    message: Message,
    stamp: Stamp,
}

/// A message whose hop ran.
#[derive(Debug)]
pub struct RanMessage {
    taken: TakenMessage,
    ran: Ran,
}

/// A later hop that was kept.
#[derive(Debug)]
pub struct KeptHop {
    delivered: Delivered,
}

impl TakenMessage {
    pub(crate) fn new(message: Message, stamp: Stamp) -> TakenMessage
        ensures { result ≡ record { message = message; stamp = stamp } }
    {
        TakenMessage { message, stamp }
    }

    /// The message is let go.
    fn release(self) {
        let TakenMessage {
            message: _,
            stamp: _,
        } = self;
    }

    /// Runs the hop. None where it refused, which no later hop does.
    pub(crate) fn run(self, alloc: Global, books: &Books) -> Result<Option<RanMessage>, Memory>
        ensures { IfOk result (HasCome books.now self) }
    {
        let message = &self.message;
        match run_hop(
            alloc,
            &books.set,
            message.program,
            usize::from(message.hop),
            message.args.as_slice(),
            message.results.as_slice(),
            &books.cells,
        ) {
            Ok(ran) => Ok(Some(RanMessage { taken: self, ran })),
            Err(HopFault::Refused(_)) => {
                self.release();
                Ok(None)
            }
            Err(HopFault::Memory) => {
                self.release();
                Err(Memory)
            }
        }
    }
}

/// What a hop that ran will need, made before the commit.
#[derive(Drop)]
struct ReadyHop {
    entry: Entry,
    delivered: Delivered,
}

impl TakenMessage {
    /// The entry of the hop, and the answer, with the message that the hop sends.
    fn ready(self, alloc: Global, set: &ChainSet, results: Values) -> Result<ReadyHop, Memory>
        ensures entry { IfOk result (λ ready. ready.entry
            ≡ Hop (hop_entry self.message self.stamp results)) }
        ensures delivered { IfOk result (λ ready. ready.delivered
            ≡ (done_at set.now [] self.message self.stamp results).delivered) }
    {
        let TakenMessage { message, stamp } = self;
        let told = results.copy(alloc)?;
        let entry = Entry::Hop(HopEntry {
            message,
            stamp,
            results,
        });
        let Ok(next) = next_of(alloc, set, &entry) else {
            release(entry);
            return Err(Memory);
        };
        let delivered = Delivered::Done {
            stamp,
            results: told,
            next,
        };
        Ok(ReadyHop { entry, delivered })
    }
}

/// An answer that isn't given is forgotten.
fn forget(delivered: Delivered) {
    let _ = delivered;
}

impl RanMessage {
    /// What the hop did is forgotten.
    pub(crate) fn release(self) {
        let RanMessage { taken, ran } = self;
        let (_, _) = ran.spend();
        taken.release();
    }

    /// Keeps the entry.
    pub(crate) fn keep<K: Keeper>(
        self,
        alloc: Global,
        books: &mut Books,
        keeper: &mut K,
    ) -> Result<KeptHop, KeepFault>
        requires ran { HasRun books.old self }
        requires due { IsDue books.old self.taken.message self.taken.stamp }
        ensures delivered { IfOk result (λ kept. kept.delivered
            ≡ (done_at books.old.set [] self.taken.message self.taken.stamp self.ran.0).delivered) }
        ensures grown { OnOk result (books.new
            ≡ record books.old {
              history = books.old.history ++ Hop
                  (hop_entry self.taken.message self.taken.stamp self.ran.0) ∷ [];
            }) }
        ensures err { OnErr result (books.new ≡ books.old) }
        ensures commits { Commits K.terms keeper.old keeper.new
            (kept_of books.old.set books.old.history)
            (kept_of books.old.set (books.old.history
            ++ Hop (hop_entry self.taken.message self.taken.stamp self.ran.0) ∷ [])) result }
    {
        let RanMessage { taken, ran } = self;
        let (results, changes) = ran.spend();
        let ready = taken.ready(alloc, &books.set, results)?;
        let ReadyHop { entry, delivered } = ready;
        match books.keep_other(alloc, keeper, entry, changes) {
            Ok(()) => Ok(KeptHop { delivered }),
            Err(fault) => {
                forget(delivered);
                Err(fault)
            }
        }
    }
}

impl KeptHop {
    /// What the sender is told, and the message that the hop sends.
    pub fn delivered(self) -> Delivered
        ensures { result ≡ self.delivered }
    {
        let KeptHop { delivered } = self;
        delivered
    }
}
