//! A server over its keeper.
ghost use Rattle.std.specs.Prelude.{[], IfOk, ◌≡◌, ◌≤◌, false, true, filter, if◌then◌else◌, not, option_copied, slice_get};
ghost use Rattle.lynx_entry.specs.Answers.{HasFewResults};
ghost use Rattle.lynx_rules.specs.Tables.{tables_of};
ghost use Rattle.lynx_rules.specs.Lawful.{record_of};
ghost use Rattle.lynx_server.specs.Acts.{GivesResults, act_of};
ghost use Rattle.lynx_server.specs.Books.{IsFoundAt};
ghost use Rattle.lynx_server.specs.History.{IsLawfulHistory};
ghost use Rattle.lynx_server.specs.Keeping.{kept_of};
ghost use Rattle.lynx_keep.specs.Kept.{nothing_kept};
ghost use Rattle.lynx_server.specs.Serving.{Begins, Delivers, DeliversWoken, Lasts, Wakes, begins_here, delivery_of, is_put_off, told_stopped, woken_entry, woken_of};
ghost use Rattle.lynx_server.specs.inner.Trying.{IsDueHere, LeavesKeeper, RanHere, TriedBegin, TriedDelivery, is_done, ran_here};
ghost use Rattle.lynx_turn.specs.Held.{is_for};

use crate::books::Books;
use crate::marks::make_mark_room;
use crate::register::Register;
use crate::sorting::Sorted;
use lynx_cells::Cells;
use lynx_entry::{Answer, Delivered, Entry, Message, Request};
use lynx_keep::{KeepFault, Keeper};
use lynx_names::{ChainId, Memory, ServerId, Stamp, TryCopy, learn};
use lynx_rules::answers::recorded_answer;
use lynx_rules::checks::request_fault;
use lynx_set::ChainSet;
use lynx_turn::HeldBuffer;
use std::alloc::Global;
use std::marker::Model;

/// One server: its history with all that stands beside it, the messages that it holds, and its
/// keeper, which has each entry before it is answered. Contracts see the set, the server, the
/// history, the held messages, whether it stopped, how often its keeper had failed when it was
/// opened, what was acknowledged, and the keeper.
#[derive(Drop)]
pub struct Server<K: Keeper> {
    pub(crate) register: Register,
    pub(crate) held: HeldBuffer,
    pub(crate) keeper: K,
    pub(crate) is_stopped: bool,
    pub(crate) opened: u64,
    /// By place of the history, with room for each entry. Past its end nothing was acknowledged.
    pub(crate) acknowledged: Vec<bool>,
}

impl<K: Keeper> Model for Server<K> {
    ghost use Rattle.std.specs.Prelude.{vec_capacity};
    ghost use Rattle.lynx_server.specs.Serving.{Serving, IsServing, serving_code};

    ghost Value = { Serving K };

    ghost coded = { serving_code K.code };

    ghost view = { λ server. record {
      set = server.register.set;
      server = server.register.server;
      history = server.register.history;
      held = server.held;
      is_stopped = server.is_stopped;
      opened = server.opened;
      acknowledged = server.acknowledged.items;
      keeper = server.keeper;
    } };

    ghost invariant = { λ server. IsServing K.terms server.register
        server.is_stopped server.opened (vec_capacity server.acknowledged) server.keeper };
}

/// A held message that was delivered.
#[derive(Debug, PartialEq, Eq, Drop)]
pub struct Woken {
    pub chain: ChainId,
    pub hop: u8,
    pub delivered: Delivered,
}

impl<K: Keeper> Server<K> {
    /// A server that did nothing yet, over a keeper that keeps nothing.
    pub fn new(
        alloc: Global,
        set: &ChainSet,
        server: ServerId,
        keeper: K,
    ) -> Result<Server<K>, Memory>
    where
        K: Drop,
        requires { K.terms.sound keeper → K.terms.keeps keeper nothing_kept }
        ensures { IfOk result (λ server_made. server_made
            ≡ record {
              set = set.now;
              server = server;
              history = [];
              held = [];
              is_stopped = false;
              opened = K.terms.counted keeper;
              acknowledged = [];
              keeper = keeper;
            }) }
    {
        let held = HeldBuffer::new(alloc)?;
        let set = set.copy(alloc)?;
        let opened = keeper.faults();
        Ok(Server {
            register: Register::new(alloc, Books::new(alloc, set, server)),
            held,
            keeper,
            is_stopped: false,
            opened,
            acknowledged: Vec::new(alloc),
        })
    }

    pub fn set(&self) -> &ChainSet
        ensures { result.now ≡ self.now.set }
    {
        self.register.books().set()
    }

    pub fn server(&self) -> ServerId
        ensures { result ≡ self.now.server }
    {
        self.register.books().server()
    }

    /// All that the server did, each entry lawful after those before it.
    pub fn history(&self) -> &[Entry]
        ensures value { result.now ≡ self.now.history }
        ensures lawful { IsLawfulHistory self.now.set self.now.server self.now.history }
    {
        self.register.books().history()
    }

    /// The entry at the place of the history, counted from 0.
    pub fn entry(&self, place: usize) -> Option<&Entry>
        ensures { option_copied result ≡ slice_get self.now.history place }
    {
        self.register.books().entry(place)
    }

    /// The place of the entry that keeps the answer to a request of this client and number: one
    /// look-up. Takes no memory.
    pub fn record_place(&self, request: &Request) -> Option<usize>
        ensures { IsFoundAt self.now.history result (record_of request.now self.now.history) }
    {
        self.register.record_place(request)
    }

    /// The place of the entry of that hop of the chain, if it ran here: two look-ups at most. Takes
    /// no memory.
    pub fn place_of(&self, chain: ChainId, hop: u8) -> Option<usize>
        ensures { IsFoundAt self.now.history result (act_of chain hop self.now.history) }
    {
        self.register.place_of(chain, hop)
    }

    /// The entry of that hop of the chain, if it ran here: two look-ups at most. Takes no memory.
    pub fn entry_of(&self, chain: ChainId, hop: u8) -> Option<&Entry>
        ensures { option_copied result ≡ act_of chain hop self.now.history }
    {
        self.register.entry_of(chain, hop)
    }

    /// The stamp and the results of that hop of the chain, if it ran here: two look-ups at most.
    /// Takes no memory.
    pub fn results(&self, chain: ChainId, hop: u8) -> Option<(Stamp, &[u64])>
        ensures { GivesResults (act_of chain hop self.now.history) result }
    {
        match self.entry_of(chain, hop)? {
            Entry::Begun(begun) => Some((begun.stamp, begun.results.as_slice())),
            Entry::Refused(_) => None,
            Entry::Hop(ran) => Some((ran.stamp, ran.results.as_slice())),
        }
    }

    /// The cells that the history leaves.
    pub fn cells(&self) -> &Cells
        ensures { result.now.database ≡ tables_of self.now.set self.now.history }
    {
        self.register.books().cells()
    }

    /// The messages that wait for their turn.
    pub fn held(&self) -> &[Message]
        ensures { result.now ≡ self.now.held }
    {
        self.held.as_slice()
    }

    /// The keeper, which keeps the history and its tables unless the server stopped.
    pub fn keeper(&self) -> &K
        ensures value { result.now ≡ self.now.keeper }
        ensures kept { self.now.is_stopped ≡ false → K.terms.sound result.now
            → K.terms.keeps result.now (kept_of self.now.set self.now.history) }
    {
        &self.keeper
    }

    /// Whether the keeper failed. Then the server answers Stopped to everything until it is opened
    /// again.
    pub fn is_stopped(&self) -> bool
        ensures { result ≡ self.now.is_stopped }
    {
        self.is_stopped
    }

    /// Gives back the keeper.
    pub fn into_keeper(self) -> K
        ensures keeper { result ≡ self.keeper }
        ensures kept { self.is_stopped ≡ false → K.terms.sound result
            → K.terms.keeps result (kept_of self.set self.history) }
    {
        self.keeper
    }

    /// Gives back the history and the keeper. Takes no memory.
    pub fn into_parts(self) -> (Vec<Entry>, K)
        ensures history { result.0.items ≡ self.history }
        ensures keeper { result.1 ≡ self.keeper }
        ensures kept { self.is_stopped ≡ false → K.terms.sound result.1
            → K.terms.keeps result.1 (kept_of self.set self.history) }
    {
        (self.register.into_history(), self.keeper)
    }

    /// The same server over another keeper, which keeps as much. Its earlier faults don't count.
    pub(crate) fn over<L: Keeper>(self, keeper: L) -> Server<L>
    where
        K: Drop,
        requires runs { self.is_stopped ≡ false }
        requires kept { L.terms.sound keeper
            → L.terms.keeps keeper (kept_of self.set self.history) }
        ensures { result ≡ record {
          set = self.set;
          server = self.server;
          history = self.history;
          held = self.held;
          is_stopped = false;
          opened = L.terms.counted keeper;
          acknowledged = self.acknowledged;
          keeper = keeper;
        } }
    {
        let opened = keeper.faults();
        Server {
            register: self.register,
            held: self.held,
            keeper,
            is_stopped: false,
            opened,
            acknowledged: self.acknowledged,
        }
    }

    /// Lets go of all that it holds. What it did stays: of a server that runs and acknowledged
    /// nothing this is what an opening over its keeper gives, without a look at what that keeps.
    pub fn drop_held(&mut self)
        ensures { self.new ≡ record self.old { held = [] } }
    {
        self.held.clear();
    }

    /// A begin of a server that runs.
    fn try_begin(
        &mut self,
        alloc: Global,
        request: Request,
        seen: Stamp,
    ) -> Result<Answer, KeepFault>
        requires { self.old.is_stopped ≡ false }
        ensures tried { TriedBegin K.terms self.old request seen result self.new }
        ensures keeper { LeavesKeeper K.terms self.old (begins_here self.old request seen).added
            result self.new }
    {
        if let Some(entry) = self.register.record_of(&request) {
            return Ok(recorded_answer(alloc, entry, &request)?);
        }
        let books = self.register.books();
        if let Some(fault) = request_fault(books.set(), books.server(), &request) {
            return Ok(fault);
        }
        let Some(stamp) = books.next_stamp(seen) else {
            return Ok(Answer::Full);
        };
        if books.is_busy() {
            return Ok(Answer::Busy);
        }
        make_mark_room(&mut self.acknowledged, books.len())?;
        match self
            .register
            .begin_new(alloc, &mut self.keeper, request, seen, stamp)
        {
            Ok(kept) => Ok(kept.answer()),
            Err(KeepFault::Memory) => Err(KeepFault::Memory),
            Err(KeepFault::Failed) => {
                self.is_stopped = true;
                Err(KeepFault::Failed)
            }
        }
    }

    /// Begins a chain, or answers from the record. In this order: a server that stopped; a request
    /// that is recorded; what is wrong with it; no room; a chain that has still to return here;
    /// else hop 0 runs. The work is that of the hop, and a few look-ups in the indexes.
    pub fn begin(&mut self, alloc: Global, request: Request, seen: Stamp) -> Answer
        ensures stopped { self.old.is_stopped ≡ true → (result ≡ Answer.Stopped)
            × (self.new ≡ self.old) }
        ensures begins { self.old.is_stopped ≡ false
            → Begins K.terms self.old request seen result self.new }
        ensures lasts { self.old.is_stopped ≡ false
            → Lasts K.terms self.old (begins_here self.old request seen).added self.new }
        ensures few { HasFewResults result }
    {
        if self.is_stopped {
            return Answer::Stopped;
        }
        // Its history is lawful, so what it tells of it has few results.
        learn(self.history());
        match self.try_begin(alloc, request, seen) {
            Ok(answer) => answer,
            Err(KeepFault::Memory) => Answer::Memory,
            Err(KeepFault::Failed) => Answer::Stopped,
        }
    }

    /// A delivery at a server that runs.
    fn try_deliver(&mut self, alloc: Global, message: Message) -> Result<Delivered, KeepFault>
        requires { self.old.is_stopped ≡ false }
        ensures tried { TriedDelivery K.terms self.old message result self.new }
        ensures keeper { LeavesKeeper K.terms self.old (delivery_of self.old message).added
            result self.new }
    {
        let sorted = self.register.sort(alloc, self.held.as_slice(), &message)?;
        match sorted {
            Sorted::Answered(delivered) => Ok(delivered),
            Sorted::Waits => {
                self.held.hold(message);
                Ok(Delivered::Held)
            }
            Sorted::Runs(stamp) => self.run_message(alloc, message, stamp),
        }
    }

    /// Runs the hop of a message that is due. What was held for the hop is let go.
    fn run_message(
        &mut self,
        alloc: Global,
        message: Message,
        stamp: Stamp,
    ) -> Result<Delivered, KeepFault>
        requires running { self.old.is_stopped ≡ false }
        requires due { IsDueHere self.old message stamp }
        ensures tried { RanHere K.terms self.old message result self.new }
        ensures keeper { LeavesKeeper K.terms self.old (ran_here self.old message).added
            result self.new }
    {
        let (chain, hop) = (message.chain, message.hop);
        make_mark_room(&mut self.acknowledged, self.register.books().len())?;
        match self
            .register
            .run_message(alloc, &mut self.keeper, message, stamp)
        {
            Ok(delivered) => {
                release_done(&mut self.held, chain, hop, &delivered);
                Ok(delivered)
            }
            Err(KeepFault::Memory) => Err(KeepFault::Memory),
            Err(KeepFault::Failed) => {
                self.is_stopped = true;
                Err(KeepFault::Failed)
            }
        }
    }

    /// Delivers a message. In this order: a server that stopped; one that nobody can have sent; a
    /// hop that ran; a hop whose turn it is not, which may wait; no room; else the hop runs. The
    /// work is that of the hop, a few look-ups in the indexes, and for one that comes early a walk
    /// over the held messages.
    pub fn deliver(&mut self, alloc: Global, message: Message) -> Delivered
        ensures stopped { self.old.is_stopped ≡ true → (result ≡ Delivered.Stopped)
            × (self.new ≡ self.old) }
        ensures delivers { self.old.is_stopped ≡ false
            → Delivers K.terms self.old message result self.new }
        ensures lasts { self.old.is_stopped ≡ false
            → Lasts K.terms self.old (delivery_of self.old message).added self.new }
    {
        if self.is_stopped {
            return Delivered::Stopped;
        }
        match self.try_deliver(alloc, message) {
            Ok(delivered) => delivered,
            Err(KeepFault::Memory) => Delivered::Memory,
            Err(KeepFault::Failed) => Delivered::Stopped,
        }
    }
}

impl<K: Keeper> Server<K> {
    /// Delivers the held message whose turn it is now, the least by origin, index and hop. None
    /// where none's turn it is. Where there is no room for its entry, or no memory, or the server
    /// stopped, it is held as before. A server that stopped tells the message, and delivers
    /// nothing. The work is that of a delivery, and a walk over the held messages.
    pub fn wake(&mut self, alloc: Global) -> Option<Woken>
        ensures stopped { self.old.is_stopped ≡ true → (result ≡ told_stopped (woken_of self.old))
            × (self.new ≡ self.old) }
        ensures wakes { self.old.is_stopped ≡ false → Wakes K.terms self.old result self.new }
        ensures lasts { self.old.is_stopped ≡ false
            → Lasts K.terms self.old (woken_entry self.old (woken_of self.old)) self.new }
    {
        let Some(message) = self.register.least_now(self.held.as_slice()) else {
            return None;
        };
        let chain = message.chain;
        let hop = message.hop;
        if self.is_stopped {
            return Some(Woken {
                chain,
                hop,
                delivered: Delivered::Stopped,
            });
        }
        let Ok(copied) = message.copy(alloc) else {
            return Some(Woken {
                chain,
                hop,
                delivered: Delivered::Memory,
            });
        };
        let delivered = self.deliver_woken(alloc, copied);
        Some(Woken {
            chain,
            hop,
            delivered,
        })
    }

    /// Delivers a held message, which is let go unless it could not be served.
    fn deliver_woken(&mut self, alloc: Global, message: Message) -> Delivered
        requires { self.old.is_stopped ≡ false }
        ensures wakes { DeliversWoken K.terms self.old message result self.new }
        ensures lasts { Lasts K.terms self.old (delivery_of self.old message).added self.new }
    {
        let chain = message.chain;
        let hop = message.hop;
        let delivered = self.deliver(alloc, message);
        release_woken(&mut self.held, chain, hop, &delivered);
        delivered
    }
}

/// A held message that was delivered is let go, unless it could not be served.
fn release_woken(held: &mut HeldBuffer, chain: ChainId, hop: u8, delivered: &Delivered)
    ensures { held.new ≡ (if is_put_off delivered.now then held.old else filter (λ other.
        not (is_for chain hop other)) held.old) }
{
    match delivered {
        Delivered::Full | Delivered::Stopped | Delivered::Memory => {}
        Delivered::Done { .. }
        | Delivered::Repeat { .. }
        | Delivered::Held
        | Delivered::Dropped
        | Delivered::Malformed => held.release(chain, hop),
    }
}

/// What was held for a hop that ran is let go.
fn release_done(held: &mut HeldBuffer, chain: ChainId, hop: u8, delivered: &Delivered)
    ensures { held.new ≡ (if is_done delivered.now then filter (λ other.
        not (is_for chain hop other)) held.old else held.old) }
{
    match delivered {
        Delivered::Done { .. } => held.release(chain, hop),
        Delivered::Repeat { .. }
        | Delivered::Held
        | Delivered::Dropped
        | Delivered::Malformed
        | Delivered::Full
        | Delivered::Stopped
        | Delivered::Memory => {}
    }
}
