ghost use Rattle.std.specs.Prelude.{◌≡◌, ◌⊎◌, All, IfOk, IfSome, OnOk, OnErr, length, nat_eq, option_copied, slice_get};
ghost use Rattle.lynx_names.specs.declared.limits.TheConstants.{MAX_HELD};

use crate::added::Added;
use crate::carrying::carried;
use crate::cells::all_cells;
use crate::listed::{Listed, added_at, lend, server_at};
use crate::opening::open_all;
use crate::senders::find_act;
use crate::serving::{begin_at, deliver_at, restart_at, wake_at, waking};
use lynx_entry::{Entry, Event, Message, Outcome, Request};
use lynx_keep::MemoryKeeper;
use lynx_names::{ChainId, Memory, ServerId, Stamp, TableId, learn};
use lynx_rules::next_of;
use lynx_server::Server;
use lynx_set::ChainSet;
use std::alloc::Global;
use std::marker::Model;

/// Servers that run one set of chain programs, each over what it keeps in memory, and the order in
/// which they added their entries. Contracts see the set, the one list of all that the servers did,
/// and what each holds.
#[derive(Drop)]
pub struct World {
    set: ChainSet,
    servers: Vec<Server<MemoryKeeper>>,
    order: Vec<Added>,
}

impl Model for World {
    ghost use Rattle.lynx_world.specs.Worlds.{WorldState};
    ghost use Rattle.lynx_world.specs.Servers.{AreServers, held_of, list_of};

    ghost Value = { WorldState };

    ghost view = { λ world. record {
      set = world.set;
      list = list_of world.servers.items world.order.items;
      held = held_of world.servers.items;
    } };

    ghost invariant = { λ world. AreServers world.set world.servers.items world.order.items };
}

impl World {
    ghost use Rattle.std.specs.Prelude.{replicate};
    ghost use Rattle.std.specs.List.Sorted.{IsPermutation, IsSorted};
    ghost use Rattle.lynx_keep.specs.Kept.{nothing_kept};
    ghost use Rattle.lynx_world.specs.Worlds.{new_world};
    ghost use Rattle.lynx_world.specs.Legal.{IsLegal, IsSent};
    ghost use Rattle.lynx_world.specs.Servers.{AreServers, held_of, list_of, placed_as};
    ghost use Rattle.lynx_world.specs.inner.Senders.{act_in};
    ghost use Rattle.lynx_world.specs.Tables.{cells_of, triple_cmp};
    ghost use Rattle.lynx_world.specs.Steps.{HasGrown, step, is_server, sent_message, destination_of, held_at};

    /// A world in which nothing happened yet, over keepers that keep nothing, one for each server
    /// of the set.
    pub fn new(alloc: Global, set: ChainSet, keepers: Vec<MemoryKeeper>) -> Result<World, Memory>
        requires { keepers.items ≡ replicate set.servers nothing_kept }
        ensures { IfOk result (λ world. world ≡ new_world set) }
    {
        let servers = open_all(alloc, &set, keepers)?;
        Ok(World {
            set,
            servers,
            order: Vec::new(alloc),
        })
    }

    /// A world of servers that ran already, with the order in which they added their entries. Takes
    /// no memory.
    pub fn over(set: ChainSet, servers: Vec<Server<MemoryKeeper>>, order: Vec<Added>) -> World
        requires { AreServers set servers.items order.items }
        ensures { result ≡ record {
          set = set;
          list = list_of servers.items order.items;
          held = held_of servers.items;
        } }
    {
        World {
            set,
            servers,
            order,
        }
    }

    /// The set. The list of all that the servers added is legal for it.
    pub fn set(&self) -> &ChainSet
        ensures value { result.now ≡ self.now.set }
        ensures legal { IsLegal self.now.set self.now.list }
    {
        &self.set
    }

    /// How many entries the servers added.
    pub fn len(&self) -> usize
        ensures { result ≡ length self.now.list }
    {
        self.order.as_slice().len()
    }

    pub fn is_empty(&self) -> bool
        ensures { result ≡ nat_eq (length self.now.list) 0 }
    {
        self.len() == 0
    }

    /// The entry at a place of the list of all that the servers added, in order. Takes no memory.
    pub fn entry(&self, place: usize) -> Option<Listed<'_>>
        ensures { placed_as result ≡ slice_get self.now.list place }
    {
        let added = added_at(&self.order, place)?;
        lend(&self.servers, added)
    }

    /// The messages that the server holds. None where the set hasn't the server.
    pub fn held(&self, server: ServerId) -> Option<&[Message]>
        ensures held { option_copied result ≡ slice_get self.now.held server }
        ensures sent { IfSome result (λ held. All (IsSent self.now.set self.now.list) held.now) }
    {
        let server = server_at(&self.servers, server)?;
        Some(server.held())
    }

    /// The set has the server.
    fn has_server(&self, server: ServerId) -> bool
        ensures { result ≡ is_server self.now server }
    {
        self.set.has_server(server)
    }

    /// The server that the message is for, or the first one where its program has no such hop.
    pub fn destination_of(&self, message: &Message) -> ServerId
        ensures { result ≡ destination_of self.now.set message.now }
    {
        match self.set.hop(message.program, usize::from(message.hop)) {
            Some(hop) => hop.server,
            None => ServerId::first(),
        }
    }

    /// The entry of that hop of the chain.
    fn act_of(&self, chain: &ChainId, hop: u8) -> Option<&Entry>
        ensures { option_copied result ≡ act_in chain.now hop self.now.list }
    {
        find_act(&self.set, self.servers.as_slice(), chain, hop)
    }

    /// The message of that hop of the chain, if an entry of the list sends it.
    fn sent_message(
        &self,
        alloc: Global,
        chain: &ChainId,
        hop: u8,
    ) -> Result<Option<Message>, Memory>
        ensures { IfOk result (λ found. found
            ≡ sent_message self.now.set chain.now hop self.now.list) }
    {
        let Some(before) = hop.checked_sub(1) else {
            return Ok(None);
        };
        match self.act_of(chain, before) {
            Some(entry) => next_of(alloc, &self.set, entry),
            None => Ok(None),
        }
    }

    /// That message, as its server reads it: from its encoding.
    fn read_message(
        &self,
        alloc: Global,
        chain: &ChainId,
        hop: u8,
    ) -> Result<Option<Message>, Memory>
        ensures { IfOk result (λ found. found
            ≡ sent_message self.now.set chain.now hop self.now.list) }
    {
        // The list is legal, and the set has few servers, so the message is in range.
        learn(self.set().servers());
        match self.sent_message(alloc, chain, hop)? {
            Some(message) => Ok(Some(carried(alloc, message)?)),
            None => Ok(None),
        }
    }

    fn begin(
        &mut self,
        alloc: Global,
        server: ServerId,
        request: Request,
        seen: Stamp,
    ) -> Result<Outcome, Memory>
        ensures ok { IfOk result (λ outcome. record { outcome = outcome; world = self.new }
            ≡ step MAX_HELD self.old (Event.Begin server request seen)) }
        ensures err { OnErr result (self.new ≡ self.old) }
    {
        if !self.has_server(server) {
            return Ok(Outcome::NoServer);
        }
        let answer = begin_at(
            alloc,
            &mut self.servers[server.index()],
            &mut self.order,
            server,
            request,
            seen,
        )?;
        Ok(Outcome::Answered(answer))
    }

    fn deliver(&mut self, alloc: Global, chain: ChainId, hop: u8) -> Result<Outcome, Memory>
        ensures ok { IfOk result (λ outcome. record { outcome = outcome; world = self.new }
            ≡ step MAX_HELD self.old (Event.Deliver chain hop)) }
        ensures err { OnErr result (self.new ≡ self.old) }
    {
        let Some(message) = self.read_message(alloc, &chain, hop)? else {
            return Ok(Outcome::NotSent { chain, hop });
        };
        let server = self.destination_of(&message);
        if !self.has_server(server) {
            return Ok(Outcome::NoServer);
        }
        let delivered = deliver_at(
            alloc,
            &mut self.servers[server.index()],
            &mut self.order,
            server,
            message,
        )?;
        Ok(Outcome::Delivered {
            chain,
            hop,
            delivered,
        })
    }

    /// Says whether the message was sent; it changes nothing.
    fn lose(&self, alloc: Global, chain: ChainId, hop: u8) -> Result<Outcome, Memory>
        ensures { IfOk result (λ outcome. record { outcome = outcome; world = self.now }
            ≡ step MAX_HELD self.now (Event.Lost chain hop)) }
    {
        match self.sent_message(alloc, &chain, hop)? {
            Some(_) => Ok(Outcome::LostNow { chain, hop }),
            None => Ok(Outcome::NotSent { chain, hop }),
        }
    }

    fn wake(&mut self, alloc: Global, server: ServerId) -> Result<Outcome, Memory>
        ensures ok { IfOk result (λ outcome. record { outcome = outcome; world = self.new }
            ≡ step MAX_HELD self.old (Event.Wake server)) }
        ensures err { OnErr result (self.new ≡ self.old) }
    {
        if !self.has_server(server) {
            return Ok(Outcome::NoServer);
        }
        let woken = wake_at(
            alloc,
            &mut self.servers[server.index()],
            &mut self.order,
            server,
        )?;
        Ok(waking(server, woken))
    }

    /// What the server kept stays, and what it held is gone.
    fn restart(&mut self, server: ServerId) -> Outcome
        ensures { record { outcome = result; world = self.new }
            ≡ step MAX_HELD self.old (Event.Restart server) }
    {
        if !self.has_server(server) {
            return Outcome::NoServer;
        }
        restart_at(&mut self.servers[server.index()]);
        Outcome::Restarted { server }
    }

    /// One event, or want of memory, which changes nothing.
    fn try_apply(&mut self, alloc: Global, event: Event) -> Result<Outcome, Memory>
        ensures ok { IfOk result (λ outcome. record { outcome = outcome; world = self.new }
            ≡ step MAX_HELD self.old event) }
        ensures err { OnErr result (self.new ≡ self.old) }
    {
        match event {
            Event::Begin {
                server,
                request,
                seen,
            } => self.begin(alloc, server, request, seen),
            Event::Deliver { chain, hop } => self.deliver(alloc, chain, hop),
            Event::Wake { server } => self.wake(alloc, server),
            Event::Lost { chain, hop } => self.lose(alloc, chain, hop),
            Event::Restart { server } => Ok(self.restart(server)),
        }
    }

    /// One event. A begin, a delivery and a waking take the work of their hop and a few look-ups,
    /// whatever the number of servers; a restart that of letting go what was held. Want of memory
    /// is an outcome of its own, and changes nothing.
    pub fn apply(&mut self, alloc: Global, event: Event) -> Outcome
        ensures step { ((result ≡ Outcome.Memory) × (self.new ≡ self.old))
            ⊎ (record { outcome = result; world = self.new } ≡ step MAX_HELD self.old event) }
        ensures set { self.new.set ≡ self.old.set }
        ensures list { HasGrown self.old.list self.new.list }
    {
        match self.try_apply(alloc, event) {
            Ok(outcome) => outcome,
            Err(Memory) => Outcome::Memory,
        }
    }

    /// The nonzero cells that the servers' histories leave, by table, then key.
    pub fn cells(&self, alloc: Global) -> Result<Vec<(TableId, u64, u64)>, Memory>
        ensures all { IfOk result (λ cells. IsPermutation (cells_of self.now) cells.items) }
        ensures in_order { IfOk result (λ cells. IsSorted triple_cmp cells.items) }
    {
        let mut cells = all_cells(alloc, &self.servers)?;
        cells.sort_unstable();
        Ok(cells)
    }
}
