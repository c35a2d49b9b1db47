//! The books of a server with indexes: where the record of each request is, and the entry of each
//! later hop.
ghost use Rattle.std.specs.Prelude.{◌≡◌, IfOk, OnErr, OnOk, [], option_copied};
ghost use Rattle.lynx_rules.specs.Lawful.{hop_entry_of, record_of};
ghost use Rattle.lynx_server.specs.Acts.{act_of};
ghost use Rattle.lynx_server.specs.inner.Hops as hops;
ghost use Rattle.lynx_server.specs.inner.Hops.{due_delivery};
ghost use Rattle.lynx_server.specs.inner.Begins.{CanBegin, KeepsBegin};
ghost use Rattle.lynx_server.specs.Books.{IsFoundAt};
ghost use Rattle.lynx_server.specs.Keeping.{kept_of};
ghost use Rattle.lynx_server.specs.inner.Keeping.{Commits};
ghost use Rattle.lynx_server.specs.History.{grown};

use crate::books::Books;
use crate::hop_steps::TakenMessage;
use crate::steps::Kept;
use lynx_entry::{Delivered, Entry, Message, Request};
use lynx_keep::{KeepFault, Keeper};
use lynx_names::{ChainId, ClientId, ServerId, Stamp};
use std::alloc::Global;
use std::collections::BTreeMap;
use std::marker::Model;

/// The books of a server, and where its records are. Contracts see the books.
#[derive(Debug)]
pub struct Register {
    pub(crate) books: Books,
    /// The place of the entry that keeps the answer to a request, by client and number.
    requests: BTreeMap<(ClientId, u64), usize>,
    /// The place of the entry of a later hop, by origin, index and hop.
    hops: BTreeMap<((ServerId, u64), u8), usize>,
}

impl Model for Register {
    ghost use Rattle.lynx_server.specs.Books.{BooksState};
    ghost use Rattle.lynx_server.specs.Indexes.{IsRegister};

    ghost Value = { BooksState };

    ghost view = { λ register. register.books };

    ghost invariant = { λ register. IsRegister register.books.history register.requests
        register.hops };
}

// Written out, so that whoever drops a server calls this, and needn't take it apart.
impl Drop for Register {
    fn drop(self) {
        let Register {
            books: _,
            requests: _,
            hops: _,
        } = self;
    }
}

impl Register {
    /// The register of books in which nothing is written yet. Takes no memory.
    pub fn new(alloc: Global, books: Books) -> Register
        requires { books.history ≡ [] }
        ensures { result ≡ books }
    {
        Register {
            books,
            requests: BTreeMap::new(alloc),
            hops: BTreeMap::new(alloc),
        }
    }

    /// All that the server did. The indexes are let go.
    pub(crate) fn into_history(self) -> Vec<Entry>
        ensures { result.items ≡ self.history }
    {
        let Register {
            books,
            requests: _,
            hops: _,
        } = self;
        books.history
    }

    pub fn books(&self) -> &Books
        ensures { result.now ≡ self.now }
    {
        &self.books
    }

    /// The place of the entry that keeps the answer to a request of this client and number.
    pub(crate) fn record_place(&self, request: &Request) -> Option<usize>
        ensures { IsFoundAt self.now.history result (record_of request.now self.now.history) }
    {
        self.requests
            .get(&(request.client, request.number))
            .copied()
    }

    /// The entry that keeps the answer to a request of this client and number.
    pub(crate) fn record_of(&self, request: &Request) -> Option<&Entry>
        ensures { option_copied result ≡ record_of request.now self.now.history }
    {
        match self.record_place(request) {
            Some(place) => self.books.entry(place),
            None => None,
        }
    }

    /// The place of the entry of that later hop of the chain.
    fn hop_place_of(&self, chain: ChainId, hop: u8) -> Option<usize>
        ensures { IsFoundAt self.now.history result (hop_entry_of chain hop self.now.history) }
    {
        self.hops.get(&((chain.origin, chain.index), hop)).copied()
    }

    /// The entry of that later hop of the chain.
    pub(crate) fn hop_entry_of(&self, chain: ChainId, hop: u8) -> Option<&Entry>
        ensures { option_copied result ≡ hop_entry_of chain hop self.now.history }
    {
        match self.hop_place_of(chain, hop) {
            Some(place) => self.books.entry(place),
            None => None,
        }
    }

    /// The place of the entry of that hop of the chain, of the first as of later ones.
    pub(crate) fn place_of(&self, chain: ChainId, hop: u8) -> Option<usize>
        ensures { IsFoundAt self.now.history result (act_of chain hop self.now.history) }
    {
        if hop > 0 {
            self.hop_place_of(chain, hop)
        } else {
            self.books.first_place_of(chain)
        }
    }

    /// The entry of that hop of the chain, of the first as of later ones.
    pub fn entry_of(&self, chain: ChainId, hop: u8) -> Option<&Entry>
        ensures { option_copied result ≡ act_of chain hop self.now.history }
    {
        match self.place_of(chain, hop) {
            Some(place) => self.books.entry(place),
            None => None,
        }
    }

    /// A request that is due, from its place in the index to what is kept.
    pub(crate) fn begin_new<K: Keeper>(
        &mut self,
        alloc: Global,
        keeper: &mut K,
        request: Request,
        seen: Stamp,
        stamp: Stamp,
    ) -> Result<Kept, KeepFault>
        requires { CanBegin self.old request seen stamp }
        ensures { KeepsBegin K.terms keeper.old keeper.new
            self.old request seen result self.new }
    {
        let key = (request.client, request.number);
        let place = self.books.len();
        self.requests.insert(key, place)?;
        match self.books.begin_new(alloc, keeper, request, seen, stamp) {
            Ok(kept) => Ok(kept),
            Err(fault) => {
                let _ = self.requests.remove(&key);
                Err(fault)
            }
        }
    }

    /// A message that is due, from its place in the index to what is kept.
    pub(crate) fn run_message<K: Keeper>(
        &mut self,
        alloc: Global,
        keeper: &mut K,
        message: Message,
        stamp: Stamp,
    ) -> Result<Delivered, KeepFault>
        requires { hops.IsDue self.old message stamp }
        ensures delivered { IfOk result (λ delivered. delivered
            ≡ (due_delivery self.old message).delivered) }
        ensures grown { OnOk result (self.new
            ≡ record self.old {
              history = grown self.old.history
                  (due_delivery self.old message).added;
            }) }
        ensures err { OnErr result (self.new ≡ self.old) }
        ensures commits { Commits K.terms keeper.old keeper.new
            (kept_of self.old.set self.old.history)
            (kept_of self.old.set (grown self.old.history (due_delivery self.old message).added))
            result }
    {
        let chain = message.chain;
        let key = ((chain.origin, chain.index), message.hop);
        let place = self.books.len();
        let taken = TakenMessage::new(message, stamp);
        let came = taken.run(alloc, &self.books)?;
        let Some(step) = came else {
            return Ok(Delivered::Malformed);
        };
        if let Err(_) = self.hops.insert(key, place) {
            step.release();
            return Err(KeepFault::Memory);
        }
        match step.keep(alloc, &mut self.books, keeper) {
            Ok(kept) => Ok(kept.delivered()),
            Err(fault) => {
                let _ = self.hops.remove(&key);
                Err(fault)
            }
        }
    }
}
