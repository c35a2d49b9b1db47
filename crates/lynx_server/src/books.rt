//! The books of a server: its history, and what is counted beside it.
ghost use Rattle.std.specs.Prelude.{◌≡◌, ◌+◌, ◌<◌, [], None, IfOk, MatchOption, OnErr, OnOk, false, find, length, max, option_copied, slice_get, true, unwrap_or};
ghost use Rattle.lynx_names.specs.declared.limits.TheConstants.{MAX_ENTRIES};
ghost use Rattle.lynx_rules.specs.Answers.{is_busy, is_full};
ghost use Rattle.lynx_rules.specs.Checks.{has_begun};
ghost use Rattle.lynx_rules.specs.Lawful.{number_at};
ghost use Rattle.lynx_rules.specs.Tables.{clock_of, tables_of};
ghost use Rattle.lynx_rules.specs.Turns.{begun_count, number_for, turn_of};
ghost use Rattle.lynx_turn.specs.Turns.{stand};
ghost use Rattle.lynx_server.specs.Acts.{act_of};
ghost use Rattle.lynx_server.specs.Books.{IsFoundAt, begins_as};
ghost use Rattle.lynx_server.specs.History.{IsLawfulHistory};

use lynx_cells::Cells;
use lynx_entry::{Entry, Message};
use lynx_names::{ChainId, ServerId, Stamp};
use lynx_rules::answers::next_stamp;
use lynx_rules::checks::begins;
use lynx_rules::deliveries::own_number;
use lynx_seq::Sequencer;
use lynx_set::ChainSet;
use lynx_turn::{Stand, Turns};
use std::alloc::Global;
use std::marker::Model;

/// All that a server did, and beside it the numbers for the next chain, the turns, the cells, and
/// where each chain began. Contracts see the set, the server, the history, and the draw that is
/// out.
#[derive(Debug, Drop)]
pub struct Books {
    pub(crate) set: ChainSet,
    pub(crate) server: ServerId,
    pub(crate) history: Vec<Entry>,
    pub(crate) sequencer: Sequencer,
    pub(crate) turns: Turns,
    /// The place of the entry in which each chain began, by index.
    pub(crate) chains: Vec<usize>,
    pub(crate) cells: Cells,
}

impl Model for Books {
    ghost use Rattle.lynx_server.specs.Books.{BooksState, IsBooks};

    ghost Value = { BooksState };

    ghost view = { λ books. record {
      set = books.set;
      server = books.server;
      history = books.history.items;
      out = books.sequencer.out;
    } };

    ghost invariant = { λ books. IsBooks books.set books.server books.history.items
        books.sequencer.counters books.turns books.chains.items books.cells.database };
}

impl Books {
    /// The books of a server that did nothing yet. Takes no memory.
    pub fn new(alloc: Global, set: ChainSet, server: ServerId) -> Books
        ensures { result ≡ record { set = set; server = server; history = []; out = None } }
    {
        Books {
            set,
            server,
            history: Vec::new(alloc),
            sequencer: Sequencer::new(),
            turns: Turns::new(),
            chains: Vec::new(alloc),
            cells: Cells::new(alloc),
        }
    }

    /// The set. Each chain that began here visits this server.
    pub fn set(&self) -> &ChainSet
        ensures value { result.now ≡ self.now.set }
        ensures home { number_for self.now.set self.now.history self.now.server
            ≡ begun_count self.now.history }
    {
        &self.set
    }

    pub fn server(&self) -> ServerId
        ensures { result ≡ self.now.server }
    {
        self.server
    }

    /// All that the server did, each entry lawful after those before it.
    pub fn history(&self) -> &[Entry]
        ensures value { result.now ≡ self.now.history }
        ensures lawful { IsLawfulHistory self.now.set self.now.server self.now.history }
    {
        self.history.as_slice()
    }

    pub fn cells(&self) -> &Cells
        ensures { result.now.database ≡ tables_of self.now.set self.now.history }
    {
        &self.cells
    }

    pub(crate) fn len(&self) -> usize
        ensures { result ≡ length self.now.history }
    {
        self.history.len()
    }

    pub(crate) fn entry(&self, place: usize) -> Option<&Entry>
        ensures { option_copied result ≡ slice_get self.now.history place }
    {
        self.history.as_slice().get(place)
    }

    /// The stamp of the next entry. None where there is no room for one.
    pub(crate) fn next_stamp(&self, told: Stamp) -> Option<Stamp>
        ensures { MatchOption result (is_full self.now.history told ≡ true) (λ stamp.
            (is_full self.now.history told ≡ false) × (stamp ≡ max
            (clock_of self.now.history) told + 1)) }
    {
        next_stamp(self.history.as_slice(), told)
    }

    /// A chain begun here has still to return here.
    pub(crate) fn is_busy(&self) -> bool
        ensures { result ≡ is_busy self.now.set self.now.server self.now.history }
    {
        self.turns.turn(self.server) != self.chains.len() as u64
    }

    /// The place of the entry in which the chain of that index began.
    fn begun_place(&self, index: u64) -> Option<usize>
        ensures { IsFoundAt self.now.history result (find (begins_as index) self.now.history) }
    {
        match usize::try_from(index) {
            Ok(index) => place_at(self.chains.as_slice(), index),
            Err(_) => None,
        }
    }

    /// The entry in which the chain of that index began.
    pub(crate) fn begun_entry(&self, index: u64) -> Option<&Entry>
        ensures { option_copied result ≡ find (begins_as index) self.now.history }
    {
        match self.begun_place(index) {
            Some(place) => self.entry(place),
            None => None,
        }
    }

    /// The place of the entry in which the chain began, if it began here.
    pub(crate) fn first_place_of(&self, chain: ChainId) -> Option<usize>
        ensures { IsFoundAt self.now.history result (act_of chain 0 self.now.history) }
    {
        if chain.origin == self.server {
            self.begun_place(chain.index)
        } else {
            None
        }
    }

    /// A chain of this origin began here, by this very message's account.
    pub(crate) fn has_begun(&self, message: &Message) -> bool
        ensures { result ≡ has_begun self.now.server self.now.history message.now }
    {
        if message.chain.origin != self.server {
            return true;
        }
        match self.begun_entry(message.chain.index) {
            Some(entry) => begins(message, entry),
            None => false,
        }
    }

    /// How the message's number stands to the turn of its origin here.
    pub(crate) fn stand(&self, message: &Message) -> Stand
        ensures { result ≡ stand (unwrap_or (number_at message.now.numbers self.now.server) 0)
            (turn_of self.now.set self.now.server self.now.history message.now.chain.origin) }
    {
        self.turns
            .stand(message.chain.origin, own_number(message, self.server))
    }
}

/// The place that stands at that index.
fn place_at(places: &[usize], index: usize) -> Option<usize>
    ensures { result ≡ slice_get places.now index }
{
    places.get(index).copied()
}
