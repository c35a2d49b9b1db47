ghost use Rattle.std.specs.Prelude.{◌≡◌, ◌<◌, ◌≤◌, ◌↔◌, All, IfOk, IsNone, IsTrue, None, OnErr, Some, length, slice_index};
ghost use Rattle.lynx_names.specs.declared.limits.TheConstants.{MAX_ENTRIES, MAX_SERVERS};
ghost use Rattle.lynx_seq.specs.Counters.{no_counts, numbers_from, raised};

use crate::draw::Draw;
use lynx_names::limits::MAX_SERVERS;
use lynx_names::{Memory, NumberAt, Numbers, ServerId, ServerList};
use std::alloc::Global;
use std::marker::Model;

const SERVERS: usize = MAX_SERVERS as usize;

/// A counter for each server: how many chains that visit it were given a number. Contracts see the
/// counters, and the numbers of the draw that is out.
#[derive(Debug, Drop)]
pub struct Sequencer {
    pub(crate) counters: [u64; SERVERS],
    /// The servers whose numbers are out.
    pub(crate) out: Option<ServerList>,
}

impl Model for Sequencer {
    ghost use Rattle.lynx_seq.specs.Counters.{IsSequencer, Sequence, drawn_of};

    ghost Value = { Sequence };

    ghost view = { λ sequencer. record {
      counters = sequencer.counters;
      out = drawn_of sequencer.counters sequencer.out;
    } };

    ghost invariant = { λ sequencer. IsSequencer sequencer.counters sequencer.out };
}

impl Sequencer {
    /// No chain has a number yet. Takes no memory.
    pub fn new() -> Sequencer
        ensures { result ≡ record { counters = no_counts; out = None } }
    {
        Sequencer {
            counters: [0; SERVERS],
            out: None,
        }
    }

    /// No draw is out.
    pub fn is_free(&self) -> bool
        ensures { IsTrue result ↔ IsNone self.now.out }
    {
        self.out.is_none()
    }

    /// The number that a chain has for the server, if it begins next.
    pub fn number(&self, server: ServerId) -> u64
        ensures value { result ≡ slice_index self.now.counters server }
        ensures in_range { server < MAX_SERVERS }
    {
        self.counters[server.index()]
    }

    /// The numbers of a chain that visits these servers. No counter rises before they are bound.
    pub fn draw(&mut self, alloc: Global, visits: ServerList) -> Result<Draw, Memory>
        requires free { self.old.out ≡ None }
        requires small { All (λ server.
            slice_index self.old.counters server < MAX_ENTRIES) visits }
        ensures numbers { IfOk result (λ draw. draw ≡ numbers_from self.old.counters visits) }
        ensures out { IfOk result (λ draw. self.new ≡ record self.old { out = Some draw }) }
        ensures err { OnErr result (self.new ≡ self.old) }
    {
        let numbers = numbers_from(alloc, &self.counters, visits.as_slice())?;
        self.out = Some(visits);
        Ok(Draw { numbers })
    }
}

fn numbers_from(alloc: Global, counters: &[u64], visits: &[ServerId]) -> Result<Numbers, Memory>
    requires { MAX_SERVERS ≤ length counters.now }
    ensures numbers { IfOk result (λ numbers. numbers ≡ numbers_from counters.now visits.now) }
    ensures inside { IfOk result (All (λ drawn. drawn.server < MAX_SERVERS)) }
{
    let mut numbers = Numbers::new(alloc);
    for server in visits {
        numbers.push(NumberAt {
            server: *server,
            number: counters[server.index()],
        })?;
    }
    Ok(numbers)
}

pub(crate) fn raise_counters(counters: &mut [u64], numbers: &[NumberAt])
    requires room { MAX_SERVERS ≤ length counters.old }
    requires small { All (λ drawn. drawn.number < MAX_ENTRIES) numbers.now }
    ensures { counters.new ≡ raised numbers.now counters.old }
{
    for drawn in numbers {
        counters[drawn.server.index()] = drawn.number + 1;
    }
}
