ghost use Rattle.std.specs.Prelude.{◌≡◌, ◌+◌, ℕ, None, Some, if◌then◌else◌, slice_index};
ghost use Rattle.lynx_seq.specs.Counters.{has_number};

use crate::sequencer::{Sequencer, raise_counters};
use lynx_names::{NumberAt, Numbers};
use std::marker::Model;

/// Numbers that a sequencer gave out. They must be bound, or given back.
#[derive(Debug)]
pub struct Draw {
    pub(crate) numbers: Numbers,
}

impl Model for Draw {
    ghost use Rattle.std.specs.Prelude.{List};
    ghost use Rattle.lynx_names.specs.declared.numbers.NumberAt.{NumberAt};

    ghost Value = { List NumberAt };

    ghost view = { λ draw. draw.numbers };
}

impl Draw {
    pub fn numbers(&self) -> &[NumberAt]
        ensures { result.now ≡ self.now }
    {
        self.numbers.as_slice()
    }

    /// A chain has the numbers now: the next draw gives the numbers after them. Takes no memory.
    pub fn bind(self, sequencer: &mut Sequencer) -> Numbers
        requires { sequencer.old.out ≡ Some self }
        ensures numbers { result ≡ self }
        ensures out { sequencer.new.out ≡ None }
        ensures each { (server : ℕ) → slice_index sequencer.new.counters server
            ≡ (if has_number self server then slice_index sequencer.old.counters server + 1
            else slice_index sequencer.old.counters server) }
    {
        let Draw { numbers } = self;
        raise_counters(&mut sequencer.counters, numbers.as_slice());
        sequencer.out = None;
        numbers
    }

    /// No chain took the numbers: the next draw gives them once more. Takes no memory.
    pub fn give_back(self, sequencer: &mut Sequencer)
        requires { sequencer.old.out ≡ Some self }
        ensures { sequencer.new ≡ record sequencer.old { out = None } }
    {
        let Draw { numbers: _ } = self;
        sequencer.out = None;
    }
}
