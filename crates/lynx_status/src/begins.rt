//! How often a server answered begins, by answer.
ghost use Rattle.std.specs.Prelude.{◌≡◌};
ghost use Rattle.lynx_status.specs.Begins.{counted, no_begins};

use lynx_entry::Answer;

/// How often a server gave each answer to a begin. What was answered again, by the record of an
/// earlier request, is counted apart. A count stays at the greatest number once it is there.
#[derive(Clone, Copy, Debug, PartialEq, Eq)]
pub struct Begins {
    pub begun: u64,
    pub begun_again: u64,
    pub clash: u64,
    pub unknown_program: u64,
    pub wrong_origin: u64,
    pub arg_count: u64,
    pub outside_range: u64,
    pub wrong_shard: u64,
    pub full: u64,
    pub busy: u64,
    pub refused: u64,
    pub refused_again: u64,
    pub stopped: u64,
    pub memory: u64,
}

impl Begins {
    /// No begin was answered.
    pub fn new() -> Begins
        ensures { result ≡ no_begins }
    {
        Begins {
            begun: 0,
            begun_again: 0,
            clash: 0,
            unknown_program: 0,
            wrong_origin: 0,
            arg_count: 0,
            outside_range: 0,
            wrong_shard: 0,
            full: 0,
            busy: 0,
            refused: 0,
            refused_again: 0,
            stopped: 0,
            memory: 0,
        }
    }

    /// Counts an answer.
    pub fn count(&mut self, answer: &Answer)
        ensures { self.new ≡ counted self.old answer.now }
    {
        match answer {
            Answer::Begun { again: false, .. } => self.begun = self.begun.saturating_add(1),
            Answer::Begun { .. } => self.begun_again = self.begun_again.saturating_add(1),
            Answer::Clash => self.clash = self.clash.saturating_add(1),
            Answer::UnknownProgram => {
                self.unknown_program = self.unknown_program.saturating_add(1);
            }
            Answer::WrongOrigin => self.wrong_origin = self.wrong_origin.saturating_add(1),
            Answer::ArgCount => self.arg_count = self.arg_count.saturating_add(1),
            Answer::OutsideRange => self.outside_range = self.outside_range.saturating_add(1),
            Answer::WrongShard => self.wrong_shard = self.wrong_shard.saturating_add(1),
            Answer::Full => self.full = self.full.saturating_add(1),
            Answer::Busy => self.busy = self.busy.saturating_add(1),
            Answer::Refused { again: false, .. } => self.refused = self.refused.saturating_add(1),
            Answer::Refused { .. } => self.refused_again = self.refused_again.saturating_add(1),
            Answer::Stopped => self.stopped = self.stopped.saturating_add(1),
            Answer::Memory => self.memory = self.memory.saturating_add(1),
        }
    }
}
