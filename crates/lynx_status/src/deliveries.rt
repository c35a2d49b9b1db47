//! How often a server answered deliveries, by kind.
ghost use Rattle.std.specs.Prelude.{◌≡◌};
ghost use Rattle.lynx_status.specs.Deliveries.{counted, no_deliveries};

use lynx_entry::Delivered;

/// How often a server gave each answer to a delivery. A count stays at the greatest number once it
/// is there.
#[derive(Clone, Copy, Debug, PartialEq, Eq)]
pub struct Deliveries {
    pub done: u64,
    pub repeat: u64,
    pub held: u64,
    pub dropped: u64,
    pub malformed: u64,
    pub full: u64,
    pub stopped: u64,
    pub memory: u64,
}

impl Deliveries {
    /// No message was delivered.
    pub fn new() -> Deliveries
        ensures { result ≡ no_deliveries }
    {
        Deliveries {
            done: 0,
            repeat: 0,
            held: 0,
            dropped: 0,
            malformed: 0,
            full: 0,
            stopped: 0,
            memory: 0,
        }
    }

    /// Counts an answer.
    pub fn count(&mut self, delivered: &Delivered)
        ensures { self.new ≡ counted self.old delivered.now }
    {
        match delivered {
            Delivered::Done { .. } => self.done = self.done.saturating_add(1),
            Delivered::Repeat { .. } => self.repeat = self.repeat.saturating_add(1),
            Delivered::Held => self.held = self.held.saturating_add(1),
            Delivered::Dropped => self.dropped = self.dropped.saturating_add(1),
            Delivered::Malformed => self.malformed = self.malformed.saturating_add(1),
            Delivered::Full => self.full = self.full.saturating_add(1),
            Delivered::Stopped => self.stopped = self.stopped.saturating_add(1),
            Delivered::Memory => self.memory = self.memory.saturating_add(1),
        }
    }
}
