//! Marks: how much of what a server did is settled.
ghost use Rattle.std.specs.Prelude.{◌≡◌};

/// How many entries of a server were settled, and whether it had stopped, as
/// [`Resting::mark`](crate::Resting::mark) told. There is no other way to have one.
#[derive(Clone, Copy, Debug, PartialEq, Eq)]
pub struct Mark {
    pub(crate) settled: usize,
    pub(crate) is_stopped: bool,
}

impl Mark {
    /// How many entries were settled.
    pub fn settled(&self) -> usize
        ensures { result ≡ self.now.settled }
    {
        self.settled
    }

    /// Whether the server had stopped: then no more entries of it are settled.
    pub fn is_stopped(&self) -> bool
        ensures { result ≡ self.now.is_stopped }
    {
        self.is_stopped
    }
}
