ghost use Rattle.std.specs.Prelude.{◌≡◌, ◌+◌, ◌<◌, ◌≤◌, ◌^◌, ◌↔◌, ℕ, max, Some, IsSome, IfSome};
ghost use Rattle.lynx_names.specs.declared.limits.TheConstants.{STAMP_LIMIT};

use crate::limits::STAMP_LIMIT;
use std::fmt;
use std::marker::Model;

/// A logical time. Stamps of one server's entries rise, and a hop's is above that of the message it
/// ran on.
#[derive(Clone, Copy, Debug, PartialEq, Eq, PartialOrd, Ord, Hash)]
pub struct Stamp {
    time: u64,
}

impl Model for Stamp {
    ghost Value = { ℕ };

    ghost view = { λ stamp. stamp.time };

    ghost invariant = { λ stamp. stamp.time < STAMP_LIMIT };

    ghost inverse = { λ n. record { time = n } };
}

impl Stamp {
    /// None where the time is outside its range, below [`STAMP_LIMIT`].
    pub fn new(time: u64) -> Option<Stamp>
        ensures valid { IsSome result ↔ (time < STAMP_LIMIT) }
        ensures value { IfSome result (λ stamp. stamp ≡ time) }
    {
        if time < STAMP_LIMIT {
            Some(Stamp { time })
        } else {
            None
        }
    }

    /// Before every entry.
    pub fn zero() -> Stamp
        ensures { result ≡ 0 }
    {
        Stamp { time: 0 }
    }

    pub fn time(self) -> u64
        ensures value { result ≡ self }
        ensures in_range { result < STAMP_LIMIT }
    {
        self.time
    }

    /// The stamp above both, or None where it would leave the range.
    pub fn above(self, other: Stamp) -> Option<Stamp>
        ensures valid { IsSome result ↔ (max self other + 1 < STAMP_LIMIT) }
        ensures value { IfSome result (λ stamp. stamp ≡ max self other + 1) }
    {
        Stamp::new(self.time.max(other.time) + 1)
    }
}

impl fmt::Display for Stamp {
    ghost use Rattle.std.specs.Prelude.{Some};
    ghost use Rattle.std.specs.Fmt.{decimal};

    ghost output = { λ stamp. Some (decimal stamp) };

    fn fmt<W: fmt::Write>(&self, f: &mut fmt::Formatter<W>) -> fmt::Result {
        fmt::Display::fmt(&self.time, f)
    }
}
