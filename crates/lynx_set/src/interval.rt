ghost use Rattle.std.specs.Prelude.{◌≡◌};
ghost use Rattle.lynx_set.specs.Intervals.{holds, meets, one_number};

/// The numbers from `low` to `high`, both among them. There is none where `high` is below `low`.
#[derive(Clone, Copy, Debug, PartialEq, Eq)]
pub struct Interval {
    pub low: u64,
    pub high: u64,
}

impl Interval {
    /// That number alone.
    pub fn one(number: u64) -> Interval
        ensures { result ≡ one_number number }
    {
        Interval {
            low: number,
            high: number,
        }
    }

    /// Whether the number is in the interval.
    pub fn holds(self, number: u64) -> bool
        ensures { result ≡ holds self number }
    {
        self.low <= number && number <= self.high
    }

    /// Whether neither interval ends before the other begins.
    pub fn meets(self, other: Interval) -> bool
        ensures { result ≡ meets self other }
    {
        self.low <= other.high && other.low <= self.high
    }
}
