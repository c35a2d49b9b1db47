//! How long commits took.
ghost use Rattle.std.specs.Prelude.{◌≡◌, ◌<◌};
ghost use Rattle.lynx_status.specs.Commits.{bucket_of, no_commits, timed};

/// How many counts there are of commits: one for each limit, and one for those above all limits.
pub const BUCKETS: usize = 11;

/// The limits, in microseconds.
const LIMITS: [u64; BUCKETS - 1] = [
    100, 500, 1_000, 5_000, 10_000, 50_000, 100_000, 500_000, 1_000_000, 5_000_000,
];

/// How many commits took how long. A count, and the sum, stays at the greatest number once it is
/// there.
#[derive(Clone, Copy, Debug, PartialEq, Eq)]
pub struct CommitTimes {
    /// For each limit those that took as long at most, and longer than the limit before; then
    /// those above all limits. The limits are 0.1, 0.5, 1, 5, 10, 50, 100 and 500 milliseconds, 1
    /// and 5 seconds.
    pub counts: [u64; BUCKETS],
    /// Microseconds that all of them took.
    pub sum_micros: u64,
}

/// The place of the count of commits that took so many microseconds.
fn bucket_of(micros: u64) -> usize
    ensures value { result ≡ bucket_of micros }
    ensures bound { result < BUCKETS }
{
    LIMITS.iter().filter(|limit| **limit < micros).count()
}

impl CommitTimes {
    /// There was no commit.
    pub fn new() -> CommitTimes
        ensures { result ≡ no_commits }
    {
        CommitTimes {
            counts: [0; BUCKETS],
            sum_micros: 0,
        }
    }

    /// Counts a commit that took so many microseconds.
    pub fn count(&mut self, micros: u64)
        ensures { self.new ≡ timed self.old micros }
    {
        let bucket = bucket_of(micros);
        self.counts[bucket] = self.counts[bucket].saturating_add(1);
        self.sum_micros = self.sum_micros.saturating_add(micros);
    }
}
