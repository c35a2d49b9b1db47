//! Pseudo-random numbers.

/// The same numbers for the same start, which isn't 0.
#[derive(Debug, Drop)]
pub struct Luck {
    state: u64,
}

impl Luck {
    pub fn new(start: u64) -> Luck {
        Luck { state: start }
    }

    fn next(&mut self) -> u64 {
        self.state ^= self.state << 13;
        self.state ^= self.state >> 7;
        self.state ^= self.state << 17;
        self.state >> 11
    }

    /// A number below the bound, 0 where there is none.
    pub fn below(&mut self, bound: u64) -> u64 {
        let number = self.next();
        if bound == 0 { 0 } else { number % bound }
    }

    /// Whether it comes so, once in so many times.
    pub fn once_in(&mut self, times: u64) -> bool {
        self.below(times) == 0
    }

    /// The number of one of so many servers.
    pub fn server(&mut self, servers: usize) -> usize {
        self.below(servers as u64) as usize
    }
}
