//! Requests, messages, entries and answers as plain data, in which tables of cases are written.

/// A request: of which client, under which number, for which program.
#[derive(Clone, Copy)]
pub struct RequestParts {
    pub client: u64,
    pub number: u64,
    pub program: u8,
    pub args: &'static [u64],
}

/// A message: the origin and the index of its chain, and what stands in it.
#[derive(Clone, Copy)]
pub struct MessageParts {
    pub origin: u8,
    pub index: u64,
    pub program: u8,
    pub hop: u8,
    pub time: u64,
    pub args: &'static [u64],
    pub numbers: &'static [(u8, u64)],
    pub results: &'static [&'static [u64]],
}

/// The entry of a chain that began.
#[derive(Clone, Copy)]
pub struct BegunParts {
    pub request: RequestParts,
    pub seen: u64,
    pub origin: u8,
    pub index: u64,
    pub numbers: &'static [(u8, u64)],
    pub time: u64,
    pub results: &'static [u64],
}

/// The entry of a request that was refused.
#[derive(Clone, Copy)]
pub struct RefusedParts {
    pub request: RequestParts,
    pub seen: u64,
    pub need: u8,
    pub time: u64,
}

/// The entry of a later hop.
#[derive(Clone, Copy)]
pub struct HopParts {
    pub message: MessageParts,
    pub time: u64,
    pub results: &'static [u64],
}

#[derive(Clone, Copy)]
pub enum EntryParts {
    Begun(BegunParts),
    Refused(RefusedParts),
    Hop(HopParts),
}

/// What a begin is answered.
#[derive(Clone, Copy)]
pub enum AnswerParts {
    /// The chain of that origin and index began.
    Begun {
        origin: u8,
        index: u64,
        time: u64,
        results: &'static [u64],
        again: bool,
    },
    Refused {
        need: u8,
        time: u64,
        again: bool,
    },
    Clash,
    UnknownProgram,
    WrongOrigin,
    ArgCount,
    OutsideRange,
    WrongShard,
    Full,
    Busy,
    Stopped,
    Memory,
}

/// What a delivery is answered.
#[derive(Clone, Copy)]
pub enum DeliveredParts {
    Done {
        time: u64,
        results: &'static [u64],
        next: Option<MessageParts>,
    },
    Repeat {
        time: u64,
        results: &'static [u64],
        next: Option<MessageParts>,
    },
    Held,
    Dropped,
    Malformed,
    Full,
    Stopped,
    Memory,
}
