use lynx_entry::{Answer, Entry, Message, Request};
use lynx_names::{ChainId, Stamp, Values};

/// A question for a hop's entry.
#[derive(Debug, PartialEq, Eq, Drop)]
pub struct Look {
    pub chain: ChainId,
    pub hop: u8,
}

/// What a look is answered.
#[derive(Debug, PartialEq, Eq, Drop)]
pub enum Looked {
    /// The hop has no entry.
    Absent,
    /// The hop has an entry of that stamp, with these results.
    Found { stamp: Stamp, results: Values },
}

/// Whatever is kept or sent, each with an encoding in bytes.
#[derive(Debug, PartialEq, Eq, Drop)]
pub enum Item {
    /// From a client.
    Request(Request),
    /// From a client.
    Look(Look),
    /// From a client that leaves.
    Quit,
    /// From a client that closes the store.
    Shut,
    /// To a client.
    Answer(Answer),
    /// To a client.
    Looked(Looked),
    /// To a client, before the connection is closed.
    Bye,
    /// From a server to a server.
    Message(Message),
    /// Kept by a server.
    Entry(Entry),
}
