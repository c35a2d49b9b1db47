use crate::answer::{Answer, Delivered};
use crate::request::Request;
use lynx_names::{ChainId, ServerId, Stamp};

/// What happens to a world.
#[derive(Debug, Drop)]
pub enum Event {
    /// A client asks a server to begin a chain. `seen` is the greatest stamp that its session was
    /// told.
    Begin {
        server: ServerId,
        request: Request,
        seen: Stamp,
    },
    /// The message of that hop comes to its server, once more if it came before.
    Deliver {
        chain: ChainId,
        hop: u8,
    },
    /// The server looks for a held message whose turn it is now.
    Wake {
        server: ServerId,
    },
    /// The message of that hop is lost on its way.
    Lost {
        chain: ChainId,
        hop: u8,
    },
    /// The server is opened again over what it kept. What it held is gone.
    Restart {
        server: ServerId,
    },
}

/// What came of an event.
#[derive(Debug, PartialEq, Eq, Drop)]
pub enum Outcome {
    /// The answer to a begin.
    Answered(Answer),
    /// The answer to a delivery of that hop's message.
    Delivered {
        chain: ChainId,
        hop: u8,
        delivered: Delivered,
    },
    /// A held message was delivered.
    Woken {
        chain: ChainId,
        hop: u8,
        delivered: Delivered,
    },
    /// No entry sends that message.
    NotSent {
        chain: ChainId,
        hop: u8,
    },
    /// The message is lost; it may still come again.
    LostNow {
        chain: ChainId,
        hop: u8,
    },
    /// The server holds no message whose turn it is.
    Idle {
        server: ServerId,
    },
    Restarted {
        server: ServerId,
    },
    /// The set has no such server.
    NoServer,
    /// Want of memory. Nothing has changed.
    Memory,
}
