use lynx_entry::Message;
use lynx_names::ChainId;

/// What one server sends another, or itself.
#[derive(Debug, PartialEq, Eq, Drop)]
pub enum Parcel {
    /// The message of a hop that the receiver has to run.
    Message(Message),
    /// That hop of the chain was done, so its message need not be sent again.
    Done { chain: ChainId, hop: u8 },
}
