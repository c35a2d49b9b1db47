//! The encodings of all that is kept or sent, and the feed that gives the items of a stream of
//! bytes back.
#![tactic(auto)]

pub use encoding::{append, append_entry, encode};
pub use fault::DecodeFault;
pub use feed::Feed;
pub use item::{Item, Look, Looked};

mod bodies;
mod body;
pub mod encoding;
pub mod fault;
pub mod feed;
mod front;
pub mod item;
pub mod laws;
pub mod limits;
mod reading;
mod sizes;
mod tag;
mod writing;
