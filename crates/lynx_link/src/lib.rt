//! The links between the servers of one process: a ring for each ordered pair of servers, each end
//! at one thread.
#![tactic(auto)]

pub use ends::Ends;
pub use linking::links;
pub use parcel::Parcel;
pub use receiver::Receiver;
pub use ring::{RING_PARCELS, new_ring};
pub use sender::Sender;

pub mod ends;
mod linking;
pub mod parcel;
pub mod receiver;
pub mod ring;
pub mod sender;
