//! A store that follows a server: what it keeps is at all times a front of what the server did,
//! many entries in one transaction.
#![tactic(auto)]

pub use following::{Follower, Opened, Unfollowed};

pub mod following;
pub mod laws;
mod redoing;
