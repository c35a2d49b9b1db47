//! Turns of chains at a server, and the messages that wait there for theirs.
#![tactic(auto)]

pub use held::HeldBuffer;
pub use turns::{Stand, Turns};

pub mod held;
pub mod turns;
