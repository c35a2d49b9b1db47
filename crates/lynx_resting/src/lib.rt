//! A server of which nobody is told more than is settled: what it did since it settled last is
//! behind its lock, and no answer, look or message tells of it.
#![tactic(auto)]

pub use mark::Mark;
pub use mirror::{Mirror, clock_of};
pub use redoing::changes_of;
pub use resting::Resting;

pub mod laws;
pub mod mark;
pub mod mirror;
mod mirroring;
mod owing;
mod reading;
mod redoing;
pub mod resting;
