//! The numbers of chains: a counter for each server, from which a begin draws the numbers of its
//! chain, and then binds them or gives them back.
#![tactic(auto)]

pub use draw::Draw;
pub use sequencer::Sequencer;

pub mod draw;
pub mod sequencer;
