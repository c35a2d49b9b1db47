//! What the store promises, as laws: each the contract of a function that does nothing. They hold
//! of every set, and of every list of events, whatever the code is that runs them.
#![tactic(auto)]

pub mod laws;
