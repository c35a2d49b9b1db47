//! Two hops that don't conflict change places.
#![tactic(auto)]

pub mod laws;
