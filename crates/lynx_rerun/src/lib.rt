//! Runs over stores: a script's events at servers that go on over what they kept, so that a run can
//! end and the next go on over the same stores.
#![tactic(auto)]

pub use fault::RerunFault;
pub use run::rerun;

mod closing;
mod ending;
pub mod events;
pub mod fault;
mod finding;
mod opening;
pub mod run;
mod running;
