//! What a server decides, by definition (`specs/`): answers, deliveries, and the entries they add.
//! The code is that of the parts which need no state.
#![tactic(auto)]

pub use messages::next_of;

pub mod answers;
pub mod checks;
pub mod deliveries;
mod messages;
pub mod visits;
