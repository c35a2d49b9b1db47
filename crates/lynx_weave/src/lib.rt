//! Weaving: the world of the histories of all servers, if there is one, with what sessions were
//! told in it; and gathering: the world of what all servers' keepers keep, however often servers
//! stopped and were opened again.
#![tactic(auto)]

pub use counts::ServerCounts;
pub use cutting::cut;
pub use fault::WeaveFault;
pub use gather_fault::GatherFault;
pub use gathering::gather;
pub use senders::check_senders;
pub use told::ToldItem;
pub use weaving::{Woven, weave, weave_since};

mod agreeing;
pub mod counts;
pub mod cutting;
pub mod fault;
pub mod gather_fault;
pub mod gathering;
mod judging;
pub mod laws;
mod order;
mod rebuilding;
pub mod senders;
mod servers;
pub mod told;
pub mod weaving;
