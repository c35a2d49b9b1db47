//! A world: servers that run one set of chain programs, and all that they did, in one order.
#![tactic(auto)]

pub use added::Added;
pub use listed::Listed;
pub use lynx_entry::{Entry, Event, Outcome};
pub use opening::empty_keepers;
pub use world::World;

pub mod added;
mod carrying;
mod cells;
pub mod laws;
pub mod listed;
pub mod opening;
mod senders;
mod serving;
pub mod world;
