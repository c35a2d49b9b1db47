//! New stores of the greatest world below copies of stores: how much of the copies fits together,
//! stores that are given just these entries, and what clients have to be told.
#![tactic(auto)]

pub use fault::RestoreFault;
pub use longest::restore_longest;
pub use refill_fault::RefillFault;
pub use refilling::refill;
pub use restored::{Restored, RestoredServer};
pub use restoring::restore;
pub use storing::store_histories;
pub use telling::restored_lines;
pub use undone::Undone;

mod copying;
pub mod fault;
pub mod longest;
pub mod refill_fault;
pub mod refilling;
pub mod restored;
pub mod restoring;
pub mod storing;
mod summing;
pub mod telling;
pub mod undone;
