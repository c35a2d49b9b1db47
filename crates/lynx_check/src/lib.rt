//! The verdict on a set: whether a closed walk offends, and a walk of blocks, told by parts and by
//! searches.
#![tactic(auto)]

pub use accepted::{AcceptedSet, Reason};
pub use judge::check;
pub use offender::search_walk;
pub use verdict::Verdict;

pub mod accepted;
mod backward;
pub mod judge;
mod marks;
pub mod offender;
mod parts;
mod search;
mod shortest;
mod tracing;
pub mod verdict;
mod walks;
