//! What a verdict on a set rests on, by lines: the hops that meet, the groups of programs, the
//! programs that keep their first server busy, those that can never begin, and what stands in the
//! way of an offending set.
#![tactic(auto)]

pub use lines::why;
pub use mending::mends;
pub use summaries::{summary, walk_edges};

mod blame;
mod busy;
pub mod culprit;
mod groups;
pub mod hop_lines;
mod joining;
mod late;
pub mod laws;
pub mod lines;
mod meets;
pub mod mending;
mod mixed;
pub mod never;
mod search;
mod sift;
pub mod summaries;
mod without;
