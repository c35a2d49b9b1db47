//! The blocks of a set that are late: they aren't forward, and programs of other origins meet them
//! where they are entered and where they are left. They are all that stands between an offending
//! set and acceptance by blocks.
#![tactic(auto)]

pub use abroad::{hops_abroad, reaches_abroad};
pub use blocks::late_blocks;

pub mod abroad;
pub mod blocks;
pub mod laws;
