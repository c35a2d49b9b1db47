//! What a hop of a chain program does to the cells of its server.
#![tactic(auto)]

pub use ran::Ran;
pub use run::{HopFault, run_hop};

pub mod ran;
pub mod run;
pub mod value;
