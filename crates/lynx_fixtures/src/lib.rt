//! What tests of several crates use: worked set texts and a run, parts of which requests, messages
//! and entries are made, and a writer that fails.
#![tactic(auto)]

pub mod cells;
pub mod full;
pub mod made;
pub mod parts;
pub mod payments;
pub mod rows;
pub mod texts;
