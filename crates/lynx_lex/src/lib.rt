//! Words, lines, numbers and names of texts, and the faults of texts.
#![tactic(auto)]

pub use fault::{FaultKind, TextFault, WordFault, at};
pub use name::Name;

pub mod fault;
pub mod lines;
pub mod name;
pub mod number;
