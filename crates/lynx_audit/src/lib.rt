//! Audits of stores that nobody has open: what the end of a service checks, and which hops are
//! owed.
#![tactic(auto)]

pub use auditing::{audit, kept_world};
pub use owing::{list_owed, owing_lines};

pub mod auditing;
mod histories;
mod latest;
pub mod owing;
mod sizes;
mod weaving;
