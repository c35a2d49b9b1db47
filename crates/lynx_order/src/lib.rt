//! Serial runs, precedence and explanation: which order of the begun chains gives what a world's
//! servers did.
#![tactic(auto)]

pub use explained::Explained;
pub use explaining::{explain, explain_by_search};
pub use touching::touches_in;

mod begun;
mod by_origin;
mod certificate;
mod cycle;
pub mod explained;
pub mod explaining;
pub mod laws;
mod links;
mod listed;
mod listing;
mod picked;
mod picks;
mod ranks;
mod rising;
mod search;
mod table;
pub mod touching;
