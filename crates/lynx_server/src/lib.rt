//! A server with its state: its history with counters, turns, tables and indexes beside it, the
//! states of a step, which must be spent, and its keeper.
#![tactic(auto)]

pub use books::Books;
pub use fault::OpenFault;
pub use hop_steps::{KeptHop, RanMessage, TakenMessage};
pub use opening::{first_unlawful, same_cells};
pub use rebuilding::rebuild;
pub use register::Register;
pub use server::{Server, Woken};
pub use steps::{Kept, RanStep, RefusedStep, Stepped, Taken};

pub mod books;
mod counting;
pub mod fault;
pub mod hop_steps;
mod keeping;
pub mod laws;
mod marks;
pub mod opening;
mod owed;
pub mod rebuilding;
pub mod register;
mod replay;
pub mod server;
mod settling;
mod sorting;
pub mod steps;
