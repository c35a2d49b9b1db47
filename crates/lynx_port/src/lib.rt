//! One client's connection: the items that it sends are read, and each is answered in the order in
//! which it came.
#![tactic(auto)]

pub use desk::Desk;
pub use fault::PortFault;
pub use serving::{Served, serve};

mod answering;
pub mod desk;
pub mod fault;
pub mod limits;
mod replying;
pub mod serving;
mod together;
mod writing;
