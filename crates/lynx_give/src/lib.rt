//! The stores of a folder given to a set that extends theirs. All are opened, and with that locked,
//! until the end.
#![tactic(auto)]

pub use fault::GiveFault;
pub use giving::give_stores;

mod closing;
mod extending;
pub mod fault;
pub mod giving;
mod lines;
mod looking;
mod making;
pub mod store;
