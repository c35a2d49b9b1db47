//! Whether a set extends another: has all that the other has, under the same numbers, so that the
//! stores of the other can be taken over.
#![tactic(auto)]

pub use extending::extend_fault;
pub use fault::ExtendFault;
pub use places::{Place, first_lost};

pub mod extending;
pub mod fault;
pub mod places;
