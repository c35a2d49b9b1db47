//! Carries cells, by the names of their tables, to new stores of a set: plans chains of the set
//! that leave them, runs the chains in memory, and checks what they left.
#![tactic(auto)]

pub use carrying::carry;
pub use counting::entries_of;
pub use fault::CarryFault;
pub use naming::{NamedCell, named_cells};
pub use planning::plan;
pub use server_histories::histories;

pub mod carrying;
mod checking;
pub mod counting;
pub mod fault;
mod filling;
mod judging;
mod keys;
mod left;
pub mod naming;
pub mod planning;
mod running;
pub mod server_histories;
mod slots;
mod writers;
