//! What makes an offending set accepted: changes of programs, smallest first, each of them judged
//! by the checker before it is told.
#![tactic(auto)]

pub use change::Change;
pub use marks::{ProgramMarks, TableMarks};
pub use mending::Mending;
pub use proposing::{MAX_MENDINGS, mend};
pub use words::put_mending;

mod actions;
mod beside;
mod cells;
pub mod change;
mod cuts;
mod deciding;
mod gathering;
mod judging;
pub mod marks;
pub mod mending;
mod moves;
mod offenders;
mod places;
mod programs;
pub mod proposing;
mod ranges;
mod roles;
mod search;
mod source;
mod trial;
mod trials;
pub mod words;
mod writing;
