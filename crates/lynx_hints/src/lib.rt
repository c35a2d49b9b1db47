//! The lines behind the one that names a text's fault: the place, and in words what is wrong there
//! and what was expected or is known. Which word is at fault the readers say. The same of begins
//! that no server takes, though their lines are right. Cases test the words; the contracts say how
//! the lines of a fault begin.
#![tactic(auto)]

pub use begins::{asked_begin_hint, begin_hints};
pub use hints::{Part, hint};
pub use separator::separator_hint;

mod bad_line;
mod before;
pub mod begins;
mod counts;
mod faults;
mod flaw;
pub mod hints;
mod line;
mod names;
mod near;
mod place;
pub mod separator;
mod shards;
mod site;
mod spelling;
mod verb;
mod versions;
mod view;
mod word;
