//! Sets of chain programs: what a set is, which rules it keeps, and the text that spells it.
#![tactic(auto)]

pub use action::{Action, Key, Operand, Operator, Relation, Update};
pub use interval::Interval;
pub use lynx_lex::Name;
pub use lynx_names::TryCopy;
pub use program::{Hop, ParameterRange, Program, are_in_range, range_of};
pub use set::ChainSet;
pub use upgrade::upgrade_set;
pub use version::Version;

pub mod action;
mod comparing;
pub mod interval;
pub mod laws;
mod lookups;
pub mod program;
pub mod set;
pub mod upgrade;
pub mod version;
