//! Reading and writing the text of a set of chain programs.
#![tactic(auto)]

pub use lynx_lex::{FaultKind, TextFault};
pub use lynx_names::TryCopy;
pub use lynx_set::{Action, ChainSet, Hop, Key, Name, Operand, Operator, Program, Relation};
pub use lynx_shards::ShardFault;
pub use printing::print;
pub use reading::{no_text_spells_two_sets, parse};

mod action_line;
mod lines;
pub mod printing;
mod range_line;
pub mod reading;
mod scope;
mod table_lines;
