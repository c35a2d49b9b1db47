//! Databases of numbered cells: the cells of one server, sets of changes to them, and the laws of
//! writing.
#![tactic(auto)]

pub use cells::Cells;
pub use changes::Changes;

pub mod cells;
pub mod changes;
pub mod laws;
mod ranges;
