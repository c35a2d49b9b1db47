//! A keeper of entries and cells in an SQLite database.
#![tactic(auto)]

pub use extending::{Extended, check_extend, extend_store};
pub use fault::StoreFault;
pub use heading::Heading;
pub use inspecting::{Inspected, are_in_tables, inspect};
pub use keeper::SqlKeeper;
pub use salvaging::{Salvaged, salvage};
pub use upgrading::{check_upgrade, upgrade_store};

mod acts;
pub mod batch;
mod body;
mod columns;
pub mod extending;
pub mod fault;
pub mod heading;
pub mod inspecting;
pub mod keeper;
pub mod laws;
mod loading;
pub mod opening;
pub mod salvaging;
pub mod upgrading;
