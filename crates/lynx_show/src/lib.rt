//! What is told of stores: of one its server, its entries and its cells, and that it was upgraded;
//! of those of a set what cells hold, and what became of a request.
#![tactic(auto)]

pub use detail::Detail;
pub use fault::ShowFault;
pub use finding::request_lines;
pub use reading::{KeyRange, key_lines, range_lines};
pub use show::show_store;
pub use upgrade::{check_upgrade, upgrade_and_tell};

pub mod detail;
pub mod fault;
pub mod finding;
mod listing;
pub mod reading;
pub mod show;
pub mod upgrade;
