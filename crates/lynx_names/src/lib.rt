//! Names that the whole store speaks of: servers, tables, programs, clients, chains and stamps, the
//! limits they keep, lists of values, the numbers of a chain, and want of memory.
#![tactic(auto)]

pub use chain::ChainId;
pub use client::ClientId;
pub use fact::learn;
pub use items::Items;
pub use memory::Memory;
pub use numbers::{NumberAt, Numbers};
pub use program::ProgramId;
pub use server::ServerId;
pub use server_list::ServerList;
pub use stamp::Stamp;
pub use table::TableId;
pub use try_copy::TryCopy;

pub mod chain;
pub mod client;
pub mod fact;
pub mod items;
pub mod limits;
pub mod memory;
pub mod numbers;
pub mod program;
pub mod server;
pub mod server_list;
pub mod stamp;
pub mod table;
pub mod try_copy;

/// A list of values: the arguments of a chain, or the results of one hop.
pub type Values = Items<u64>;
