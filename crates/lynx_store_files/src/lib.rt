//! The stores of a folder: for each server of a set the file `server-N.lynx`, N being its number,
//! and the keepers over them.
#![tactic(auto)]

pub use carried::carried_path;
pub use closing::close_all;
pub use copies::{Copies, CopyFault, StoreCopy};
pub use databases::Databases;
pub use files::{Files, open_made, open_store, store_path};
pub use folder::{FolderFault, lost_store, make_lacking, open_folder};
pub use keeper::{FileKeeper, StoreKeeper};
pub use presence::restoring_path;
pub use stores::Stores;

mod carried;
pub mod closing;
pub mod copies;
pub mod databases;
pub mod files;
pub mod folder;
pub mod heads;
pub mod keeper;
mod presence;
pub mod stores;
