//! The tables of a store, what they hold, and the statements on them: the title in `meta`, the
//! bodies of the entries by place, the cells that are not 0, and in a store of version 2 the hops
//! that ran.
#![tactic(auto)]

pub use acts::Acted;
pub use batch::write_entries;
pub use reading::{StoredRows, read_rows};
pub use rising::Rising;
pub use version::StoreVersion;

pub mod acts;
pub mod batch;
pub mod cells;
pub mod commit;
pub mod entries;
pub mod making;
pub mod meta;
pub mod reading;
pub mod rising;
pub mod schema;
pub mod upgrade;
pub mod version;
