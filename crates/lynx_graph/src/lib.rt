//! Walks through the chain programs of a set, closed ones and walks of blocks: which of them
//! offend, and tests that tell it of one; the hops of a set as a graph, in which tables they may
//! conflict, and the groups of programs that conflicts join.
#![tactic(auto)]

pub use block::{Block, BlockWalk};
pub use block_holds::{blocks_hold, entrance_of, exit_of};
pub use edges::{Edge, conflict_edges};
pub use groups::{begin_at_one_server, group_of, leaders_of};
pub use holds::walk_holds;
pub use meeting::{Place, joins};
pub use members::{Member, leader_of, members_of};
pub use nodes::{places_of, program_of};
pub use tables::tables_met;
pub use visit::{Visit, Walk};

pub mod block;
pub mod block_holds;
pub mod edges;
pub mod groups;
pub mod holds;
pub mod meeting;
pub mod members;
pub mod nodes;
mod place_reaches;
pub mod tables;
pub mod visit;
