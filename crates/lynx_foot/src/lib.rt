//! Which cells the hops of chain programs touch and how, and which two hops conflict or may
//! conflict.
#![tactic(auto)]

pub use collision::{conflict, touches_collide};
pub use foot::{Foot, footprint};
pub use kind::Kind;
pub use lynx_set::Key;
pub use may_collide::{may_conflict, reaches_may_collide};
pub use reach::{Reach, reach_of, reaches};
pub use touch::{Touch, touches};

pub mod collision;
pub mod foot;
pub mod kind;
pub mod laws;
pub mod may_collide;
pub mod reach;
pub mod touch;
