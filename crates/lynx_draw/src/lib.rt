//! A picture of a set of chain programs, as a graph that Graphviz draws.
#![tactic(auto)]

pub use colours::colour_at;
pub use picture::{draw, draw_changed};
pub use shown::Extent;

mod boxes;
mod captions;
mod changes;
mod clusters;
pub mod colours;
mod late;
mod lines;
mod marks;
mod nodes;
mod parts;
pub mod picture;
mod programs;
pub mod shown;
mod spot;
mod steps;
mod tables;
