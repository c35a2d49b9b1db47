//! Random scripts: events over a set, drawn by a seed or made by a search for a cycle, in a text
//! that is judged before it is written.
#![tactic(auto)]

pub use fault::SampleFault;
pub use sample::{SampleOptions, TRIES, sample_text};
pub use script::script_text;

mod arguments;
mod begins;
mod choices;
mod courses;
mod cycles;
mod drawn;
mod events;
pub mod fault;
mod judged;
mod plan;
pub mod sample;
pub mod script;
mod steps;
