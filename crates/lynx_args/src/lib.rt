//! The words of the command line: the parser of them, and the job that they ask for.
#![tactic(auto)]

pub use job::{
    CarryPlace, CommandFault, INPUT, Job, RestorePlace, RunFlags, SampleFlags, ServeFlags, StoreJob,
};
pub use parser::{VERSION, command, job_of, wants_hints};

mod carry_words;
mod commands;
mod draw_words;
pub mod job;
mod lookup_words;
mod mend_words;
pub mod parser;
mod sample_words;
mod serve_words;
mod words;
