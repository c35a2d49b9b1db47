//! The jobs that the words of the command line ask for: files and standard input in, lines and a
//! status out.
#![tactic(auto)]

pub use fault::Fault;
pub use hints::Hints;
pub use input::split_input;
pub use jobs::do_job;
pub use mending::{MendingView, mend_set};
pub use source::{InputFault, MAX_FILE_BYTES, MAX_INPUT_BYTES, read_all};
pub use texts::{chart_script, check_set, draw_set, run_input, run_script, sample_set};

mod adding;
mod asking;
mod auditing;
mod books;
pub mod carry_word;
mod carrying;
mod causes;
mod comparing;
mod copied;
mod extending;
pub mod fault;
mod foreign;
mod further;
pub mod hints;
pub mod input;
pub mod jobs;
pub mod laws;
mod looking;
mod looking_up;
pub mod mending;
mod needing;
mod order_file;
mod proposing;
mod reading;
mod real_paths;
mod restoring;
mod rooms;
mod salvaged;
mod serving;
pub mod shown;
pub mod source;
mod spots;
mod stored;
mod storing;
pub mod texts;
mod unchanged;
mod undoing;
