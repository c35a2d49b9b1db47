//! Runs, verdicts, pictures and charts: texts in, printed lines out.
#![tactic(auto)]

pub use charting::chart_texts;
pub use drawing::draw_text;
pub use options::{CheckOptions, DrawOptions, RunOptions, Why};
pub use owed::{OwedHop, owed_hops};
pub use refusing::accepted_set;
pub use run::{
    Ending, RunFault, read_script, read_set, run_over_set, run_texts, write_last_lines,
    write_outcome,
};
pub use running::{Ran, run_in_new_world};
pub use verdict::{Finding, check_text};
pub use writing::write_bytes;

pub mod charting;
pub mod drawing;
pub mod options;
pub mod owed;
mod reached;
pub mod refusing;
pub mod run;
pub mod running;
pub mod verdict;
pub mod writing;
