//! The lines of scripts, the lines that are printed, and writing them out: docs/FORMATS.md has
//! their forms.
#![tactic(auto)]

pub use full::{full_entry_line, push_asked, push_client, push_full_entry};
pub use printed::{
    cell_line, chains_line, conflict_line, entry_line, outcome_line, push_begun, push_chains,
    push_entry, push_hop, push_hop_done, push_refused, push_spaced, push_values,
};
pub use script::parse_script;
pub use writing::{WriteFailed, write_bytes};

pub mod full;
pub mod printed;
pub mod script;
pub mod writing;
