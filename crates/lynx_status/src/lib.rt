//! What a running service tells of itself over HTTP/1.1: how it is, its figures for Prometheus, a
//! page for people, its set, and how far a chain has come. Whoever knows the figures is a
//! [`Watched`]; sockets, threads and clocks are its business and the caller's.
#![tactic(auto)]

pub use asking::{Asked, Refusal, asked_for};
pub use begins::Begins;
pub use cells::{CellsFigures, CellsFound, cell_json, cells_json};
pub use chain::{ChainFigures, HopFigures, RanHop, chain_json};
pub use commits::CommitTimes;
pub use copies::{CopyCommand, CopyDone, CopyFigures};
pub use deliveries::Deliveries;
pub use desk::StatusDesk;
pub use figures::{Figures, ServerFigures};
pub use hashing::set_hash;
pub use health::health_text;
pub use metrics::metrics_text;
pub use page::page_text;
pub use recent::{RecentEntry, RecentKind};
pub use records::{
    ChainRecord, RecordFigures, RecordOutcome, RecordsFound, chain_record_json, request_json,
};
pub use shapes::Shape;
pub use wanted::{CellRange, Wanted};
pub use watched::Watched;

mod answering;
pub mod asking;
pub mod begins;
mod cell_lines;
pub mod cells;
pub mod chain;
mod chart;
mod commanding;
pub mod commits;
pub mod copies;
pub mod deliveries;
pub mod desk;
mod fields;
pub mod figures;
mod gauges;
pub mod hashing;
pub mod health;
mod hosts;
mod lookups;
pub mod metrics;
mod outcomes;
pub mod page;
mod parted;
mod paths;
mod question;
pub mod recent;
mod record_lines;
pub mod records;
mod reply;
mod script;
pub mod shapes;
mod style;
mod tables;
mod timing;
pub mod wanted;
mod wanting;
pub mod watched;
