//! A cluster: the servers of a set, each behind a lock of its own and with a worker thread, the
//! sessions that begin at them, and the close, which checks all that the sessions were told.
#![tactic(auto)]

pub use closing::Closed;
pub use cluster::{Cluster, Frontend};
pub use fault::{CloseFault, StartFault};
pub use finding::Recorded;
pub use gate::{Gate, OpenGate, StepKind};
pub use glancing::Glance;
pub use host::Host;
pub use opening::Opened;
pub use reading::CellsRead;
pub use session::Session;
pub use shared_server::Pace;
pub use worker_share::WorkerShare;

mod absent;
mod beginning;
pub mod closing;
pub mod cluster;
pub mod fault;
pub mod finding;
pub mod gate;
pub mod glancing;
pub mod host;
mod inbox;
mod leading;
mod looking;
pub mod opening;
mod owing;
mod queue;
pub mod reading;
pub mod session;
mod settling;
pub mod shared_server;
mod shown;
mod signals;
pub mod starting;
mod submission;
mod taking;
mod together;
pub mod worker_share;
mod workers;
