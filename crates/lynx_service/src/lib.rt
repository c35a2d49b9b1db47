//! Serving clients over TCP: the stores of a set are opened, a cluster runs over them, each client
//! that comes gets a thread and a session of its own, and once one of them asks for it the cluster
//! is closed, which audits what all were told.
#![tactic(auto)]

pub use closing::{last_words, order_line};
pub use desk::ClientDesk;
pub use end_request::EndRequest;
pub use fault::{CloseWord, CopyWord, Damage, ServeFault, StoreWord};
pub use limits::{
    BRIEF_MILLIS, COPY_RETRY_SECONDS, MAX_BRIEF_WATCHERS, MAX_CLIENTS, MAX_CLOSING_SECONDS,
    MAX_IDLE_SECONDS, MAX_SHUT_SECONDS, MAX_WATCH_SECONDS, MAX_WATCHERS, MAX_WRITE_SECONDS,
    MOST_COPIED,
};
pub use log::{Log, LogFault, LogPlace};
pub use progress::Progress;
pub use service::{Ended, Service, StatusPort, serve_stores};
pub use store_files::StoreFiles;

mod accepting;
pub mod closing;
mod connections;
mod copies;
mod copy_room;
mod copying;
pub mod desk;
pub mod end_request;
pub mod fault;
mod file_limit;
mod identity;
pub mod limits;
mod line_place;
pub mod log;
mod log_file;
mod lookups;
mod metrics;
mod opening;
mod patience;
pub mod progress;
mod readiness;
pub mod service;
mod status;
pub mod store_files;
mod talking;
mod watching;
