//! Workers: one thread for each server, which sends what the server owes and delivers what comes
//! in. What a worker does with its server, behind that server's lock, it does by [`Steps`].
#![tactic(auto)]

pub use resending::{LONGEST_MILLIS, RESEND_MILLIS};
pub use steps::{Acknowledgement, Arrived, Due, Handled, Heard, Owed, Steps};
pub use worker::Worker;

mod resending;
mod rest;
mod round_trips;
mod route;
mod routes;
pub mod steps;
mod telling;
mod unheard;
pub mod worker;
