//! A search for a run that ends with a cycle: circles of chains, a schedule for one, and arguments
//! with which none of its begins is refused. What it finds is a guess: nothing is promised of it,
//! and who asks looks whether it holds.

pub(crate) use making::made_events;

mod budget;
mod circles;
mod draft;
mod facts;
mod helping;
mod joints;
mod making;
mod playing;
mod pool;
mod program_facts;
mod run;
mod schedule;
mod search;
mod sparing;
