//! Tests of links and of a running cluster: full rings, the order of parcels and the rings of all
//! pairs; the worked sessions, two threads inside two servers at once, begins that are asked
//! together, a store that fails in a settling, why a cluster doesn't start or close, and a worker
//! over a server that stands in. Many begins by many clients are tried at a service, in
//! tests/test_loads.py.
#![tactic(auto)]

#[cfg(test)]
mod apart;
#[cfg(test)]
mod barrier;
#[cfg(test)]
mod busy;
#[cfg(test)]
mod closes;
#[cfg(test)]
mod crossing;
#[cfg(test)]
mod fake;
#[cfg(test)]
mod full;
#[cfg(test)]
mod keepers;
#[cfg(test)]
mod meetings;
#[cfg(test)]
mod pairs;
#[cfg(test)]
mod parcels;
#[cfg(test)]
mod reopened;
#[cfg(test)]
mod rows;
#[cfg(test)]
mod sessions;
#[cfg(test)]
mod settles;
#[cfg(test)]
mod slow;
#[cfg(test)]
mod starts;
#[cfg(test)]
mod talk;
#[cfg(test)]
mod texts;
#[cfg(test)]
mod together;
#[cfg(test)]
mod trouble;
#[cfg(test)]
mod waits;
#[cfg(test)]
mod workers;
