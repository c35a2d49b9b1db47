//! Tests of servers, worlds, weaving and orders, with ample memory: a body that always answers want
//! of memory meets any contract. Steps of a server with its state; histories that weave and that
//! don't, and what sessions were told; and a search that explains each run by itself.
#![tactic(auto)]

#[cfg(test)]
mod cases;
#[cfg(test)]
mod faults;
#[cfg(test)]
mod forged;
#[cfg(test)]
mod held;
#[cfg(test)]
mod histories;
#[cfg(test)]
mod judged;
#[cfg(test)]
mod mirrors;
#[cfg(test)]
mod ninth;
#[cfg(test)]
mod order;
#[cfg(test)]
mod payments;
#[cfg(test)]
mod rebuilt;
#[cfg(test)]
mod searches;
#[cfg(test)]
mod sessions;
#[cfg(test)]
mod since;
#[cfg(test)]
mod steps;
#[cfg(test)]
mod told;
#[cfg(test)]
mod weaving;
#[cfg(test)]
mod world;
