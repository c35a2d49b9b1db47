//! Tests of stores that stop, with ample memory: at each call of a turn that is settled at once, of
//! an upgrade and of what gives a store to another set; and again and again, in random runs over
//! three servers, whose stores gather to one world in the end. What stores keep and tell where
//! nothing stops them is tried by the program, in tests/test_stores.py and tests/test_extend.py.
#![tactic(auto)]

#[cfg(test)]
mod caller;
#[cfg(test)]
mod changes;
#[cfg(test)]
mod disks;
#[cfg(test)]
mod luck;
#[cfg(test)]
mod presence;
#[cfg(test)]
mod reopening;
#[cfg(test)]
mod seeded;
#[cfg(test)]
mod steps;
#[cfg(test)]
mod stopping;
#[cfg(test)]
mod torn;
#[cfg(test)]
mod turns;
#[cfg(test)]
mod wandering;
