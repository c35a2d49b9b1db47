//! Tests of the public calls of the crates from ids to footprints, of encodings, of the checker and
//! of connections. They stand here, and not beside the code, since a crate with tests is proved
//! twice; those of servers and of stores stand in crates of their own, which are proved side by
//! side.
#![tactic(auto)]

#[cfg(test)]
mod cells;
#[cfg(test)]
mod checker;
#[cfg(test)]
mod codec;
#[cfg(test)]
mod copies;
#[cfg(test)]
mod foot;
#[cfg(test)]
mod hops;
#[cfg(test)]
mod names;
#[cfg(test)]
mod port;
#[cfg(test)]
mod shards;
#[cfg(test)]
mod text;
