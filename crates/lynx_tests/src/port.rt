//! Tests of connections over readers and writers in memory: the worked connection in pieces of any
//! size, each fault, and bytes that are no items.
mod bytes;
mod desk;
mod failing;
mod faults;
mod noise;
mod streams;
mod talk;
mod together;
mod turns;
mod worked;
