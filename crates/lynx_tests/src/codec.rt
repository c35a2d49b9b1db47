//! Tests of encodings: worked encodings, least and greatest fields, faults, streams, and a slow
//! reading of the rules beside the feed.
mod bytes;
mod encodings;
mod extremes;
mod faults;
mod feeding;
mod items;
mod slow;
mod streams;
mod turned;
