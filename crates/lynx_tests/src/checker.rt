//! Tests of the checker and of pictures: worked verdicts and walks, random sets beside a plain
//! enumeration, a whole picture, and the largest sets.
mod blocks;
mod edges;
mod expected;
mod largest;
mod pictures;
mod plain;
mod small;
mod verdicts;
mod walks;
