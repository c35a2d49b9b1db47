//! Tests of runs, verdicts and sources, where no text can show it: writers and readers that fail.
//! The cases under tests/cases show the printed lines, and the words that ask for them.
#![tactic(auto)]

#[cfg(test)]
mod sources;
#[cfg(test)]
mod writers;
