//! Tests of evaluation on whole scenes that are read from JSON, and nothing else.
//!
//! They stand in a crate of their own so that the crates that evaluate don't wait for the one that reads.
#![tactic(auto)]

#[cfg(test)]
mod flush;
#[cfg(test)]
mod graph;
#[cfg(test)]
mod scenes;
