//! Tests of the program over sources and sinks in memory: scripts with their replies, words, ends that fail,
//! and the codes of statuses.
//!
//! Tests stand in crates of their own, so that no crate below is proved a second time with its tests.
#![tactic(auto)]

#[cfg(test)]
mod edits;
#[cfg(test)]
mod failing;
#[cfg(test)]
mod options;
#[cfg(test)]
mod runs;
#[cfg(test)]
mod same;
