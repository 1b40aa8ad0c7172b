//! Tests of levels as vectors, walked from end to end, and of what walks of contexts over them read.
//!
//! Tests stand in crates of their own, so that no crate below is proved a second time with its tests.
#![tactic(auto)]

#[cfg(test)]
mod levels;
#[cfg(test)]
mod same;
#[cfg(test)]
mod walks;
