//! Tests of the steps of lists: mates, tags, what is moved, and the level after a level; and of the places that a cut keeps.
//!
//! Tests stand in crates of their own, so that no crate below is proved a second time with its tests.
#![tactic(auto)]

#[cfg(test)]
mod cuts;
#[cfg(test)]
mod same;
#[cfg(test)]
mod steps;
