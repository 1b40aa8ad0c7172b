//! Tests of derivations: that the one over lists and the one over a forest answer scripts with the same bytes,
//! what a pass does in any order, and what a session holds after each line.
//!
//! Tests stand in crates of their own, so that no crate below is proved a second time with its tests.
#![tactic(auto)]

#[cfg(test)]
mod both;
#[cfg(test)]
mod cases;
#[cfg(test)]
mod holding;
#[cfg(test)]
mod orders;
#[cfg(test)]
mod pass_edits;
#[cfg(test)]
mod same;
#[cfg(test)]
mod scripts;
#[cfg(test)]
mod tables;
#[cfg(test)]
mod writing;
