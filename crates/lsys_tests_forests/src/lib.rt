//! Tests of a forest through its public calls: its levels are walked both ways, before they are linked and then.
//!
//! Tests stand in crates of their own, so that no crate below is proved a second time with its tests.
#![tactic(auto)]

#[cfg(test)]
mod forest_levels;
#[cfg(test)]
mod forests;
#[cfg(test)]
mod same;
