//! Tests of what no script can show: readers and writers that fail, sinks in memory, the laws of lattices in generic code, draws and
//! keys by themselves, who reads what, and what values of errors are told as.
//!
//! What a script can show stands in `conformance/cases`. Tests stand in crates of their own, so that no crate below is proved a second
//! time with its tests.
#![tactic(auto)]

#[cfg(test)]
mod draws;
#[cfg(test)]
mod lattices;
#[cfg(test)]
mod read_lines;
#[cfg(test)]
mod readers;
#[cfg(test)]
mod same;
#[cfg(test)]
mod sinks;
#[cfg(test)]
mod standard;
#[cfg(test)]
mod values;
