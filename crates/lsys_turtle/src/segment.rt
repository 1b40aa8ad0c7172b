//! What a step of a turtle gives.

use lsys_lattice::Place;
use thiserror::Error;

/// A line that a turtle drew, from one place to another, with a width of 1 to 1,000.
#[derive(Clone, Copy, PartialEq, Eq, Debug)]
pub struct Segment {
    pub from: Place,
    pub to: Place,
    pub width: u32,
}

/// A move to a place with a coordinate past 1,000,000,000 in magnitude.
#[derive(Clone, Copy, PartialEq, Eq, Debug, Error)]
#[error("a move past the coordinates that a turtle may have")]
pub struct Far;
