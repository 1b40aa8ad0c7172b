//! The turtle: what each symbol has it do, and the segments that it draws on its way (ABOP 1.3, 1.5 and 1.6).
//!
//! A turtle takes one symbol at a time, and takes memory only when it is made.
#![tactic(auto)]

mod act;
mod pose;
mod segment;
mod turtle;

pub use act::Act;
pub use segment::{Far, Segment};
pub use turtle::Turtle;
