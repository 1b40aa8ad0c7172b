//! Growth: how often each letter stands in a level, however deep it is, without the level.
//!
//! In a system in which every module of a letter is rewritten alike, the counts of a level's letters are those of the level
//! before it times the matrix of the step. So the row of the axiom's counts is taken times a power of the matrix of a whole turn
//! through the schedule, and then times the matrices of the steps that are left. All numbers stop at 2^128.
#![tactic(auto)]

mod answer;
mod capped;
mod class;
mod counting;
mod growing;
mod laws;
mod letters;
mod matrix;
mod power;
mod refusal;
mod steps;
mod tables;
mod turns;

pub use answer::{Count, Growth};
pub use growing::growth;
pub use laws::{
    law_of_depth, law_of_growth, law_of_lengths, law_of_letters, law_of_stopping, law_of_turns,
};
pub use matrix::{Matrix, multiply};
pub use refusal::GrowthRefusal;
pub use steps::Steps;
