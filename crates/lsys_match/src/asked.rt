//! What asking answers.
use crate::answer::Answer;
use std::sync::ledger::Ledger;

/// What asking answers.
#[derive(Drop)]
pub enum Asked<L: Ledger> {
    /// The question is the one of the old answer.
    Same,
    /// It is another one, and this is its answer.
    New(Answer<L>),
}
