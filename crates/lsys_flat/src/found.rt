//! What is found out about a symbol.
use lsys_match::Answer;
use std::sync::ledger::Ledger;

/// What is found out about a symbol of a level.
#[derive(Drop)]
pub(crate) enum SymbolAnswer<L: Ledger> {
    /// It has no question, and stays: a bracket, or a module for which there are no rules.
    Stays,
    /// Its question is that of the old answer.
    Same,
    /// Its question is another one, and this is its answer.
    New(Answer<L>),
}
