//! Children that are wanted.
use crate::number::Number;
use lsys_module::Symbol;

/// A child that a successor leaves of a node: the number that names it, its symbol, which is not a cut, and its key.
#[derive(Clone, Copy, Drop)]
pub struct Child {
    pub number: Number,
    pub symbol: Symbol,
    pub key: u64,
}
