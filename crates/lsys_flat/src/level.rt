//! A level with where its symbols come from.
use crate::Origin;
use lsys_module::SymbolList;

/// The symbols of a level, and for each of them where it comes from and its key.
#[derive(Drop)]
pub struct Level {
    pub symbols: SymbolList,
    pub origins: Vec<Origin>,
    pub keys: Vec<u64>,
}
