//! What is kept of a level beside its symbols.
use crate::Origin;
use lsys_level::Tag;

/// Where each symbol of a level comes from, and its tag.
#[derive(Drop)]
pub struct Ancestry {
    pub origins: Vec<Origin>,
    pub tags: Vec<Tag>,
}
