//! Where a symbol comes from.

/// The place of a symbol's parent in the level above, and the symbol's code and count among the parent's children. By
/// places the code is 0 and the count is the symbol's place. Children that were cut off are counted too.
#[derive(Clone, Copy, PartialEq, Eq, PartialOrd, Ord, Debug)]
pub struct Origin {
    pub parent: u32,
    pub code: u64,
    pub count: u32,
}
