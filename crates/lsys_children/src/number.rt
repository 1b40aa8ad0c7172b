//! Numbers.

/// A number, which with the parent names a child: a code and a count.
#[derive(Clone, Copy, Debug, Drop, PartialEq, Eq, Hash)]
pub struct Number {
    pub code: u64,
    pub count: u32,
}
