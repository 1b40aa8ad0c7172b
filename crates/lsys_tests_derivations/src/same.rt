//! Assertions that two values are the same. To prove one costs as much as a small function, and more where several stand in one
//! function or beside large values: so they are called.
use std::process::Abort;

/// Bytes are these, in the case of this name.
pub(crate) fn is_same(rt: &impl Abort, name: &str, found: &[u8], want: &[u8]) {
    assert_eq!(rt; found, want, "{name}");
}
