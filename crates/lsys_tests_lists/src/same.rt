//! Assertions in functions of their own: to prove one costs as much as a small function, and more where several stand in one function.
//!
//! For the same reason what wants memory ends a test where there is none, by `expect`: each `?` is a way out, at which all is dropped.
use std::fmt::Debug;
use std::process::Abort;

/// A row is this one.
pub(crate) fn is_row<T: PartialEq + Debug>(rt: &impl Abort, found: &[T], want: &[T]) {
    assert_eq!(rt; *found, *want);
}

/// It is so.
pub(crate) fn is_true(rt: &impl Abort, holds: bool) {
    assert!(rt; holds);
}
