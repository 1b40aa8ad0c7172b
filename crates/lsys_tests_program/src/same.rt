//! Assertions that a run ended as it should. To prove one costs as much as a small function, and more where several stand in one
//! function or beside large values: so they are called.
use lsys_cli::Status;
use std::process::Abort;

/// What was written is this, in the case of this name.
pub(crate) fn is_written(rt: &impl Abort, name: &str, written: &[u8], expected: &[u8]) {
    assert_eq!(rt; written, expected, "{name}");
}

/// A status is this one, in the case of this name.
pub(crate) fn is_status(rt: &impl Abort, name: &str, status: Status, expected: Status) {
    assert_eq!(rt; status, expected, "{name}");
}
