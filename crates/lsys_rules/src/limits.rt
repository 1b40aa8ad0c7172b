//! The limits of a system, as the language states them.

/// The most rules, those of the homomorphism counted.
pub(crate) const MOST_RULES: usize = 256;

/// The most tables, `main` counted.
pub(crate) const MOST_TABLES: usize = 16;

/// The most names after `ignore`, or of a table's own list, as they are written.
pub(crate) const MOST_IGNORED: usize = 64;

/// The most words of a schedule.
pub(crate) const MOST_SCHEDULE_WORDS: usize = 64;

/// The greatest depth in version 1.
pub(crate) const MOST_DEPTH: u64 = 64;

/// The greatest depth in version 2.
pub(crate) const MOST_DEPTH_OF_TWO: u64 = 256;

/// The greatest version.
pub(crate) const GREATEST_VERSION: u64 = 2;
