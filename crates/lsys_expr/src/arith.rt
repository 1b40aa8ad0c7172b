//! Why an expression has no value.

use thiserror::Error;

/// The first fault met while an expression is evaluated from left to right.
#[derive(Clone, Copy, PartialEq, Eq, Debug, Error)]
pub enum Arith {
    /// A result is no `i64`.
    #[error("overflow")]
    Overflow,
    /// A division by zero, or a remainder of one.
    #[error("divide by zero")]
    DivideByZero,
    /// A power whose exponent is negative.
    #[error("negative power")]
    NegativePower,
}
