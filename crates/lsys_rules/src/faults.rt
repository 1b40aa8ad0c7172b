//! What refuses a command, and at which token.

/// Why a command is refused.
#[derive(Clone, Copy)]
pub(crate) enum Cause {
    /// There is no such version, or the system is of another one.
    Version,
    /// A name in an expression is no formal of its rule.
    Name,
    /// A formal of a rule stands twice.
    Duplicate,
    /// A group would have rules with and without a weight.
    Mixed,
    /// The label stands elsewhere, or nowhere.
    Label,
    /// The schedule names a table that has no rule, or would.
    Table,
    /// There is no such level.
    Level,
    /// A limit is passed.
    TooMany,
}

/// Why a command is refused, and the number of the token at which it is, from 0.
#[derive(Clone, Copy)]
pub(crate) struct Fault {
    pub(crate) cause: Cause,
    pub(crate) place: usize,
}
