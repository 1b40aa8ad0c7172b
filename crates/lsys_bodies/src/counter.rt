//! What is counted along a rule.
ghost use Rattle.std.specs.Prelude.{◌≤◌, ◌+◌};
ghost use Rattle.lsys_syntax.specs.Limits.{most_params, most_rule_tokens, most_successor_symbols};

/// What was counted up to a token that no expression has.
#[derive(Clone, Copy)]
pub(crate) struct RuleCounts {
    /// The tokens of the rule.
    pub tokens: usize,
    /// The symbols of the string that the token stands in.
    pub symbols: usize,
    /// The most symbols that it may have.
    pub most: usize,
    /// The parameters of the last symbol.
    pub params: usize,
    ghost few_tokens: { tokens ≤ most_rule_tokens },
    ghost few_symbols: { symbols ≤ most },
    ghost few_most: { most ≤ most_successor_symbols },
    ghost few_params: { params ≤ most_params + 1 },
}
