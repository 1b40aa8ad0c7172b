//! Counting the tokens, symbols and parameters of a rule.
ghost use Rattle.std.specs.Prelude.{◌≡◌, ◌≤◌, ◌<◌, ◌+◌, [], ◌∷◌, IfOk};
ghost use Rattle.lsys_syntax.specs.Limits.{most_params, most_rule_tokens, most_successor_symbols};
ghost use Rattle.lsys_syntax.specs.Tokens.{Kind};
ghost use Rattle.lsys_syntax.specs.Pieces.{a_param, a_symbol, note, token};
ghost use Rattle.lsys_bodies.specs.Counting.{Counting, IsOneMore, counts_with, inside_passes, next_passes, counts_of};
ghost use Rattle.lsys_bodies.specs.CountedParts.{CountsExpression, CountsParam};

use crate::counter::RuleCounts;

/// The most tokens of an expression.
const MOST_EXPRESSION_TOKENS: usize = 256;

/// The most tokens of a rule, those after the colon of its label.
const MOST_RULE_TOKENS: usize = 2048;

/// The most formals or parameters of a module.
const MOST_PARAMS: usize = 8;

impl RuleCounts {
    // Each answers what is counted after what it counts, or the tokens before the one at which a limit is passed.

    // A token, by which so many symbols and parameters begin.
    fn one_more(self, symbols: usize, params: usize) -> Result<RuleCounts, usize>
        requires few { params ≤ most_params + 1 }
        ensures { IsOneMore self symbols params result }
    {
        if self.next_passes(symbols, params) {
            return Err(self.tokens);
        }
        Ok(RuleCounts {
            tokens: self.tokens + 1,
            symbols,
            most: self.most,
            params,
        })
    }

    fn next_passes(self, symbols: usize, params: usize) -> bool
        ensures { result ≡ next_passes self symbols params }
    {
        symbols > self.most || params > MOST_PARAMS || self.tokens + 1 > MOST_RULE_TOKENS
    }

    // The token that a symbol begins with.
    pub(crate) fn symbol(self) -> Result<RuleCounts, usize>
        ensures { (k : Kind) → Counting self (note a_symbol ∷ token k ∷ []) result }
    {
        self.one_more(self.symbols + 1, 0)
    }

    // Another token.
    pub(crate) fn mark(self) -> Result<RuleCounts, usize>
        ensures counted { (k : Kind) → Counting self (token k ∷ []) result }
        ensures few { IfOk result (λ d. d.params ≤ most_params) }
    {
        self.one_more(self.symbols, self.params)
    }

    // A formal after a mark.
    pub(crate) fn formal(self) -> Result<RuleCounts, usize>
        ensures { (j k : Kind) → Counting self (token j ∷ note a_param ∷ token k ∷ []) result }
    {
        let marked = self.mark()?;
        marked.one_more(marked.symbols, marked.params + 1)
    }

    // A parameter of so many tokens after a mark.
    pub(crate) fn param(self, size: usize) -> Result<RuleCounts, usize>
        ensures { CountsParam self size result }
    {
        let marked = self.mark()?;
        marked.tokens_inside(marked.params + 1, size)
    }

    // An expression of so many tokens that is no parameter.
    pub(crate) fn expression(self, size: usize) -> Result<RuleCounts, usize>
        ensures { CountsExpression (counts_of self) size result }
    {
        self.tokens_inside(self.params, size)
    }

    // The tokens of an expression, where so many parameters are counted.
    fn tokens_inside(self, params: usize, size: usize) -> Result<RuleCounts, usize>
        requires few { params ≤ most_params + 1 }
        ensures { CountsExpression (counts_with self self.symbols params) size result }
    {
        let mut tokens = self.tokens;
        for done in 0..size {
            if inside_passes(tokens, params, done) {
                return Err(tokens);
            }
            tokens += 1;
        }
        Ok(RuleCounts {
            tokens,
            symbols: self.symbols,
            most: self.most,
            params,
        })
    }

    // Before a string that may have so many symbols.
    pub(crate) fn section(self, most: usize) -> RuleCounts
        requires { most ≤ most_successor_symbols }
        ensures tokens { result.tokens ≡ self.tokens }
        ensures symbols { result.symbols ≡ 0 }
        ensures most { result.most ≡ most }
        ensures params { result.params ≡ self.params }
    {
        RuleCounts {
            tokens: self.tokens,
            symbols: 0,
            most,
            params: self.params,
        }
    }
}

// Whether the next token of an expression passes a limit, where `done` of them are counted.
fn inside_passes(tokens: usize, params: usize, done: usize) -> bool
    requires few { tokens ≤ most_rule_tokens }
    requires within { done < usize.MAX }
    ensures { result ≡ inside_passes tokens params done }
{
    params > MOST_PARAMS || done + 1 > MOST_EXPRESSION_TOKENS || tokens + 1 > MOST_RULE_TOKENS
}
