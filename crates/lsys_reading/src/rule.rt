//! A whole rule.
ghost use Rattle.std.specs.Prelude.{◌≡◌, ◌≤◌, length, IfOk};
ghost use Rattle.lsys_reading.specs.Tokens.{kinds_in, size};
ghost use Rattle.lsys_reading.specs.RuleLines.{IsRuleLine, IsRuleRead, IsLineRead};

use crate::form::Form;
use crate::head::head;
use crate::images::{ImageSymbol, successor};
use crate::line_tokens::LineTokens;
use crate::patterns::{PatternModule, PatternSymbol};
use crate::refusal::PartRefusal;
use crate::span::{ExprSpan, arrow, condition, weight};
use std::alloc::Global;

/// A rule, as its line's tokens spell it. A context that is not there has no symbols.
#[derive(Drop)]
pub struct RuleLine {
    pub left: Vec<PatternSymbol>,
    pub predecessor: PatternModule,
    pub right: Vec<PatternSymbol>,
    pub condition: Option<ExprSpan>,
    pub weight: Option<ExprSpan>,
    pub successor: Vec<ImageSymbol>,
}

/// The rule that the tokens from a place on are, up to the line's end: after the colon of a line that begins with
/// `production` or `hom`.
///
/// # Errors
///
/// `Token` and `Deep` have the place of the first token with which no such line goes on, and `Memory` is lack of memory.
pub(crate) fn rule_line(
    alloc: Global,
    line: &LineTokens,
    at: usize,
    form: Form,
) -> Result<RuleLine, PartRefusal>
    requires within { at ≤ size line.now }
    ensures read { IsLineRead form (kinds_in line.now) at result }
    ensures spans { IfOk result (λ r. IsRuleLine (kinds_in line.now) r) }
{
    rule_parts(alloc, line, at, form)
}

// The same, by the machine of rules alone.
fn rule_parts(
    alloc: Global,
    line: &LineTokens,
    at: usize,
    form: Form,
) -> Result<RuleLine, PartRefusal>
    requires within { at ≤ size line.now }
    ensures read { IsRuleRead form (kinds_in line.now) at result }
    ensures spans { IfOk result (λ r. IsRuleLine (kinds_in line.now) r) }
{
    let head = head(alloc, line, at, form)?;
    let condition = condition(line, head.end)?;
    let weight = weight(line, condition.end, form)?;
    let end = arrow(line, weight.end)?;
    let successor = successor(alloc, line, end, form)?;
    Ok(RuleLine {
        left: head.left,
        predecessor: head.predecessor,
        right: head.right,
        condition: condition.span,
        weight: weight.span,
        successor,
    })
}
